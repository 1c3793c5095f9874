ghost use Rattle.std.specs.Prelude.{◌≡◌, ◌-◌, ◌*◌, ◌<◌, ◌^◌, OkIff, IfOk, OnOk, All, length, slice_index, ℕ};
ghost use Rattle.net_values.specs.Columns.{Lists};
ghost use Rattle.net_values.specs.FlatNets.{net_of, IsFlatNet};
ghost use Rattle.incidence.specs.Sums.{sum_below};

use crate::sparse::SparseTable;
use crate::wide_sum::{WideSum, add_product};
use net_values::{FlatNet, NoMemory, Vector, WeightedPlace};
use std::alloc::Global;

/// What a transition gives beyond what it takes, or what it takes beyond what it gives.
#[derive(Clone, Copy)]
pub enum Side {
    Gain,
    Loss,
}

impl Side {
    ghost use Rattle.incidence.specs.Excess.{arcs_of, back_of, excess_of, IsSide, FillsColumn};
    ghost use Rattle.incidence.specs.Tables.{at};

    /// The weights of the arcs of this side.
    fn arcs(self, net: &FlatNet, t: usize) -> &[WeightedPlace]
        requires { t < (net_of net.now).transitions }
        ensures lists { Lists (net_of net.now).places (λ p. arcs_of self (net_of net.now) p t) result.now }
        ensures narrow { All (λ entry. entry.weight < 2 ^ 80) result.now }
    {
        match self {
            Side::Gain => net.outputs(t),
            Side::Loss => net.inputs(t),
        }
    }

    /// How much of a weight the other side leaves.
    fn excess(self, net: &FlatNet, p: usize, t: usize, weight: u128) -> u128
        requires place { p < (net_of net.now).places }
        requires transition { t < (net_of net.now).transitions }
        ensures { result ≡ weight - back_of self (net_of net.now) p t }
    {
        match self {
            Side::Gain => weight.saturating_sub(net.pre(p, t)),
            Side::Loss => weight.saturating_sub(net.post(p, t)),
        }
    }

    /// The sum of the excess of a transition over the places, each times the factor of its place.
    pub fn weighted_sum(self, net: &FlatNet, factors: &Vector, t: usize) -> Result<u128, WideSum>
        requires factors { length factors.now ≡ (net_of net.now).places }
        requires transition { t < (net_of net.now).transitions }
        ensures { let sum = sum_below (net_of net.now).places (λ p. slice_index factors.now p * excess_of self (net_of net.now) p t) in
            OkIff result (sum < 2 ^ 127) sum }
    {
        let arcs = self.arcs(net, t);
        let mut total = 0;
        for arc in arcs {
            let excess = self.excess(net, arc.place, t, arc.weight);
            total = add_product(total, factors.entry_at(arc.place), excess)?;
        }
        Ok(total)
    }

    /// Fills the empty column of a transition.
    fn fill(self, table: &mut SparseTable, net: &FlatNet, t: usize) -> Result<(), NoMemory>
        requires height { table.old.height ≡ (net_of net.now).places }
        requires width { length table.old.lists ≡ (net_of net.now).transitions }
        requires transition { t < (net_of net.now).transitions }
        requires empty { (p : ℕ) → at table.old p t ≡ 0 }
        ensures { OnOk result (FillsColumn table.old table.new self (net_of net.now) t) }
    {
        let arcs = self.arcs(net, t);
        for arc in arcs {
            let excess = self.excess(net, arc.place, t, arc.weight);
            table.add(arc.place, t, excess)?;
        }
        Ok(())
    }

    /// The table of this side of a net's incidence.
    pub fn table(self, alloc: Global, net: &FlatNet) -> Result<SparseTable, NoMemory>
        ensures side { IfOk result (λ table. IsSide table self (net_of net.now)) }
        ensures limits { IsFlatNet net.now }
    {
        let mut table = SparseTable::zeros(alloc, net.places(), net.transitions())?;
        for t in 0..net.transitions() {
            self.fill(&mut table, net, t)?;
        }
        Ok(table)
    }
}
