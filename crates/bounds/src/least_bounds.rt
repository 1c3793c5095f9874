ghost use Rattle.std.specs.Prelude.{◌≡◌, ℕ, OnOk, IfOk, IfErr, length};
ghost use Rattle.std.specs.Cmp.Lexicographic.{slice_cmp};
ghost use Rattle.std.specs.Ordering.{nat_cmp};
ghost use Rattle.net_values.specs.FlatNets.{net_of};
ghost use Rattle.net_values.specs.TheList.{IsTheList};
ghost use Rattle.incidence.specs.Matrix.{incidence_of};
ghost use Rattle.incidence.specs.Semiflow.{IsSemiflow, all_columns};
ghost use Rattle.semiflow_elim.specs.Bases.{IsMinimalRow};
ghost use Rattle.semiflow_elim.specs.Generated.{IsGenerated};
ghost use Rattle.bounds.specs.Listed.{AreLeastBounds, BoundsHold};
ghost use Rattle.bounds.specs.Listed.{NameFirstRows, IsFirstWideRow, AreNarrowRows};

use crate::bound_list::Bounds;
use crate::fault::BoundFault;
use crate::place_bound::tighten_all;
use incidence::initial_tokens;
use net_values::{FlatNet, Rows};
use std::alloc::Global;

/// The least bound of each place over all semiflows of places, read off the list of the minimal ones, with
/// the first listed row that gives it (Memmi and Roucairol, "Linear algebra in net theory", 1980).
/// `WideBound` comes exactly where the weighted tokens of a row at the initial marking exceed 2^127 - 1, and
/// names the first such row.
pub fn bounds(alloc: Global, net: &FlatNet, rows: &Rows) -> Result<Bounds, BoundFault>
    requires list { IsTheList (slice_cmp nat_cmp) (IsMinimalRow (incidence_of (net_of net.now)) all_columns) rows.now }
    requires generates { (y : ℕ → ℕ) → IsSemiflow (incidence_of (net_of net.now)) all_columns y →
        IsGenerated (incidence_of (net_of net.now)) rows.now y }
    ensures places { IfOk result (λ bounds. length bounds ≡ (net_of net.now).places) }
    ensures least { IfOk result (λ bounds. AreLeastBounds (net_of net.now) bounds) }
    ensures first { IfOk result (λ bounds. NameFirstRows (net_of net.now) rows.now bounds) }
    ensures holds { IfOk result (λ bounds. BoundsHold (net_of net.now) bounds) }
    ensures narrow { OnOk result (AreNarrowRows (net_of net.now) rows.now (length rows.now)) }
    ensures wide { IfErr result (λ fault. (row : ℕ) → fault ≡ BoundFault.WideBound row →
        IsFirstWideRow (net_of net.now) rows.now row) }
{
    let Ok(mut bounds) = vec![in alloc; None; net.places()] else {
        return Err(BoundFault::NoMemory);
    };
    for (number, row) in rows.as_slice().iter().enumerate() {
        let Ok(tokens) = initial_tokens(net, row) else {
            return Err(BoundFault::WideBound(number));
        };
        tighten_all(bounds.as_mut_slice(), row, tokens, number);
    }
    Ok(Bounds { bounds })
}
