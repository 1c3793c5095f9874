ghost use Rattle.std.specs.Prelude.{◌≡◌, ◌<◌, All, length};
ghost use Rattle.std.specs.List.{list_any};
ghost use Rattle.net_values.specs.Columns.{Lists};
ghost use Rattle.net_values.specs.FlatNets.{net_of};
ghost use Rattle.net_values.specs.PlaceArcs.{ListsPositive};
ghost use Rattle.net_values.specs.PlaceSets.{has};
ghost use Rattle.closed_sets.specs.Growth.{is_open};
ghost use Rattle.closed_sets.specs.Kinds.{seen_as};

use net_values::{FlatNet, PlaceSet, WeightedPlace};

/// Which closed sets are meant: siphons, or traps, which are the siphons of the net with every arc turned
/// round.
#[derive(Clone, Copy)]
pub(crate) enum Kind {
    Siphon,
    Trap,
}

impl Kind {
    /// The input places of transition `t`; for traps its output places.
    pub(crate) fn inputs<'a>(self, net: &'a FlatNet, t: usize) -> &'a [WeightedPlace]
        requires { t < (net_of net.now).transitions }
        ensures { Lists (net_of net.now).places (λ p. (seen_as self (net_of net.now)).pre p t) result.now }
    {
        match self {
            Kind::Siphon => net.inputs(t),
            Kind::Trap => net.outputs(t),
        }
    }

    /// The output places of transition `t`; for traps its input places.
    pub(crate) fn outputs<'a>(self, net: &'a FlatNet, t: usize) -> &'a [WeightedPlace]
        requires { t < (net_of net.now).transitions }
        ensures { Lists (net_of net.now).places (λ p. (seen_as self (net_of net.now)).post p t) result.now }
    {
        match self {
            Kind::Siphon => net.outputs(t),
            Kind::Trap => net.inputs(t),
        }
    }

    /// The transitions that have place `p` as an input place; for traps as an output place.
    pub(crate) fn takers<'a>(self, net: &'a FlatNet, p: usize) -> &'a [usize]
        requires { p < (net_of net.now).places }
        ensures lists { ListsPositive (λ t. (seen_as self (net_of net.now)).pre p t) result.now }
        ensures within { All (λ t. t < (net_of net.now).transitions) result.now }
    {
        match self {
            Kind::Siphon => net.takers(p),
            Kind::Trap => net.givers(p),
        }
    }

    /// The transitions that have place `p` as an output place; for traps as an input place.
    pub(crate) fn givers<'a>(self, net: &'a FlatNet, p: usize) -> &'a [usize]
        requires { p < (net_of net.now).places }
        ensures lists { ListsPositive (λ t. (seen_as self (net_of net.now)).post p t) result.now }
        ensures within { All (λ t. t < (net_of net.now).transitions) result.now }
    {
        match self {
            Kind::Siphon => net.givers(p),
            Kind::Trap => net.takers(p),
        }
    }

    /// Whether transition `t` has an output place in the set and no input place in it.
    pub(crate) fn is_open(self, net: &FlatNet, set: &PlaceSet, t: usize) -> bool
        requires size { length set.now ≡ (net_of net.now).places }
        requires transition { t < (net_of net.now).transitions }
        ensures { result ≡ is_open (seen_as self (net_of net.now)) (has set.now) t }
    {
        meets(self.outputs(net, t), set) && !meets(self.inputs(net, t), set)
    }
}

/// Whether the place of an entry is in the set.
pub(crate) fn meets(entries: &[WeightedPlace], set: &PlaceSet) -> bool
    requires { All (λ entry. entry.place < length set.now) entries.now }
    ensures { result ≡ list_any (λ entry. has set.now entry.place) entries.now }
{
    for entry in entries {
        if set.contains(entry.place) {
            return true;
        }
    }
    false
}
