ghost use Rattle.std.specs.Prelude.{◌≡◌};
ghost use Rattle.closed_sets.specs.Guards.{guards};

use net_values::PlaceSet;

/// The places that must not fall: as soon as one of them does, no more is looked at.
#[derive(Clone, Copy)]
pub(crate) enum Guard<'a> {
    Nothing,
    Below(usize),
    Members(&'a PlaceSet),
}

impl<'a> Guard<'a> {
    /// Whether place `p` must not fall.
    pub(crate) fn holds(self, p: usize) -> bool
        ensures { result ≡ guards self.entry p }
    {
        match self {
            Guard::Nothing => false,
            Guard::Below(bound) => p < bound,
            Guard::Members(set) => p < set.size() && set.contains(p),
        }
    }
}
