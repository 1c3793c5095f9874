ghost use Rattle.std.specs.Prelude.{◌≡◌, [], ◌∷◌, ◌++◌, ◌<◌, IfNone, length};
ghost use Rattle.std.specs.Option.{option_to_list};

use net_values::MAX_PLACES;
use std::marker::Model;

/// The places that fell out of a set and whose transitions are still to be looked at, in a room of fixed
/// size. Contracts see it as their list, the last one at the end.
#[derive(Drop)]
pub struct Fallen {
    room: [u16; MAX_PLACES],
    count: usize,
}

impl Model for Fallen {
    ghost use Rattle.std.specs.Prelude.{List, ℕ, ◌≡◌, ◌≤◌, length, take};
    ghost use Rattle.net_values.specs.declared.limits.TheConstants.{MAX_PLACES};

    ghost Value = { List ℕ };

    ghost view = { λ f. take f.count f.room };

    ghost invariant = { λ f. (f.count ≤ MAX_PLACES) × (length f.room ≡ MAX_PLACES) };
}

impl Fallen {
    /// No place.
    pub fn none() -> Fallen
        ensures { result ≡ [] }
    {
        Fallen {
            room: [0; MAX_PLACES],
            count: 0,
        }
    }

    /// Forgets all places.
    pub(crate) fn clear(&mut self)
        ensures { self.new ≡ [] }
    {
        self.count = 0;
    }

    /// Adds a place.
    pub(crate) fn push(&mut self, p: usize)
        requires room { length self.old < MAX_PLACES }
        requires place { p < MAX_PLACES }
        ensures { self.new ≡ self.old ++ p ∷ [] }
    {
        self.room[self.count] = p as u16;
        self.count += 1;
    }

    /// Takes the last place out and gives it.
    pub(crate) fn pop(&mut self) -> Option<usize>
        ensures rest { self.old ≡ self.new ++ option_to_list result }
        ensures empty { IfNone result (self.new ≡ []) }
    {
        if self.count == 0 {
            return None;
        }
        self.count -= 1;
        Some(usize::from(self.room[self.count]))
    }
}
