ghost use Rattle.std.specs.Prelude.{◌≡◌, ◌<◌, length};
ghost use Rattle.bounds.specs.Listed.{kept_at, told};

use crate::place_bound::PlaceBound;
use std::marker::Model;

/// The least bound of each place that has one, with the first row that gives it. Contracts see the list
/// of what the places have.
#[derive(Drop)]
pub struct Bounds {
    pub(crate) bounds: Vec<Option<PlaceBound>>,
}

impl Model for Bounds {
    ghost use Rattle.std.specs.Prelude.{List, Option};
    ghost use Rattle.bounds.specs.declared.place_bound.PlaceBound.{PlaceBound};
    ghost use Rattle.bounds.specs.Listed.{AreNarrow};

    ghost Value = { List (Option PlaceBound) };

    ghost view = { λ b. b.bounds.items };

    ghost invariant = { λ b. AreNarrow b.bounds.items };
}

impl Bounds {
    /// The number of places.
    pub fn places(&self) -> usize
        ensures { result ≡ length self.now }
    {
        self.bounds.len()
    }

    /// The bound of a place, and the number of the first row that gives it; none where no semiflow
    /// covers the place.
    pub fn get(&self, p: usize) -> Option<(i128, usize)>
        requires { p < length self.now }
        ensures { result ≡ told (kept_at self.now p) }
    {
        let kept = self.bounds[p]?;
        Some((kept.bound as i128, kept.row))
    }
}
