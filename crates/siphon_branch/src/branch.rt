ghost use Rattle.std.specs.Prelude.{◌≡◌, ◌≤◌, IfOk};
ghost use Rattle.siphon_branch.specs.Classes.{every_set};

use net_values::{List, MAX_ENTRIES, NoMemory, PlaceSet};
use std::alloc::Global;

/// A class of siphons: those that contain the one set of places and avoid the other.
#[derive(Drop)]
pub struct Branch {
    pub contains: PlaceSet,
    pub avoids: PlaceSet,
}

/// A list of classes.
pub type Branches = List<Branch>;

impl Branch {
    /// The class of all siphons of a net with this many places.
    pub fn all(alloc: Global, places: usize) -> Result<Branch, NoMemory>
        requires { places ≤ MAX_ENTRIES }
        ensures { IfOk result (λ class. class ≡ every_set places) }
    {
        Ok(Branch {
            contains: PlaceSet::new(alloc, places)?,
            avoids: PlaceSet::new(alloc, places)?,
        })
    }
}
