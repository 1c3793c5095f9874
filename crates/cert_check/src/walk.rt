ghost use Rattle.std.specs.Prelude.{◌≡◌, ◌≤◌, ◌<◌, All, IfOk, length, replicate, false};
ghost use Rattle.net_values.specs.declared.limits.TheConstants.{MAX_PLACES};
ghost use Rattle.cert_check.specs.Walks.{HasSizes};

use closed_sets::Fallen;
use net_values::{MAX_TRANSITIONS, NoMemory, PlaceSet};
use std::alloc::Global;

/// A split on the way to a class, and on which side of it the class is: that of the siphons with its place, or of
/// those without it. Where it says that its own class is empty, no nonempty siphon belongs to that.
#[derive(Clone, Copy)]
pub struct Level {
    pub place: usize,
    pub contained: bool,
    pub empty: bool,
}

/// The way through a tree to the class of the next line: the splits above it, the set that its siphons contain, the
/// places of the splits, and the greatest siphon that avoids what the class avoids. Where the walk says that the class
/// is empty, no nonempty siphon belongs to it, and there is nothing to keep. For each split what was kept of its own
/// class is saved. The transitions that take from the contained set and give nothing back to it are kept too, and the
/// places without a token.
#[derive(Drop)]
pub struct Walk {
    pub levels: Vec<Level>,
    pub depth: usize,
    pub contained: PlaceSet,
    pub used: PlaceSet,
    pub empty: bool,
    pub live: PlaceSet,
    pub saved: Vec<PlaceSet>,
    pub leaving: PlaceSet,
    pub unmarked: PlaceSet,
    pub trap: PlaceSet,
    pub fallen: Fallen,
}

impl Walk {
    /// The memory for nets of this number of places.
    pub fn new(alloc: Global, places: usize) -> Result<Walk, NoMemory>
        requires { places ≤ MAX_PLACES }
        ensures { IfOk result (HasSizes places) }
    {
        let nowhere = Level {
            place: 0,
            contained: false,
            empty: false,
        };
        Ok(Walk {
            levels: vec![in alloc; nowhere; places]?,
            depth: 0,
            contained: PlaceSet::new(alloc, places)?,
            used: PlaceSet::new(alloc, places)?,
            empty: false,
            live: PlaceSet::new(alloc, places)?,
            saved: empty_sets(alloc, places)?,
            leaving: PlaceSet::new(alloc, MAX_TRANSITIONS)?,
            unmarked: PlaceSet::new(alloc, places)?,
            trap: PlaceSet::new(alloc, places)?,
            fallen: Fallen::none(),
        })
    }
}

/// As many empty sets as there are places.
pub(crate) fn empty_sets(alloc: Global, places: usize) -> Result<Vec<PlaceSet>, NoMemory>
    requires { places ≤ MAX_PLACES }
    ensures { IfOk result (λ sets. sets.items ≡ replicate places (replicate places false)) }
{
    let mut sets = Vec::with_capacity(alloc, places)?;
    for _place in 0..places {
        sets.push(PlaceSet::new(alloc, places)?)?;
    }
    Ok(sets)
}
