use net_values::{MAX_ENTRIES, NoMemory, PlaceSet};
use std::alloc::Global;

/// The set of these places, of this size, or of the greatest size that there is. Places past it are left out.
pub fn place_set(alloc: Global, size: usize, places: &[usize]) -> Result<PlaceSet, NoMemory> {
    let mut set = PlaceSet::new(alloc, size.min(MAX_ENTRIES))?;
    for p in places {
        if *p < set.size() {
            set.insert(*p);
        }
    }
    Ok(set)
}
