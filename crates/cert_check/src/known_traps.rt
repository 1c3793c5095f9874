ghost use Rattle.std.specs.Prelude.{◌≡◌, ℕ, ◌<◌, ◌≤◌, ◌↔◌, IfOk, IsTrue, false, length};
ghost use Rattle.net_values.specs.FlatNets.{net_of};
ghost use Rattle.net_values.specs.PlaceSets.{has};
ghost use Rattle.net_values.specs.declared.limits.TheConstants.{MAX_PLACES};
ghost use Rattle.closed_sets.specs.Commoner.{HasMarkedTrap, IsInitiallyEmpty};
ghost use Rattle.closed_sets.specs.Opens.{AreLeaving};
ghost use Rattle.cert_check.specs.KnownTraps.{AreMarkedTraps, HasRoomFor};

use crate::walk::empty_sets;
use crate::walk_moves::clear;
use closed_sets::{Fallen, has_marked_trap_from};
use net_values::{FlatNet, NoMemory, PlaceSet};
use std::alloc::Global;

/// Marked traps that were found, at most one for each place: that of the last leaf below a split at the place. The next
/// such leaf mostly contains it too. The others are scratch.
#[derive(Drop)]
pub struct KnownTraps {
    pub known: PlaceSet,
    pub traps: Vec<PlaceSet>,
    pub found: PlaceSet,
    pub fallen: Fallen,
}

impl KnownTraps {
    /// The memory for nets of this number of places.
    pub fn new(alloc: Global, places: usize) -> Result<KnownTraps, NoMemory>
        requires { places ≤ MAX_PLACES }
        ensures { IfOk result (HasRoomFor places) }
    {
        Ok(KnownTraps {
            known: PlaceSet::new(alloc, places)?,
            traps: empty_sets(alloc, places)?,
            found: PlaceSet::new(alloc, places)?,
            fallen: Fallen::none(),
        })
    }

    /// Knows none.
    pub fn forget(&mut self)
        ensures same { (self.new.traps ≡ self.old.traps) × (self.new.found ≡ self.old.found) }
        ensures size { length self.new.known ≡ length self.old.known }
        ensures none { (p : ℕ) → p < length self.old.known → has self.new.known p ≡ false }
    {
        clear(&mut self.known);
    }

    /// Whether the set contains a marked trap: the one that is known for place `p`, or else one that is found, which
    /// is known for the place from then on.
    pub fn has_one_in(
        &mut self,
        net: &FlatNet,
        set: &PlaceSet,
        leaving: &PlaceSet,
        unmarked: &PlaceSet,
        p: usize,
    ) -> bool
        requires room { HasRoomFor (net_of net.now).places self.old }
        requires traps { AreMarkedTraps (net_of net.now) self.old }
        requires set { length set.now ≡ (net_of net.now).places }
        requires leaving { AreLeaving (net_of net.now) set.now leaving.now }
        requires places { length unmarked.now ≡ (net_of net.now).places }
        requires unmarked { IsInitiallyEmpty (net_of net.now) unmarked.now }
        requires place { p < (net_of net.now).places }
        ensures exact { IsTrue result ↔ HasMarkedTrap (net_of net.now) (has set.now) }
        ensures known { IsTrue result → IsTrue (has self.new.known p) }
        ensures room { HasRoomFor (net_of net.now).places self.new }
        ensures traps { AreMarkedTraps (net_of net.now) self.new }
    {
        if self.known.contains(p) && self.traps[p].is_subset(set) {
            return true;
        }
        if !has_marked_trap_from(
            net,
            set,
            leaving,
            unmarked,
            &mut self.found,
            &mut self.fallen,
        ) {
            return false;
        }
        self.traps[p].copy_from(&self.found);
        self.known.insert(p);
        true
    }
}
