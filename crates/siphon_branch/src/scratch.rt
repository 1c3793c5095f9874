ghost use Rattle.std.specs.Prelude.{◌≡◌, [], All, IfOk, OnOk, length};
ghost use Rattle.net_values.specs.FlatNets.{net_of};
ghost use Rattle.siphon_branch.specs.Held.{HasSizesOf};

use crate::live_class::LiveClass;
use closed_sets::Fallen;
use net_values::{FlatNet, List, NoMemory, PlaceSet};
use std::alloc::Global;

/// What a walk writes over: what is left of a class's greatest siphon, the places of a siphon that it needs, a list
/// of places, and classes that are done.
#[derive(Drop)]
pub(crate) struct Scratch {
    pub(crate) left: PlaceSet,
    pub(crate) needed: PlaceSet,
    pub(crate) fallen: Fallen,
    pub(crate) spares: List<LiveClass>,
}

impl Scratch {
    /// Empty sets of the net's size, and no class.
    pub(crate) fn new(alloc: Global, net: &FlatNet) -> Result<Scratch, NoMemory>
        ensures left { IfOk result (λ scratch. length scratch.left ≡ (net_of net.now).places) }
        ensures needed { IfOk result (λ scratch. length scratch.needed ≡ (net_of net.now).places) }
        ensures spares { IfOk result (λ scratch. scratch.spares ≡ []) }
    {
        Ok(Scratch {
            left: PlaceSet::new(alloc, net.places())?,
            needed: PlaceSet::new(alloc, net.places())?,
            fallen: Fallen::none(),
            spares: List::new(alloc),
        })
    }
}

/// A class equal to this one, written over a spare one where there is one.
pub(crate) fn copy_to_spare(
    alloc: Global,
    class: &LiveClass,
    spares: &mut List<LiveClass>,
) -> Result<LiveClass, NoMemory>
    requires { All (HasSizesOf class.now) spares.old }
    ensures copy { IfOk result (λ copy. copy ≡ class.now) }
    ensures spares { All (HasSizesOf class.now) spares.new }
{
    let Some(mut spare) = spares.pop() else {
        return class.copy(alloc);
    };
    spare.copy_over(class);
    Ok(spare)
}
