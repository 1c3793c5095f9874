ghost use Rattle.std.specs.Prelude.{◌≡◌, ◌≤◌, IfOk, OnOk, count_by};
ghost use Rattle.std.specs.List.{flat_map};
ghost use Rattle.net_values.specs.FlatNets.{transition_ids};
ghost use Rattle.net_values.specs.Items.{is_place, is_transition};
ghost use Rattle.page_flatten.specs.Flat.{flat_places, flat_transitions};
ghost use Rattle.page_flatten.specs.Tables.{HasNoArcs, AddsNodes, HasRoomFor};

use net_values::{FlatNet, Item, MAX_PLACES, MAX_TRANSITIONS, NoMemory};
use std::alloc::Global;

/// The net of the places and transitions among the items, without arcs.
pub fn net_of_nodes(alloc: Global, items: &[Item]) -> Result<FlatNet, NoMemory>
    requires places { count_by is_place items.now ≤ MAX_PLACES }
    requires transitions { count_by is_transition items.now ≤ MAX_TRANSITIONS }
    ensures places { IfOk result (λ net. net.places ≡ flat_map flat_places items.now) }
    ensures transitions { IfOk result
        (λ net. transition_ids net ≡ flat_map flat_transitions items.now) }
    ensures arcs { IfOk result HasNoArcs }
{
    let mut net = FlatNet::new(alloc);
    for item in items {
        add_node(alloc, item, &mut net)?;
    }
    Ok(net)
}

/// Adds an item to the net, where it is a place or a transition.
fn add_node(alloc: Global, item: &Item, net: &mut FlatNet) -> Result<(), NoMemory>
    requires { HasRoomFor net.old item.now }
    ensures { OnOk result (AddsNodes net.old net.new item.now) }
{
    match item {
        Item::Place(node) => net.add_place(node.id.copy(alloc)?, node.initial),
        Item::Transition(node) => net.add_transition(node.id.copy(alloc)?),
        _ => Ok(()),
    }
}
