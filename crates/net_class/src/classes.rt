ghost use Rattle.std.specs.Prelude.{◌↔◌, IsTrue};
ghost use Rattle.net_values.specs.FlatNets.{net_of};
ghost use Rattle.closed_sets.specs.Commoner.{IsOrdinary};
ghost use Rattle.net_class.specs.Classes.{IsStateMachine, IsMarkedGraph, IsFreeChoice};

use crate::membership::Class;
use crate::neighbours::Neighbours;
use crate::places::have_one_transition;
use crate::takers::choices_are_free;
use crate::transitions::{have_one_place, have_unit_weights};
use net_values::FlatNet;

/// The classes of a net. It takes no memory, and goes over each arc a few times.
pub fn class(net: &FlatNet) -> Class
    ensures ordinary { IsTrue result.ordinary ↔ IsOrdinary (net_of net.now) }
    ensures state_machine { IsTrue result.state_machine ↔ IsStateMachine (net_of net.now) }
    ensures marked_graph { IsTrue result.marked_graph ↔ IsMarkedGraph (net_of net.now) }
    ensures free_choice { IsTrue result.free_choice ↔ IsFreeChoice (net_of net.now) }
{
    if !is_ordinary(net) {
        return Class {
            ordinary: false,
            state_machine: false,
            marked_graph: false,
            free_choice: false,
        };
    }
    Class {
        ordinary: true,
        state_machine: is_state_machine(net),
        marked_graph: is_marked_graph(net),
        free_choice: choices_are_free(net),
    }
}

/// Whether every arc has the weight 1.
fn is_ordinary(net: &FlatNet) -> bool
    ensures { IsTrue result ↔ IsOrdinary (net_of net.now) }
{
    have_unit_weights(Neighbours::Inputs, net) && have_unit_weights(Neighbours::Outputs, net)
}

/// Whether an ordinary net is a state machine.
fn is_state_machine(net: &FlatNet) -> bool
    requires { IsOrdinary (net_of net.now) }
    ensures { IsTrue result ↔ IsStateMachine (net_of net.now) }
{
    have_one_place(Neighbours::Inputs, net) && have_one_place(Neighbours::Outputs, net)
}

/// Whether an ordinary net is a marked graph.
fn is_marked_graph(net: &FlatNet) -> bool
    requires { IsOrdinary (net_of net.now) }
    ensures { IsTrue result ↔ IsMarkedGraph (net_of net.now) }
{
    have_one_transition(Neighbours::Inputs, net) && have_one_transition(Neighbours::Outputs, net)
}
