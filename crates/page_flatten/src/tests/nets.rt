use super::Given::{self, Arc, Page, PageEnd, Place, RefPlace, RefTransition, Transition};
use super::document;
use crate::flatten;
use net_values::FlatNet;
use pnml_grammar::is_valued;
use std::process::Abort;
use std::test::Fail;

/// A flat net: its places with their initial markings, its transitions, the weights from a place to a
/// transition and from a transition to a place, both by the numbers of place and transition with those
/// that are 0 left out, and the number of its arcs.
#[derive(Clone, Copy)]
pub struct Net {
    pub places: &'static [(&'static str, u64)],
    pub transitions: &'static [&'static str],
    pub pre: &'static [(usize, usize, u128)],
    pub post: &'static [(usize, usize, u128)],
    pub arcs: usize,
}

const NETS: [(&[Given], Net); 7] = [
    (
        &[],
        Net {
            places: &[],
            transitions: &[],
            pre: &[],
            post: &[],
            arcs: 0,
        },
    ),
    (
        &[Place("p", 3), Transition("t"), Arc("a", "p", "t", 2)],
        Net {
            places: &[("p", 3)],
            transitions: &["t"],
            pre: &[(0, 0, 2)],
            post: &[],
            arcs: 1,
        },
    ),
    // parallel arcs are summed, in each direction
    (
        &[
            Transition("t"),
            Place("p", 0),
            Arc("a", "t", "p", 1),
            Arc("b", "t", "p", 4),
            Arc("c", "p", "t", 7),
        ],
        Net {
            places: &[("p", 0)],
            transitions: &["t"],
            pre: &[(0, 0, 7)],
            post: &[(0, 0, 5)],
            arcs: 3,
        },
    ),
    (
        &[
            Place("p", 0),
            Transition("t"),
            Arc("a", "p", "t", 18446744073709551615),
            Arc("b", "p", "t", 1),
        ],
        Net {
            places: &[("p", 0)],
            transitions: &["t"],
            pre: &[(0, 0, 18446744073709551616)],
            post: &[],
            arcs: 2,
        },
    ),
    // references are followed through chains, and pages make no difference
    (
        &[
            Page("g"),
            RefPlace("r", "s"),
            RefPlace("s", "p"),
            PageEnd,
            Page("h"),
            Place("p", 2),
            PageEnd,
            Transition("t"),
            Arc("a", "r", "t", 1),
            Arc("b", "t", "s", 1),
        ],
        Net {
            places: &[("p", 2)],
            transitions: &["t"],
            pre: &[(0, 0, 1)],
            post: &[(0, 0, 1)],
            arcs: 2,
        },
    ),
    (
        &[
            RefTransition("r", "s"),
            RefTransition("s", "t"),
            Transition("t"),
            Place("p", 0),
            Arc("a", "p", "r", 1),
            Arc("b", "s", "p", 9),
        ],
        Net {
            places: &[("p", 0)],
            transitions: &["t"],
            pre: &[(0, 0, 1)],
            post: &[(0, 0, 9)],
            arcs: 2,
        },
    ),
    (
        &[
            Page("g"),
            Arc("a", "p", "u", 1),
            Page("h"),
            Place("p", 0),
            PageEnd,
            PageEnd,
            Transition("u"),
            Place("q", 1),
            Transition("t"),
            Arc("b", "t", "q", 1),
        ],
        Net {
            places: &[("p", 0), ("q", 1)],
            transitions: &["u", "t"],
            pre: &[(0, 0, 1)],
            post: &[(1, 1, 1)],
            arcs: 2,
        },
    ),
];

#[test]
fn documents_have_their_flat_nets(rt: HostRuntime) -> Result<(), Fail> {
    let alloc = rt.alloc();
    for (items, wanted) in &NETS {
        let document = document(alloc, *items)?;
        assert!(rt; is_valued(&document));
        match flatten(alloc, &document, 0) {
            Ok(net) => check_net(&rt, &net, wanted),
            Err(_) => panic!(rt; "a fault"),
        }
    }
    Ok(())
}

pub fn check_net(rt: &impl Abort, net: &FlatNet, wanted: &Net) {
    assert_eq!(rt; net.places(), wanted.places.len());
    assert_eq!(rt; net.transitions(), wanted.transitions.len());
    assert_eq!(rt; net.arcs(), wanted.arcs);
    for p in 0..net.places() {
        let place = (net.place_id(p).as_str(), net.initial(p));
        assert_eq!(rt; Some(place), wanted.places.get(p).copied());
    }
    for t in 0..net.transitions() {
        let transition = net.transition_id(t).as_str();
        assert_eq!(rt; Some(transition), wanted.transitions.get(t).copied());
        for p in 0..net.places() {
            assert_eq!(rt; net.pre(p, t), weight(wanted.pre, p, t));
            assert_eq!(rt; net.post(p, t), weight(wanted.post, p, t));
        }
    }
}

/// The weight that the list has for a place and a transition, else 0.
fn weight(list: &[(usize, usize, u128)], p: usize, t: usize) -> u128 {
    for (place, transition, weight) in list {
        if *place == p && *transition == t {
            return *weight;
        }
    }
    0
}
