use super::*;
use net_values::NoMemory;
use siphon_branch::minimal_siphons;
use small_nets::{Arc, CYCLE, LEAK, MUTEX, net_with, place_set};
use std::test::Fail;

/// Two places in a line.
const LINE: &[Arc] = &[(0, 0, -1), (1, 0, 1)];

/// A fork and a join, after which all begins again.
const FORK: &[Arc] = &[
    (0, 0, -1),
    (1, 0, 1),
    (2, 0, 1),
    (1, 1, -1),
    (2, 1, -1),
    (0, 1, 1),
];

/// A net by its numbers of places and transitions and its arcs, and whether it is ordinary, a state machine,
/// a marked graph and free-choice.
struct ClassRow {
    shows: &'static str,
    nodes: (usize, usize),
    arcs: &'static [Arc],
    classes: [bool; 4],
}

const CLASSES: [ClassRow; 15] = [
    ClassRow {
        shows: "a ring",
        nodes: (2, 2),
        arcs: CYCLE,
        classes: [true, true, true, true],
    },
    ClassRow {
        shows: "two arcs from one place to one transition",
        nodes: (2, 1),
        arcs: &[(0, 0, -1), (0, 0, -1), (1, 0, 1)],
        classes: [false, false, false, false],
    },
    ClassRow {
        shows: "an arc of weight 2 to a place",
        nodes: (1, 1),
        arcs: &[(0, 0, -1), (0, 0, 2)],
        classes: [false, false, false, false],
    },
    ClassRow {
        shows: "nothing",
        nodes: (0, 0),
        arcs: &[],
        classes: [true, true, true, true],
    },
    ClassRow {
        shows: "a place only",
        nodes: (1, 0),
        arcs: &[],
        classes: [true, true, false, true],
    },
    ClassRow {
        shows: "a transition only",
        nodes: (0, 1),
        arcs: &[],
        classes: [true, false, true, true],
    },
    ClassRow {
        shows: "a choice whose transitions lead to one place",
        nodes: (2, 2),
        arcs: &[(0, 0, -1), (1, 0, 1), (0, 1, -1), (1, 1, 1)],
        classes: [true, true, false, true],
    },
    ClassRow {
        shows: "a choice whose later transition has a place of its own",
        nodes: (2, 2),
        arcs: &[(0, 0, -1), (0, 1, -1), (1, 1, -1)],
        classes: [true, false, false, false],
    },
    ClassRow {
        shows: "a choice whose earlier transition has a place of its own",
        nodes: (2, 2),
        arcs: &[(0, 0, -1), (1, 0, -1), (1, 1, -1)],
        classes: [true, false, false, false],
    },
    ClassRow {
        shows: "two transitions with the same two input places",
        nodes: (2, 2),
        arcs: &[(0, 0, -1), (1, 0, -1), (0, 1, -1), (1, 1, -1)],
        classes: [true, false, false, true],
    },
    ClassRow {
        shows: "a transition that joins the places of two earlier ones",
        nodes: (3, 3),
        arcs: &[(0, 0, -1), (1, 1, -1), (0, 2, -1), (1, 2, -1), (2, 2, 1)],
        classes: [true, false, false, false],
    },
    ClassRow {
        shows: "two transitions that share an output place",
        nodes: (3, 2),
        arcs: &[(0, 0, -1), (1, 1, -1), (2, 0, 1), (2, 1, 1)],
        classes: [true, true, false, true],
    },
    ClassRow {
        shows: "a lock",
        nodes: (5, 4),
        arcs: MUTEX,
        classes: [true, false, false, false],
    },
    ClassRow {
        shows: "a fork and a join",
        nodes: (4, 2),
        arcs: FORK,
        classes: [true, false, false, true],
    },
    ClassRow {
        shows: "a fork and a join without a place beside",
        nodes: (3, 2),
        arcs: FORK,
        classes: [true, false, true, true],
    },
];

/// A net by its initial marking, its number of transitions and its arcs, and the siphon that a no names.
struct VerdictRow {
    shows: &'static str,
    marking: &'static [u64],
    transitions: usize,
    arcs: &'static [Arc],
    named: Option<&'static [usize]>,
}

const VERDICTS: [VerdictRow; 9] = [
    VerdictRow {
        shows: "a token that goes round",
        marking: &[1, 0],
        transitions: 2,
        arcs: CYCLE,
        named: None,
    },
    VerdictRow {
        shows: "no token",
        marking: &[0, 0],
        transitions: 2,
        arcs: CYCLE,
        named: Some(&[0, 1]),
    },
    VerdictRow {
        shows: "a marked siphon without a trap",
        marking: &[1, 0],
        transitions: 1,
        arcs: LINE,
        named: Some(&[0]),
    },
    VerdictRow {
        shows: "marked places without arcs",
        marking: &[1, 1],
        transitions: 0,
        arcs: &[],
        named: None,
    },
    VerdictRow {
        shows: "the first of two siphons",
        marking: &[0, 0],
        transitions: 0,
        arcs: &[],
        named: Some(&[1]),
    },
    VerdictRow {
        shows: "no place, no siphon",
        marking: &[],
        transitions: 1,
        arcs: &[],
        named: None,
    },
    VerdictRow {
        shows: "a lock",
        marking: &[1, 0, 1, 0, 1],
        transitions: 4,
        arcs: MUTEX,
        named: None,
    },
    VerdictRow {
        shows: "a marked siphon whose trap has no token",
        marking: &[1, 0],
        transitions: 3,
        arcs: LEAK,
        named: Some(&[0, 1]),
    },
    VerdictRow {
        shows: "a trap that is smaller than its siphon",
        marking: &[0, 1],
        transitions: 3,
        arcs: LEAK,
        named: None,
    },
];

#[test]
fn classes_of_small_nets(rt: HostRuntime) -> Result<(), Fail> {
    let marking = [0; 8];
    for row in &CLASSES {
        let (places, transitions) = row.nodes;
        assert!(rt; places <= marking.len());
        let net = net_with(rt.alloc(), &marking[..places], transitions, row.arcs)?;
        let class = class(&net);
        let found = [
            class.ordinary,
            class.state_machine,
            class.marked_graph,
            class.free_choice,
        ];
        assert_eq!(rt; found, row.classes, "{}", row.shows);
    }
    Ok(())
}

#[test]
fn verdicts_on_small_nets(rt: HostRuntime) -> Result<(), Fail> {
    let alloc = rt.alloc();
    for row in &VERDICTS {
        let net = net_with(alloc, row.marking, row.transitions, row.arcs)?;
        let Ok(siphons) = minimal_siphons(alloc, &net, 8) else {
            return Err(NoMemory.into());
        };
        let named = match commoner(alloc, &net, &siphons)? {
            Verdict::Yes => None,
            Verdict::No(siphon) => Some(siphon),
        };
        let expected = match row.named {
            None => None,
            Some(places) => Some(place_set(alloc, row.marking.len(), places)?),
        };
        assert!(rt; named == expected, "{}", row.shows);
    }
    Ok(())
}
