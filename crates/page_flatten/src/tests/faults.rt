use super::Given::{self, Arc, Page, PageEnd, Place, RefPlace, RefTransition, Transition};
use super::document;
use crate::{FlatFault, flatten};
use Named::{ArcEnds, DuplicateId, NoNet, RefCycle, RefKind, UnknownId};
use pnml_grammar::is_valued;
use std::test::Fail;

/// A fault with its ids lent.
#[derive(Clone, Copy, Debug, PartialEq, Eq)]
pub enum Named<'a> {
    DuplicateId(&'a str),
    UnknownId(&'a str, &'a str),
    RefKind(&'a str),
    RefCycle(&'a str),
    ArcEnds(&'a str),
    NoNet(usize),
}

const FAULTS: [(&[Given], Named<'static>); 45] = [
    // ids that the net, a page, a node or an arc has already
    (&[Place("n", 0)], DuplicateId("n")),
    (&[Page("g"), PageEnd, Place("g", 0)], DuplicateId("g")),
    (&[Place("p", 0), Page("p"), PageEnd], DuplicateId("p")),
    (&[Place("p", 0), Transition("p")], DuplicateId("p")),
    (&[Place("p", 0), RefPlace("p", "p")], DuplicateId("p")),
    (
        &[
            Place("p", 0),
            Transition("t"),
            Arc("a", "p", "t", 1),
            Arc("a", "t", "p", 1),
        ],
        DuplicateId("a"),
    ),
    (
        &[Place("p", 0), Transition("t"), Arc("t", "p", "t", 1)],
        DuplicateId("t"),
    ),
    (
        &[Place("a", 0), Place("b", 0), Place("b", 0), Place("a", 0)],
        DuplicateId("b"),
    ),
    // ids of no node, the source before the target
    (&[RefPlace("r", "x")], UnknownId("x", "r")),
    (&[RefTransition("r", "x")], UnknownId("x", "r")),
    (&[Arc("a", "x", "y", 1)], UnknownId("x", "a")),
    (&[Place("p", 0), Arc("a", "p", "y", 1)], UnknownId("y", "a")),
    (
        &[Place("p", 0), Arc("a", "p", "g", 1), Page("g"), PageEnd],
        UnknownId("g", "a"),
    ),
    (&[RefPlace("r", "n")], UnknownId("n", "r")),
    (
        &[
            Transition("t"),
            Arc("a", "t", "b", 1),
            Arc("b", "a", "t", 1),
        ],
        UnknownId("b", "a"),
    ),
    (
        &[RefPlace("r", "x"), Arc("a", "y", "z", 1)],
        UnknownId("x", "r"),
    ),
    (
        &[Arc("a", "y", "z", 1), RefPlace("r", "x")],
        UnknownId("y", "a"),
    ),
    // references to nodes of the other kind
    (&[Transition("t"), RefPlace("r", "t")], RefKind("r")),
    (&[Place("p", 0), RefTransition("r", "p")], RefKind("r")),
    (
        &[Place("p", 0), RefPlace("r", "p"), RefTransition("s", "r")],
        RefKind("s"),
    ),
    (&[RefPlace("r", "r"), RefTransition("s", "r")], RefKind("s")),
    (
        &[
            Transition("t"),
            Place("p", 0),
            RefTransition("b", "p"),
            RefPlace("a", "t"),
        ],
        RefKind("b"),
    ),
    // chains that don't end: on a cycle, or leading into one
    (&[RefPlace("r", "r")], RefCycle("r")),
    (&[RefTransition("r", "r")], RefCycle("r")),
    (&[RefPlace("a", "b"), RefPlace("b", "a")], RefCycle("a")),
    (
        &[RefPlace("c", "a"), RefPlace("a", "b"), RefPlace("b", "a")],
        RefCycle("c"),
    ),
    (
        &[RefPlace("a", "b"), RefPlace("b", "a"), RefPlace("c", "a")],
        RefCycle("a"),
    ),
    (
        &[
            RefPlace("x", "p"),
            RefPlace("c", "a"),
            Place("p", 0),
            RefPlace("a", "a"),
        ],
        RefCycle("c"),
    ),
    (
        &[
            RefPlace("a", "p"),
            Place("p", 0),
            RefTransition("s", "s"),
            RefPlace("b", "b"),
        ],
        RefCycle("s"),
    ),
    // arcs whose resolved ends are of one kind
    (
        &[Place("p", 0), Place("q", 0), Arc("a", "p", "q", 1)],
        ArcEnds("a"),
    ),
    (
        &[Transition("t"), Transition("u"), Arc("a", "t", "u", 1)],
        ArcEnds("a"),
    ),
    (&[Place("p", 0), Arc("a", "p", "p", 1)], ArcEnds("a")),
    (
        &[
            Place("p", 0),
            RefPlace("r", "s"),
            RefPlace("s", "p"),
            Arc("a", "r", "p", 1),
        ],
        ArcEnds("a"),
    ),
    (
        &[
            Transition("t"),
            RefTransition("r", "t"),
            Arc("a", "r", "r", 1),
        ],
        ArcEnds("a"),
    ),
    (
        &[
            Place("p", 0),
            Transition("t"),
            Arc("a", "p", "t", 1),
            Arc("b", "t", "t", 1),
            Arc("c", "p", "p", 1),
        ],
        ArcEnds("b"),
    ),
    // the earlier rule wins, wherever the later one is broken
    (
        &[Arc("a", "x", "y", 1), Place("p", 0), Place("p", 0)],
        DuplicateId("p"),
    ),
    (
        &[Place("p", 0), RefTransition("r", "p"), Place("p", 0)],
        DuplicateId("p"),
    ),
    (
        &[RefPlace("r", "r"), Place("p", 0), Place("p", 0)],
        DuplicateId("p"),
    ),
    (
        &[Place("p", 0), Arc("a", "p", "p", 1), Transition("n")],
        DuplicateId("n"),
    ),
    (
        &[Transition("t"), RefPlace("r", "t"), Arc("a", "t", "y", 1)],
        UnknownId("y", "a"),
    ),
    (
        &[RefPlace("r", "r"), Arc("a", "r", "y", 1)],
        UnknownId("y", "a"),
    ),
    (
        &[Place("p", 0), Arc("a", "p", "p", 1), Arc("b", "p", "y", 1)],
        UnknownId("y", "b"),
    ),
    (
        &[RefPlace("r", "r"), Place("p", 0), RefTransition("s", "p")],
        RefKind("s"),
    ),
    (
        &[
            Place("p", 0),
            Arc("a", "p", "p", 1),
            RefTransition("s", "p"),
        ],
        RefKind("s"),
    ),
    (
        &[Place("p", 0), Arc("a", "p", "p", 1), RefPlace("r", "r")],
        RefCycle("r"),
    ),
];

#[test]
fn the_first_broken_rule_is_named(rt: HostRuntime) -> Result<(), Fail> {
    let alloc = rt.alloc();
    for (items, wanted) in &FAULTS {
        let document = document(alloc, *items)?;
        assert!(rt; is_valued(&document));
        match flatten(alloc, &document, 0) {
            Ok(_) => panic!(rt; "a flat net"),
            Err(fault) => assert_eq!(rt; lent(&fault), Some(*wanted)),
        }
    }
    Ok(())
}

pub fn lent(fault: &FlatFault) -> Option<Named<'_>> {
    match fault {
        FlatFault::NoMemory => None,
        FlatFault::DuplicateId(id) => Some(DuplicateId(id.as_str())),
        FlatFault::UnknownId(id, by) => Some(UnknownId(id.as_str(), by.as_str())),
        FlatFault::RefKind(id) => Some(RefKind(id.as_str())),
        FlatFault::RefCycle(id) => Some(RefCycle(id.as_str())),
        FlatFault::ArcEnds(id) => Some(ArcEnds(id.as_str())),
        FlatFault::NoNet(count) => Some(NoNet(*count)),
    }
}
