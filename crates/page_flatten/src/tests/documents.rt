use super::Given::{self, Arc, Page, PageEnd, Place, RefPlace, RefTransition, Transition};
use super::document_of;
use super::faults::Named::{self, ArcEnds, DuplicateId, NoNet, RefCycle, RefKind, UnknownId};
use super::faults::lent;
use crate::flatten;
use pnml_grammar::is_valued;
use std::test::Fail;

/// The ids and the items of the nets of a document.
type Nets = &'static [(&'static str, &'static [Given])];

/// A net with one place.
const ONE: (&str, &[Given]) = ("m", &[Place("p", 3)]);

/// A net with a place, a transition and an arc.
const TWO: (&str, &[Given]) = (
    "n",
    &[Place("q", 5), Transition("t"), Arc("a", "q", "t", 2)],
);

/// Documents, the number of a net from 0, and its numbers of places, transitions and arcs.
const CHOSEN: [(Nets, usize, (usize, usize, usize)); 6] = [
    (&[ONE], 0, (1, 0, 0)),
    (&[ONE, TWO], 0, (1, 0, 0)),
    (&[ONE, TWO], 1, (1, 1, 1)),
    (&[TWO, ONE], 0, (1, 1, 1)),
    (&[ONE, ("k", &[]), TWO], 1, (0, 0, 0)),
    (&[ONE, ("k", &[]), TWO], 2, (1, 1, 1)),
];

#[test]
fn the_net_of_a_number_is_flattened(rt: HostRuntime) -> Result<(), Fail> {
    let alloc = rt.alloc();
    for (nets, number, wanted) in &CHOSEN {
        let document = document_of(alloc, *nets)?;
        assert!(rt; is_valued(&document));
        match flatten(alloc, &document, *number) {
            Ok(net) => {
                assert_eq!(rt; (net.places(), net.transitions(), net.arcs()), *wanted);
            }
            Err(_) => panic!(rt; "a fault"),
        }
    }
    Ok(())
}

/// Documents, the number of a net from 0, and the fault.
const FAULTS: [(Nets, usize, Named<'static>); 13] = [
    // no net of the number, where no rule is broken
    (&[ONE], 1, NoNet(1)),
    (&[ONE, TWO], 2, NoNet(2)),
    (&[ONE, TWO], usize::MAX, NoNet(2)),
    (
        &[ONE, ("k", &[Place("q", 0), Arc("a", "q", "q", 1)])],
        2,
        ArcEnds("a"),
    ),
    // ids of another net
    (&[ONE, ("p", &[])], 0, DuplicateId("p")),
    (&[ONE, ("m", &[])], 1, DuplicateId("m")),
    (&[ONE, ("k", &[Page("p"), PageEnd])], 0, DuplicateId("p")),
    (&[ONE, ("k", &[RefPlace("r", "p")])], 0, UnknownId("p", "r")),
    (
        &[("k", &[Transition("t"), Arc("a", "p", "t", 1)]), ONE],
        1,
        UnknownId("p", "a"),
    ),
    // a rule of a later net that is broken, before a later rule of an earlier one
    (
        &[("k", &[RefPlace("r", "r")]), ("l", &[RefPlace("s", "x")])],
        0,
        UnknownId("x", "s"),
    ),
    (
        &[
            ("k", &[RefPlace("r", "r")]),
            ("l", &[Place("p", 0), RefTransition("s", "p")]),
        ],
        0,
        RefKind("s"),
    ),
    (
        &[
            ("k", &[Place("p", 0), Arc("a", "p", "p", 1)]),
            ("l", &[RefPlace("r", "r")]),
        ],
        1,
        RefCycle("r"),
    ),
    (
        &[
            ("k", &[Place("p", 0), Arc("a", "p", "p", 1)]),
            ("l", &[Place("q", 0), Arc("b", "q", "q", 1)]),
        ],
        1,
        ArcEnds("a"),
    ),
];

#[test]
fn the_first_broken_rule_of_all_nets_is_named(rt: HostRuntime) -> Result<(), Fail> {
    let alloc = rt.alloc();
    for (nets, number, wanted) in &FAULTS {
        let document = document_of(alloc, *nets)?;
        assert!(rt; is_valued(&document));
        match flatten(alloc, &document, *number) {
            Ok(_) => panic!(rt; "a flat net"),
            Err(fault) => assert_eq!(rt; lent(&fault), Some(*wanted)),
        }
    }
    Ok(())
}
