use super::*;
use net_values::{FlatNet, NoMemory, Text};
use small_nets::{Arc, CYCLE, net_with};
use std::alloc::Global;
use std::process::Abort;
use std::test::Fail;

/// A line of two places, a transition that gives to a place and takes of none, one that loses half of what it
/// takes, and two that exchange tokens at a loss.
const LINE: &[Arc] = &[(0, 0, -1), (1, 0, 1)];

const SOURCE: &[Arc] = &[(0, 0, 1)];

const HALVING: &[Arc] = &[(0, 0, -2), (1, 0, 1)];

const EXCHANGE: &[Arc] = &[(0, 0, -2), (1, 0, 1), (1, 1, -1), (0, 1, 1)];

/// A net by its numbers of places and transitions and its arcs, its extremal sub-semiflows, and how many of its
/// places are covered.
type Row = (
    usize,
    usize,
    &'static [Arc],
    &'static [&'static [i128]],
    usize,
);

const ROWS: [Row; 6] = [
    (2, 1, LINE, &[&[1, 0], &[1, 1]], 2),
    (1, 1, SOURCE, &[], 0),
    (2, 2, CYCLE, &[&[1, 1]], 2),
    (2, 1, HALVING, &[&[1, 0], &[1, 2]], 2),
    (2, 2, EXCHANGE, &[&[1, 1], &[1, 2]], 2),
    (2, 0, &[], &[&[0, 1], &[1, 0]], 2),
];

#[test]
fn extremal_sub_semiflows_of_small_nets(rt: HostRuntime) -> Result<(), Fail> {
    let alloc = rt.alloc();
    for (places, transitions, arcs, wanted, count) in &ROWS {
        let marking = [0; 2];
        assert!(rt; *places <= marking.len());
        let net = net_with(alloc, &marking[..*places], *transitions, arcs)?;
        let Ok(list) = sub_semiflows(alloc, &net, 20) else {
            panic!(rt; "out of memory or out of range");
        };
        assert_eq!(rt; list.len(), wanted.len());
        for (vector, entries) in list.as_slice().iter().zip(*wanted) {
            assert_eq!(rt; vector.len(), entries.len());
            for p in 0..vector.len().min(entries.len()) {
                assert_eq!(rt; vector.get(p), entries[p]);
            }
        }
        let mut found = 0;
        for p in 0..net.places() {
            if covered(&list, p) {
                assert!(rt; found < *count);
                found += 1;
            }
        }
        assert_eq!(rt; found, *count);
    }
    Ok(())
}

/// A line with the ids `p` and `q`.
fn line(rt: &impl Abort, alloc: Global) -> Result<FlatNet, NoMemory> {
    let mut net = FlatNet::new(alloc);
    for id in ["p", "q"] {
        assert!(rt; net.places() < 8);
        let mut text = Text::new(alloc);
        text.push(id)?;
        net.add_place(text, 0)?;
    }
    assert!(rt; net.transitions() < 8);
    net.add_transition(Text::new(alloc))?;
    assert!(rt; net.places() == 2 && net.transitions() == 1 && net.arcs() < 8);
    net.add_input(0, 0, 1)?;
    assert!(rt; net.places() == 2 && net.transitions() == 1 && net.arcs() < 8);
    net.add_output(0, 1, 1)?;
    Ok(net)
}

#[test]
fn text_of_a_line(rt: HostRuntime) -> Result<(), Fail> {
    let alloc = rt.alloc();
    let net = line(&rt, alloc)?;
    let Ok(list) = sub_semiflows(alloc, &net, 20) else {
        panic!(rt; "out of memory or out of range");
    };
    let text = sub_text(alloc, &net, &list)?;
    assert_eq!(rt;
        text.as_str(),
        "1*p\n1*p 1*q\nsub-semiflows 2\nstructurally bounded 2 of 2\n"
    );
    Ok(())
}
