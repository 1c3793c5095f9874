use super::*;
use incidence::Incidence;
use net_values::FlatNet;
use semiflow_elim::minimal_semiflows;
use small_nets::{Arc, CHAIN, CYCLE, MUTEX, SCALE, net_with};
use std::alloc::Global;
use std::process::Abort;
use std::test::Fail;

/// A net by the initial tokens of its places and by its arcs, and the bound of each place with the number
/// of the row that gives it, or the row whose tokens are too many.
struct BoundedNet {
    name: &'static str,
    tokens: &'static [u64],
    transitions: usize,
    arcs: &'static [Arc],
    answer: Result<&'static [Option<(i128, usize)>], usize>,
}

const NETS: [BoundedNet; 8] = [
    BoundedNet {
        name: "cycle",
        tokens: &[1, 0],
        transitions: 2,
        arcs: CYCLE,
        answer: Ok(&[Some((1, 0)), Some((1, 0))]),
    },
    BoundedNet {
        name: "scale",
        tokens: &[5, 0],
        transitions: 2,
        arcs: SCALE,
        answer: Ok(&[Some((5, 0)), Some((7, 0))]),
    },
    BoundedNet {
        name: "chain of two",
        tokens: &[1, 0, 0],
        transitions: 2,
        arcs: CHAIN,
        answer: Ok(&[Some((1, 0)), Some((1 << 63, 0)), Some((1 << 126, 0))]),
    },
    BoundedNet {
        name: "chain of two, with two tokens",
        tokens: &[2, 0, 0],
        transitions: 2,
        arcs: CHAIN,
        answer: Err(0),
    },
    BoundedNet {
        name: "isles and a chain of two, with two tokens",
        tokens: &[2, 0, 0, 5],
        transitions: 2,
        arcs: CHAIN,
        answer: Err(1),
    },
    BoundedNet {
        name: "a source, and a place without arcs",
        tokens: &[1, 2],
        transitions: 1,
        arcs: &[(0, 0, 1)],
        answer: Ok(&[None, Some((2, 0))]),
    },
    BoundedNet {
        name: "mutex",
        tokens: &[1, 0, 1, 0, 1],
        transitions: 4,
        arcs: MUTEX,
        answer: Ok(&[
            Some((1, 2)),
            Some((1, 1)),
            Some((1, 0)),
            Some((1, 0)),
            Some((1, 1)),
        ]),
    },
    BoundedNet {
        name: "mutex, with three tokens in idle2",
        tokens: &[1, 0, 3, 0, 1],
        transitions: 4,
        arcs: MUTEX,
        answer: Ok(&[
            Some((1, 2)),
            Some((1, 1)),
            Some((3, 0)),
            Some((1, 1)),
            Some((1, 1)),
        ]),
    },
];

/// The bounds of a net by its minimal semiflows.
fn bounds_of(
    rt: &impl Abort,
    alloc: Global,
    net: &FlatNet,
) -> Result<Result<Bounds, BoundFault>, Fail> {
    let matrix = Incidence::of(alloc, net)?;
    let rows = minimal_semiflows(alloc, &matrix, 50);
    assert!(rt; rows.is_ok());
    Ok(bounds(alloc, net, &rows?))
}

#[test]
fn the_named_nets_have_these_bounds(rt: HostRuntime) -> Result<(), Fail> {
    let alloc = rt.alloc();
    for bounded in &NETS {
        let name = bounded.name;
        let net = net_with(alloc, bounded.tokens, bounded.transitions, bounded.arcs)?;
        match (bounds_of(&rt, alloc, &net)?, bounded.answer) {
            (Ok(bounds), Ok(wanted)) => {
                assert_eq!(rt; bounds.places(), wanted.len(), "{name}");
                for p in 0..wanted.len() {
                    assert_eq!(rt; bounds.get(p), wanted[p], "{name}");
                }
            }
            (Err(fault), Err(row)) => {
                assert_eq!(rt; fault, BoundFault::WideBound(row), "{name}");
            }
            _ => assert!(rt; false, "{name}"),
        }
    }
    Ok(())
}
