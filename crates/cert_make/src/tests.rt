use super::*;
use bounds::bounds;
use certificates::{Certificate, Claim, Flow, TreeLine};
use incidence::Incidence;
use net_class::{Verdict, commoner};
use net_values::{FlatNet, NoMemory};
use semiflow_elim::minimal_semiflows;
use siphon_branch::{SetFault, minimal_siphons};
use small_nets::{Arc, CYCLE, LEAK, SCALE, net_with};
use std::alloc::Global;
use std::test::Fail;

/// A transition that takes from two places and gives to two others.
const CROSS: &[Arc] = &[(0, 0, -1), (1, 0, -1), (2, 0, 1), (3, 0, 1)];

/// A chain whose only semiflow has narrow entries, and a wide sum at the first transition.
const WIDE: &[Arc] = &[
    (0, 0, -4),
    (1, 0, 4),
    (1, 1, -1),
    (2, 1, 1 << 63),
    (2, 2, -1),
    (3, 2, 1 << 63),
];

/// A place with its coefficient, and a place with its bound and the number of its flow.
type Terms = &'static [(u32, i128)];

type Claimed = (u32, i128, u32);

/// A net by its initial tokens and its arcs, and the flows and claims of its certificate, or the row and the
/// column of the wide check.
struct BoundRow {
    shows: &'static str,
    tokens: &'static [u64],
    transitions: usize,
    arcs: &'static [Arc],
    answer: Result<(&'static [Terms], &'static [Claimed]), (usize, usize)>,
}

const BOUNDS: [BoundRow; 6] = [
    BoundRow {
        shows: "a ring",
        tokens: &[1, 0],
        transitions: 2,
        arcs: CYCLE,
        answer: Ok((&[&[(0, 1), (1, 1)]], &[(0, 1, 1), (1, 1, 1)])),
    },
    BoundRow {
        shows: "coefficients, and a bound that is rounded down",
        tokens: &[5, 0],
        transitions: 2,
        arcs: SCALE,
        answer: Ok((&[&[(0, 3), (1, 2)]], &[(0, 5, 1), (1, 7, 1)])),
    },
    BoundRow {
        shows: "the second of four rows isn't named",
        tokens: &[1, 2, 0, 0],
        transitions: 1,
        arcs: CROSS,
        answer: Ok((
            &[&[(1, 1), (3, 1)], &[(0, 1), (3, 1)], &[(0, 1), (2, 1)]],
            &[(0, 1, 2), (1, 2, 1), (2, 1, 3), (3, 1, 2)],
        )),
    },
    BoundRow {
        shows: "a place without a bound has no claim",
        tokens: &[1, 2],
        transitions: 1,
        arcs: &[(0, 0, 1)],
        answer: Ok((&[&[(1, 1)]], &[(1, 2, 1)])),
    },
    BoundRow {
        shows: "no place",
        tokens: &[],
        transitions: 1,
        arcs: &[],
        answer: Ok((&[], &[])),
    },
    BoundRow {
        shows: "a sum above 2^127 - 1",
        tokens: &[0; 4],
        transitions: 3,
        arcs: WIDE,
        answer: Err((0, 0)),
    },
];

/// The certificate of the least bounds of a net.
fn certified(
    alloc: Global,
    net: &FlatNet,
) -> Result<Result<Certificate, BoundCertFault>, NoMemory> {
    let matrix = Incidence::of(alloc, net)?;
    let Ok(rows) = minimal_semiflows(alloc, &matrix, 50) else {
        return Err(NoMemory);
    };
    let Ok(bounds) = bounds(alloc, net, &rows) else {
        return Err(NoMemory);
    };
    Ok(bound_certificate(alloc, net, &rows, &bounds))
}

/// Whether the certificate has exactly these flows and claims.
fn has_lines(certificate: &Certificate, flows: &[Terms], claims: &[Claimed]) -> bool {
    let Certificate::Bounds(lines) = certificate else {
        return false;
    };
    let found = lines.flows.as_slice();
    found.len() == flows.len()
        && found
            .iter()
            .zip(flows)
            .all(|(flow, terms)| has_terms(flow, terms))
        && lines.claims.len() == claims.len()
        && lines
            .claims
            .as_slice()
            .iter()
            .zip(claims)
            .all(|(claim, row)| is_claim(claim, row))
}

fn has_terms(flow: &Flow, terms: &[(u32, i128)]) -> bool {
    flow.as_slice() == terms
}

fn is_claim(claim: &Claim, row: &Claimed) -> bool {
    (claim.place, claim.bound, claim.flow) == *row
}

#[test]
fn certificates_of_bounds(rt: HostRuntime) -> Result<(), Fail> {
    let alloc = rt.alloc();
    for row in &BOUNDS {
        let net = net_with(alloc, row.tokens, row.transitions, row.arcs)?;
        match (certified(alloc, &net)?, row.answer) {
            (Ok(certificate), Ok((flows, claims))) => {
                assert!(rt; has_lines(&certificate, flows, claims), "{}", row.shows);
            }
            (Err(fault), Err((at, column))) => {
                assert_eq!(rt;
                    fault,
                    BoundCertFault::WideCheck(at, column),
                    "{}",
                    row.shows
                );
            }
            _ => assert!(rt; false, "{}", row.shows),
        }
    }
    Ok(())
}

/// What a net has: a siphon without a marked trap, a tree, or more grown siphons than the limit, of which so
/// many are carried.
#[derive(Clone, Copy)]
enum Wanted {
    Siphon(&'static [u32]),
    Tree(&'static [TreeLine]),
    Carried(usize),
}

/// A net by its initial tokens and its arcs, the limit, and what it has.
struct CommonerRow {
    shows: &'static str,
    tokens: &'static [u64],
    transitions: usize,
    arcs: &'static [Arc],
    sets: u32,
    wanted: Wanted,
}

/// The tree of two places that each are a siphon and a trap.
const ISLES: &[TreeLine] = &[
    TreeLine::Split(0),
    TreeLine::Split(1),
    TreeLine::Empty,
    TreeLine::Trap,
    TreeLine::Trap,
];

const TREES: [CommonerRow; 7] = [
    CommonerRow {
        shows: "a ring",
        tokens: &[1, 0],
        transitions: 2,
        arcs: CYCLE,
        sets: 1,
        wanted: Wanted::Tree(&[
            TreeLine::Split(0),
            TreeLine::Empty,
            TreeLine::Split(1),
            TreeLine::Empty,
            TreeLine::Trap,
        ]),
    },
    CommonerRow {
        shows: "no place",
        tokens: &[],
        transitions: 1,
        arcs: &[],
        sets: 0,
        wanted: Wanted::Tree(&[TreeLine::Empty]),
    },
    CommonerRow {
        shows: "two siphons at the limit",
        tokens: &[1, 1],
        transitions: 0,
        arcs: &[],
        sets: 2,
        wanted: Wanted::Tree(ISLES),
    },
    CommonerRow {
        shows: "one siphon more than the limit",
        tokens: &[1, 1],
        transitions: 0,
        arcs: &[],
        sets: 1,
        wanted: Wanted::Carried(2),
    },
    CommonerRow {
        shows: "no siphon allowed",
        tokens: &[1, 1],
        transitions: 0,
        arcs: &[],
        sets: 0,
        wanted: Wanted::Carried(1),
    },
    CommonerRow {
        shows: "a siphon that is no trap",
        tokens: &[1, 0],
        transitions: 1,
        arcs: &[(0, 0, -1), (1, 0, 1)],
        sets: 1,
        wanted: Wanted::Siphon(&[0]),
    },
    CommonerRow {
        shows: "a marked siphon whose trap has no token",
        tokens: &[1, 0],
        transitions: 3,
        arcs: LEAK,
        sets: 1,
        wanted: Wanted::Siphon(&[0, 1]),
    },
];

/// The certificate for Commoner's condition or against it, or how many siphons are carried.
fn decided(
    alloc: Global,
    net: &FlatNet,
    sets: u32,
) -> Result<Result<Certificate, usize>, NoMemory> {
    let Ok(siphons) = minimal_siphons(alloc, net, 100) else {
        return Err(NoMemory);
    };
    match commoner(alloc, net, &siphons)? {
        Verdict::No(siphon) => Ok(Ok(bad_siphon_certificate(alloc, net, &siphon)?)),
        Verdict::Yes => match commoner_certificate(alloc, net, sets) {
            Ok(certificate) => Ok(Ok(certificate)),
            Err(SetFault::SetLimit(carried)) => Ok(Err(carried.len())),
            Err(SetFault::NoMemory) => Err(NoMemory),
        },
    }
}

fn is_wanted(found: &Result<Certificate, usize>, wanted: Wanted) -> bool {
    match (found, wanted) {
        (Ok(Certificate::BadSiphon(places)), Wanted::Siphon(expected)) => {
            places.as_slice() == expected
        }
        (Ok(Certificate::Commoner(lines)), Wanted::Tree(expected)) => lines.as_slice() == expected,
        (Err(carried), Wanted::Carried(expected)) => *carried == expected,
        _ => false,
    }
}

#[test]
fn certificates_for_and_against_commoner(rt: HostRuntime) -> Result<(), Fail> {
    let alloc = rt.alloc();
    for row in &TREES {
        let net = net_with(alloc, row.tokens, row.transitions, row.arcs)?;
        let found = decided(alloc, &net, row.sets)?;
        assert!(rt; is_wanted(&found, row.wanted), "{}", row.shows);
    }
    Ok(())
}

/// How many philosophers sit at the table of the next test, and how many siphons are grown in their net.
const SEATS: usize = 20;

const GROWN: usize = 40;

/// The net of philosophers, of whom each takes the forks on both sides at once.
fn table(alloc: Global) -> Result<FlatNet, NoMemory> {
    let mut tokens = [1; 3 * SEATS];
    let mut arcs: Vec<Arc> = Vec::new(alloc);
    for seat in 0..SEATS {
        let eats = 2 * SEATS + seat;
        tokens[eats] = 0;
        for place in [seat, SEATS + seat, SEATS + (seat + 1) % SEATS] {
            arcs.push((place, 2 * seat, -1))?;
            arcs.push((place, 2 * seat + 1, 1))?;
        }
        arcs.push((eats, 2 * seat, 1))?;
        arcs.push((eats, 2 * seat + 1, -1))?;
    }
    net_with(alloc, &tokens, 2 * SEATS, arcs.as_slice())
}

/// The number of lines, and of those that close a class by a marked trap.
fn size(found: &Result<Certificate, usize>) -> (usize, usize) {
    let Ok(Certificate::Commoner(lines)) = found else {
        return (0, 0);
    };
    let mut traps = 0;
    for line in lines.as_slice() {
        if *line == TreeLine::Trap && traps < GROWN + 1 {
            traps += 1;
        }
    }
    (lines.len(), traps)
}

#[test]
fn a_tree_goes_with_the_grown_siphons(rt: HostRuntime) -> Result<(), Fail> {
    let alloc = rt.alloc();
    let net = table(alloc)?;
    let found = decided(alloc, &net, GROWN as u32)?;
    let (lines, traps) = size(&found);
    assert_eq!(rt; traps, GROWN);
    assert!(rt; lines <= 6 * GROWN, "{lines}");
    let fewer = decided(alloc, &net, GROWN as u32 - 1)?;
    assert!(rt; is_wanted(&fewer, Wanted::Carried(GROWN)));
    Ok(())
}
