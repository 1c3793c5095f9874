use super::*;
use net_values::{FlatNet, NoMemory, Text};
use std::alloc::Global;
use std::process::Abort;
use std::test::Fail;

/// A ring of two places, the first with a token, and a transition more that has the id of the first.
fn ring(rt: &impl Abort, alloc: Global) -> Result<FlatNet, NoMemory> {
    let mut net = FlatNet::new(alloc);
    for (id, tokens) in [("p", 1), ("q", 0)] {
        assert!(rt; net.places() < 8);
        let mut text = Text::new(alloc);
        text.push(id)?;
        net.add_place(text, tokens)?;
    }
    for id in ["t", "u", "t"] {
        assert!(rt; net.transitions() < 8);
        let mut text = Text::new(alloc);
        text.push(id)?;
        net.add_transition(text)?;
    }
    for (p, t) in [(0, 0), (1, 1)] {
        assert!(rt; net.places() == 2 && net.transitions() == 3 && net.arcs() < 8);
        net.add_input(p, t, 1)?;
        assert!(rt; net.places() == 2 && net.transitions() == 3 && net.arcs() < 8);
        net.add_output(t, 1 - p, 1)?;
    }
    Ok(net)
}

/// Bytes with the transitions that their lines stand for, or with their first bad line.
const LINES: [(&str, Result<&[u32], u64>); 9] = [
    ("", Ok(&[])),
    ("t\n", Ok(&[0])),
    ("u\nu\nt\n", Ok(&[1, 1, 0])),
    ("t", Err(1)),
    ("\n", Err(1)),
    ("t\nx\nu\n", Err(2)),
    ("t\nu", Err(2)),
    ("t \n", Err(1)),
    ("t\r\n", Err(1)),
];

#[test]
fn lines_stand_for_the_lowest_transition(rt: HostRuntime) -> Result<(), Fail> {
    let alloc = rt.alloc();
    let net = ring(&rt, alloc)?;
    for (lines, wanted) in &LINES {
        match (read_firings(alloc, &net, lines.as_bytes()), wanted) {
            (Ok(list), Ok(numbers)) => assert!(rt; list.as_slice() == *numbers),
            (Err(fault), Err(line)) => assert_eq!(rt; fault, FiringFault::BadLine(*line)),
            _ => assert!(rt; false, "at {lines}"),
        }
    }
    Ok(())
}

/// Firing lists with their texts, or with the member that isn't enabled and the place that lacks tokens.
const REPLAYS: [(&str, Result<&str, (usize, usize)>); 6] = [
    ("", Ok("p 1\nq 0\nfired 0\nt-semiflow no\n")),
    ("t\n", Ok("p 0\nq 1\nfired 1\nt-semiflow no\n")),
    ("t\nu\n", Ok("p 1\nq 0\nfired 2\nt-semiflow yes\n")),
    ("t\nu\nt\n", Ok("p 0\nq 1\nfired 3\nt-semiflow no\n")),
    ("u\n", Err((0, 1))),
    ("t\nt\n", Err((1, 0))),
];

#[test]
fn replays_of_a_ring(rt: HostRuntime) -> Result<(), Fail> {
    let alloc = rt.alloc();
    let net = ring(&rt, alloc)?;
    for (lines, wanted) in &REPLAYS {
        let Ok(list) = read_firings(alloc, &net, lines.as_bytes()) else {
            panic!(rt; "at {lines}");
        };
        match (replay(alloc, &net, &list), wanted) {
            (Ok(replay), Ok(told)) => {
                let text = replay_text(alloc, &net, &list, &replay)?;
                assert_eq!(rt; text.as_str(), *told);
            }
            (Err(fault), Err((index, p))) => {
                assert_eq!(rt; fault, ReplayFault::NotEnabled(*index, *p));
            }
            _ => assert!(rt; false, "at {lines}"),
        }
    }
    Ok(())
}
