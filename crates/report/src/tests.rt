use super::*;
use certificates::{BoundLines, Certificate, Claims, Flows, PlaceList, TreeLines};
use net_class::{Class, Verdict};
use net_values::{Document, FlatNet, Nets, NoMemory, PlaceSet, Rows, Sets, Text, Vector};
use page_flatten::FlatFault;
use pnml_source::MemorySink;
use std::alloc::Global;
use std::process::Abort;
use std::test::Fail;

/// What a text is to tell.
#[derive(Clone, Copy)]
enum Told<'a> {
    Check,
    Class(bool, bool, bool, bool),
    Places(&'a [&'a [i128]]),
    Transitions(&'a [&'a [i128]]),
    Siphons(&'a [&'a [usize]]),
    Traps(&'a [&'a [usize]]),
    Commoner(Option<&'a [usize]>),
    VerifiedBounds,
    VerifiedSiphon,
    VerifiedTree,
}

/// A net with the places `p`, `q` and `é<`, the transitions `t` and `u`, and an arc of weight 7.
fn small_net(rt: &impl Abort, alloc: Global) -> Result<FlatNet, NoMemory> {
    let mut net = FlatNet::new(alloc);
    for id in ["p", "q", "é<"] {
        assert!(rt; net.places() < 8);
        let mut text = Text::new(alloc);
        text.push(id)?;
        net.add_place(text, 0)?;
    }
    for id in ["t", "u"] {
        assert!(rt; net.transitions() < 8);
        let mut text = Text::new(alloc);
        text.push(id)?;
        net.add_transition(text)?;
    }
    assert!(rt; net.places() > 0 && net.transitions() > 0 && net.arcs() < 8);
    net.add_input(0, 0, 7)?;
    Ok(net)
}

/// A document without nets, which counts for nothing.
fn empty_document(alloc: Global) -> Document {
    Document {
        nets: Nets::new(alloc),
    }
}

fn rows_of(rt: &impl Abort, alloc: Global, lists: &[&[i128]]) -> Result<Rows, NoMemory> {
    let mut rows = Rows::new(alloc);
    for list in lists {
        assert!(rt; list.len() <= 8);
        let mut row = Vector::zeros(alloc, list.len())?;
        for (i, entry) in list.iter().enumerate() {
            assert!(rt; i < row.len() && *entry >= 0);
            row.set(i, *entry);
        }
        assert!(rt; rows.as_slice().iter().all(|other| other.len() == row.len()));
        rows.push(row)?;
    }
    Ok(rows)
}

fn set_of(
    rt: &impl Abort,
    alloc: Global,
    size: usize,
    places: &[usize],
) -> Result<PlaceSet, NoMemory> {
    assert!(rt; size <= 8);
    let mut set = PlaceSet::new(alloc, size)?;
    for p in places {
        assert!(rt; *p < set.size());
        set.insert(*p);
    }
    Ok(set)
}

fn sets_of(
    rt: &impl Abort,
    alloc: Global,
    size: usize,
    lists: &[&[usize]],
) -> Result<Sets, NoMemory> {
    let mut sets = Sets::new(alloc);
    for list in lists {
        let set = set_of(rt, alloc, size, *list)?;
        assert!(rt;
            sets.as_slice()
                .iter()
                .all(|other| other.size() == set.size())
        );
        sets.push(set)?;
    }
    Ok(sets)
}

fn text_of(rt: &impl Abort, alloc: Global, net: &FlatNet, told: Told) -> Result<Text, NoMemory> {
    match told {
        Told::Check => check_text(alloc, &empty_document(alloc), net),
        Told::Class(ordinary, state_machine, marked_graph, free_choice) => {
            let class = Class {
                ordinary,
                state_machine,
                marked_graph,
                free_choice,
            };
            class_text(alloc, class)
        }
        Told::Places(lists) => {
            let rows = rows_of(rt, alloc, lists)?;
            assert!(rt; rows.as_slice().iter().all(|row| row.len() == net.places()));
            place_semiflows_text(alloc, net, &rows)
        }
        Told::Transitions(lists) => {
            let rows = rows_of(rt, alloc, lists)?;
            assert!(rt;
                rows.as_slice()
                    .iter()
                    .all(|row| row.len() == net.transitions())
            );
            transition_semiflows_text(alloc, net, &rows)
        }
        Told::Siphons(lists) => {
            let sets = sets_of(rt, alloc, net.places(), lists)?;
            assert!(rt; sets.as_slice().iter().all(|set| set.size() == net.places()));
            siphons_text(alloc, net, &sets)
        }
        Told::Traps(lists) => {
            let sets = sets_of(rt, alloc, net.places(), lists)?;
            assert!(rt; sets.as_slice().iter().all(|set| set.size() == net.places()));
            traps_text(alloc, net, &sets)
        }
        Told::Commoner(None) => commoner_text(alloc, net, &Verdict::Yes),
        Told::Commoner(Some(places)) => {
            let siphon = set_of(rt, alloc, net.places(), places)?;
            assert!(rt; siphon.size() == net.places());
            commoner_text(alloc, net, &Verdict::No(siphon))
        }
        Told::VerifiedBounds => {
            let lines = BoundLines {
                flows: Flows::new(alloc),
                claims: Claims::new(alloc),
            };
            verified_text(alloc, net, &Certificate::Bounds(lines))
        }
        Told::VerifiedSiphon => {
            verified_text(alloc, net, &Certificate::BadSiphon(PlaceList::new(alloc)))
        }
        Told::VerifiedTree => {
            verified_text(alloc, net, &Certificate::Commoner(TreeLines::new(alloc)))
        }
    }
}

const TEXTS: [(Told<'static>, &str); 13] = [
    (Told::Check, "places 3 transitions 2 arcs 1\n"),
    (
        Told::Class(true, false, true, false),
        "ordinary yes\nstate-machine no\nmarked-graph yes\nfree-choice no\n",
    ),
    (
        Told::Class(false, true, false, true),
        "ordinary no\nstate-machine yes\nmarked-graph no\nfree-choice yes\n",
    ),
    (Told::Places(&[]), "semiflows 0\n"),
    (
        Told::Places(&[
            &[0, 10, 170141183460469231731687303715884105727],
            &[1, 0, 2],
            &[0, 0, 0],
        ]),
        "10*q 170141183460469231731687303715884105727*é<\n1*p 2*é<\n\nsemiflows 3\n",
    ),
    (
        Told::Transitions(&[&[1, 0], &[3, 20]]),
        "1*t\n3*t 20*u\nsemiflows 2\n",
    ),
    (
        Told::Siphons(&[&[2], &[2, 0], &[0, 1, 2]]),
        "é<\np é<\np q é<\nsiphons 3\n",
    ),
    (Told::Traps(&[&[1], &[]]), "q\n\ntraps 2\n"),
    (
        Told::Commoner(Some(&[2, 0])),
        "commoner no\nsiphon p é<\ndeadlock-free unknown\n",
    ),
    (
        Told::Commoner(None),
        "commoner yes\ndeadlock-free unknown\n",
    ),
    (Told::VerifiedBounds, "accepted bounds\n"),
    (Told::VerifiedSiphon, "accepted bad-siphon\n"),
    (
        Told::VerifiedTree,
        "accepted commoner\ndeadlock-free unknown\n",
    ),
];

#[test]
fn texts_of_a_small_net(rt: HostRuntime) -> Result<(), Fail> {
    let alloc = rt.alloc();
    let net = small_net(&rt, alloc)?;
    for (told, wanted) in &TEXTS {
        let text = text_of(&rt, alloc, &net, *told)?;
        assert_eq!(rt; text.as_str(), *wanted);
    }
    Ok(())
}

/// A refusal as a row tells it, with its status and its line.
#[derive(Clone, Copy)]
enum Refused {
    Usage,
    WideSum,
    WideRow,
    WideBound(usize),
    WideCheck(usize),
    RowBudget,
    SetLimit,
    NoNet(u32),
    Malformed(u64),
    Rejected(u64),
    MalformedPending(u64),
    RejectedPending(u64),
    MalformedFiring(u64),
    RejectedFiring(usize),
    WideMarking(usize),
    TooLong,
}

const LINES: [(Refused, u8, &str); 17] = [
    (
        Refused::Usage,
        2,
        "usage: pnmlstruct TASK [--net K] [--rows N] [--sets N], or pnmlstruct sample N\n",
    ),
    (Refused::WideSum, 4, "wide sum at é<\n"),
    (Refused::WideRow, 4, "wide row at é<\n"),
    (Refused::WideBound(0), 4, "wide bound in semiflow 1\n"),
    (
        Refused::WideBound(usize::MAX),
        4,
        "wide bound in semiflow 18446744073709551616\n",
    ),
    (Refused::WideCheck(1), 4, "wide sum in semiflow 2 at é<\n"),
    (
        Refused::RowBudget,
        5,
        "row budget 5 passed at é<: 12 candidates\n",
    ),
    (Refused::SetLimit, 6, "set limit 7 passed\n"),
    (Refused::NoNet(3), 3, "document refused: no net 3\n"),
    (
        Refused::Malformed(1),
        1,
        "certificate malformed at line 1\n",
    ),
    (
        Refused::Rejected(1_000_004),
        1,
        "certificate rejected at line 1000004\n",
    ),
    (
        Refused::MalformedPending(2),
        1,
        "pending malformed at line 2\n",
    ),
    (
        Refused::RejectedPending(3),
        1,
        "pending rejected at line 3\n",
    ),
    (
        Refused::MalformedFiring(2),
        1,
        "firing list malformed at line 2\n",
    ),
    (
        Refused::RejectedFiring(2),
        1,
        "firing list rejected at line 3: é< lacks tokens\n",
    ),
    (Refused::WideMarking(3), 4, "wide marking at line 4 in é<\n"),
    (Refused::TooLong, 7, "input too long\n"),
];

fn refusal(alloc: Global, refused: Refused) -> Result<Refusal, NoMemory> {
    let mut id = Text::new(alloc);
    id.push("é<")?;
    Ok(match refused {
        Refused::Usage => Refusal::Usage,
        Refused::WideSum => Refusal::Excess(Excess::WideSum(id)),
        Refused::WideRow => Refusal::Excess(Excess::WideRow(id)),
        Refused::WideBound(row) => Refusal::Excess(Excess::WideBound(row)),
        Refused::WideCheck(row) => Refusal::Excess(Excess::WideCheck(row, id)),
        Refused::RowBudget => Refusal::Excess(Excess::RowBudget(5, id, 12)),
        Refused::SetLimit => Refusal::Excess(Excess::SetLimit(7)),
        Refused::NoNet(number) => Refusal::Rule(number, FlatFault::NoNet(2)),
        Refused::Malformed(number) => Refusal::Malformed(number),
        Refused::Rejected(number) => Refusal::Rejected(number),
        Refused::MalformedPending(number) => Refusal::MalformedPending(number),
        Refused::RejectedPending(number) => Refusal::RejectedPending(number),
        Refused::MalformedFiring(number) => Refusal::MalformedFiring(number),
        Refused::RejectedFiring(member) => Refusal::RejectedFiring(member, id),
        Refused::WideMarking(member) => Refusal::Excess(Excess::WideMarking(member, id)),
        Refused::TooLong => Refusal::TooLong,
    })
}

#[test]
fn refusals_are_told(rt: HostRuntime) -> Result<(), Fail> {
    let alloc = rt.alloc();
    for (refused, wanted, line) in &LINES {
        let refusal = refusal(alloc, *refused)?;
        let mut sink = MemorySink::new(alloc, 100, Vec::new(alloc), Vec::new(alloc))?;
        assert_eq!(rt; tell(&mut sink, &refusal), Ok(()));
        assert_eq!(rt; sink.bytes(), line.as_bytes());
        assert_eq!(rt; status(&refusal), *wanted);
    }
    Ok(())
}
