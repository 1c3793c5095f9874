use super::*;
use net_values::{FlatNet, NoMemory, PlaceSet, Sets};
use small_nets::{Arc, net_with, place_set};
use std::alloc::Global;
use std::process::Abort;
use std::test::Fail;

/// The net of philosophers, of whom each takes the forks on both sides at once.
fn table_for(rt: &impl Abort, alloc: Global, philosophers: usize) -> Result<FlatNet, NoMemory> {
    assert!(rt; 0 < philosophers && philosophers <= 200);
    let mut arcs: Vec<Arc> = Vec::new(alloc);
    for i in 0..philosophers {
        let (think, fork, eat) = (i, philosophers + i, 2 * philosophers + i);
        let other = philosophers + (i + 1) % philosophers;
        let (take, release) = (2 * i, 2 * i + 1);
        for place in [think, fork, other] {
            arcs.push((place, take, -1))?;
            arcs.push((place, release, 1))?;
        }
        arcs.push((eat, take, 1))?;
        arcs.push((eat, release, -1))?;
    }
    let marking = [0; 600];
    net_with(
        alloc,
        &marking[..3 * philosophers],
        2 * philosophers,
        arcs.as_slice(),
    )
}

/// Whether the set has exactly the places of the row.
fn has_places(set: &PlaceSet, row: &[usize]) -> bool {
    for p in 0..set.size() {
        if set.contains(p) != row.contains(&p) {
            return false;
        }
    }
    true
}

/// Whether the list has exactly the rows, in their order.
fn has_rows(list: &Sets, rows: &[&[usize]]) -> bool {
    list.len() == rows.len()
        && list
            .as_slice()
            .iter()
            .zip(rows)
            .all(|(set, row)| has_places(set, row))
}

#[test]
fn minimal_siphons_and_traps_of_small_nets(rt: HostRuntime) -> Result<(), Fail> {
    let alloc = rt.alloc();
    let ring = net_with(
        alloc,
        &[0; 2],
        2,
        &[(0, 0, -1), (1, 0, 1), (1, 1, -1), (0, 1, 1)],
    )?;
    let line = net_with(alloc, &[0; 2], 1, &[(0, 0, -1), (1, 0, 1)])?;
    let isles = net_with(alloc, &[0; 2], 0, &[])?;
    let only = net_with(alloc, &[], 1, &[])?;
    let three = table_for(&rt, alloc, 3)?;
    let six: [&[usize]; 6] = [
        &[5, 7, 8],
        &[4, 6, 7],
        &[3, 6, 8],
        &[2, 8],
        &[1, 7],
        &[0, 6],
    ];
    let rows: [(FlatNet, u32, &[&[usize]]); 7] = [
        (ring.reverse(alloc)?, 1, &[&[0, 1]]),
        (ring, 1, &[&[0, 1]]),
        (line.reverse(alloc)?, 2, &[&[1]]),
        (line, 1, &[&[0]]),
        (isles, 2, &[&[1], &[0]]),
        (only, 0, &[]),
        (three, 6, &six),
    ];
    for (net, sets, expected) in &rows {
        match minimal_siphons(alloc, net, *sets) {
            Ok(list) => assert!(rt; has_rows(&list, expected)),
            Err(_) => assert!(rt; false),
        }
    }
    Ok(())
}

/// Whether the list came, and how many sets came.
fn outcome(alloc: Global, net: &FlatNet, sets: u32) -> (bool, usize) {
    match minimal_siphons(alloc, net, sets) {
        Ok(list) => (true, list.len()),
        Err(SetFault::SetLimit(met)) => (false, met.len()),
        Err(SetFault::NoMemory) => (false, 0),
    }
}

#[test]
fn one_more_grown_siphon_than_the_limit_is_carried(rt: HostRuntime) -> Result<(), Fail> {
    let alloc = rt.alloc();
    let isles = net_with(alloc, &[0; 2], 0, &[])?;
    assert_eq!(rt; outcome(alloc, &isles, 0), (false, 1));
    assert_eq!(rt; outcome(alloc, &isles, 1), (false, 2));
    let many = table_for(&rt, alloc, 100)?;
    assert_eq!(rt; outcome(alloc, &many, 199), (false, 200));
    assert_eq!(rt; outcome(alloc, &many, 200), (true, 200));
    Ok(())
}

/// What a search with this limit answers to a call for so many siphons, and how many it has met and found then,
/// and how many classes are pending.
fn advanced(
    alloc: Global,
    net: &FlatNet,
    sets: u32,
    leaves: u32,
) -> Result<(Result<Progress, AdvanceFault>, [usize; 3]), NoMemory> {
    let mut search = Search::start(alloc, net, sets)?;
    let answer = search.advance(leaves.max(1));
    let numbers = [
        search.met().len(),
        search.found().len(),
        search.pending().len(),
    ];
    Ok((answer, numbers))
}

#[test]
fn siphons_of_two_isles_by_a_search(rt: HostRuntime) -> Result<(), Fail> {
    let alloc = rt.alloc();
    let isles = net_with(alloc, &[0; 2], 0, &[])?;
    for (sets, leaves, answer, numbers) in [
        (3, 3, Ok(Progress::Done), [2, 2, 0]),
        (3, 1, Ok(Progress::More), [1, 1, 1]),
        (1, 3, Err(AdvanceFault::SetLimit), [2, 2, 0]),
    ] {
        assert!(rt; advanced(alloc, &isles, sets, leaves)? == (answer, numbers));
    }
    Ok(())
}

#[test]
fn siphons_of_one_class(rt: HostRuntime) -> Result<(), Fail> {
    let alloc = rt.alloc();
    let isles = net_with(alloc, &[0; 2], 0, &[])?;
    let contains = place_set(alloc, 2, &[0])?;
    let avoids = place_set(alloc, 2, &[1])?;
    assert!(rt; contains.size() == isles.places());
    assert!(rt; avoids.size() == isles.places());
    let mut classes = Branches::new(alloc);
    classes.push(Branch { contains, avoids })?;
    let mut search = Search::start_from(alloc, &isles, classes, 3)?;
    let answer = search.advance(3);
    assert!(rt; answer == Ok(Progress::Done) && has_rows(search.found(), &[&[0]]));
    Ok(())
}

/// The minimal siphons by a search that is held after each siphon that it meets, where it meets so many.
fn in_steps(alloc: Global, net: &FlatNet, sets: u32) -> Result<Option<Sets>, NoMemory> {
    let mut search = Search::start(alloc, net, sets)?;
    for _ in 1..sets {
        if search.advance(1) != Ok(Progress::More) {
            return Ok(None);
        }
    }
    if search.advance(1) == Ok(Progress::Done) {
        Ok(Some(search.into_list()))
    } else {
        Ok(None)
    }
}

#[test]
fn a_search_held_after_each_siphon_gives_the_same_list(rt: HostRuntime) -> Result<(), Fail> {
    let alloc = rt.alloc();
    let table = table_for(&rt, alloc, 50)?;
    match (
        in_steps(alloc, &table, 100)?,
        minimal_siphons(alloc, &table, 100),
    ) {
        (Some(steps), Ok(list)) => assert!(rt; steps.as_slice() == list.as_slice()),
        _ => assert!(rt; false),
    }
    Ok(())
}
