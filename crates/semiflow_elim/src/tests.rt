mod named_nets;

use super::*;
use incidence::Incidence;
use named_nets::{Entry, NamedNet, OF_PLACES, OF_TRANSITIONS};
use net_values::{Rows, Vector};
use small_nets::net_with;
use std::alloc::Global;
use std::process::Abort;
use std::test::Fail;

/// The entry that the listed ones give the semiflow of this number at a place: 0 where none does.
fn listed_entry(entries: &[Entry], number: usize, position: usize) -> u128 {
    entries
        .iter()
        .find(|entry| entry.0 == number && entry.1 == position)
        .map_or(0, |entry| entry.2)
}

/// Whether the semiflow of this number has the listed entries and 0 at every other place.
fn is_listed(row: &Vector, number: usize, entries: &[Entry]) -> bool {
    for position in 0..row.len() {
        if row.entry_at(position) != listed_entry(entries, number, position) {
            return false;
        }
    }
    true
}

/// Whether the list has this many semiflows with these entries and 0 at every other place.
fn is_list(rows: &Rows, count: usize, entries: &[Entry]) -> bool {
    rows.len() == count
        && rows
            .as_slice()
            .iter()
            .enumerate()
            .all(|(number, row)| is_listed(row, number, entries))
}

/// The answer on the matrix is that of the named net.
fn has_answer(rt: &impl Abort, matrix: &Incidence, named: &NamedNet, alloc: Global) {
    let name = named.name;
    match (minimal_semiflows(alloc, matrix, 50), &named.answer) {
        (Ok(rows), Ok((count, entries))) => {
            assert!(rt; is_list(&rows, *count, entries), "{name}");
        }
        (Err(fault), Err(wanted)) => assert_eq!(rt; fault, *wanted, "{name}"),
        _ => assert!(rt; false, "{name}"),
    }
}

#[test]
fn the_named_nets_have_these_minimal_semiflows(rt: HostRuntime) -> Result<(), Fail> {
    let alloc = rt.alloc();
    let marking = [0; 5];
    for named in &OF_PLACES {
        assert!(rt; named.places <= marking.len());
        let net = net_with(
            alloc,
            &marking[..named.places],
            named.transitions,
            named.arcs,
        )?;
        has_answer(&rt, &Incidence::of(alloc, &net)?, named, alloc);
    }
    for named in &OF_TRANSITIONS {
        assert!(rt; named.places <= marking.len());
        let net = net_with(
            alloc,
            &marking[..named.places],
            named.transitions,
            named.arcs,
        )?;
        let turned = Incidence::of(alloc, &net)?.transpose(alloc)?;
        has_answer(&rt, &turned, named, alloc);
    }
    Ok(())
}

#[test]
fn a_fan_of_ten_has_a_hundred_semiflows(rt: HostRuntime) -> Result<(), Fail> {
    let alloc = rt.alloc();
    let mut arcs = Vec::new(alloc);
    for place in 0..20 {
        arcs.push((place, 0, if place < 10 { -1 } else { 1 }))?;
    }
    let mut entries = Vec::new(alloc);
    for number in 0..100 {
        entries.push((number, 9 - number / 10, 1))?;
        entries.push((number, 19 - number % 10, 1))?;
    }
    let fan = net_with(alloc, &[0; 20], 1, arcs.as_slice())?;
    let matrix = Incidence::of(alloc, &fan)?;
    match minimal_semiflows(alloc, &matrix, 100) {
        Ok(rows) => assert!(rt; is_list(&rows, 100, entries.as_slice())),
        Err(_) => assert!(rt; false, "the elimination failed"),
    }
    match minimal_semiflows(alloc, &matrix, 99) {
        Ok(_) => assert!(rt; false, "the budget was passed"),
        Err(fault) => assert_eq!(rt; fault, ElimFault::RowBudget(0, 100)),
    }
    Ok(())
}

#[test]
fn the_column_with_the_fewest_candidates_is_taken_first(rt: HostRuntime) -> Result<(), Fail> {
    let alloc = rt.alloc();
    let mut arcs = Vec::new(alloc);
    for place in 0..6 {
        arcs.push((place, 0, if place < 3 { -1 } else { 1 }))?;
    }
    for place in 0..3 {
        arcs.push((place, 1, -1))?;
    }
    let funnel = net_with(alloc, &[0; 6], 2, arcs.as_slice())?;
    let matrix = Incidence::of(alloc, &funnel)?;
    match minimal_semiflows(alloc, &matrix, 8) {
        Ok(rows) => assert_eq!(rt; rows.len(), 0),
        Err(_) => assert!(rt; false, "the first column was taken first"),
    }
    match minimal_semiflows(alloc, &matrix, 2) {
        Ok(_) => assert!(rt; false, "the budget was passed"),
        Err(fault) => assert_eq!(rt; fault, ElimFault::RowBudget(1, 3)),
    }
    assert_eq!(rt; matrix.columns(), 2);
    let mut tableau = Tableau::start(alloc, &matrix)?;
    assert_eq!(rt; tableau.done(), 0);
    match tableau.step(8) {
        Ok(()) => assert!(rt; tableau.taken(1) && !tableau.taken(0) && tableau.done() == 1),
        Err(_) => assert!(rt; false, "the step failed"),
    }
    Ok(())
}
