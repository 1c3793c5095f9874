use super::*;
use small_nets::{Arc, net_with, place_set};
use std::test::Fail;

/// Two places in a ring, two in a line, and three in a line whose second transition comes first.
const RING: &[Arc] = &[(0, 0, -1), (1, 0, 1), (1, 1, -1), (0, 1, 1)];

const LINE: &[Arc] = &[(0, 0, -1), (1, 0, 1)];

const TURNED_LINE: &[Arc] = &[(0, 1, -1), (1, 1, 1), (1, 0, -1), (2, 0, 1)];

/// A net without tokens by its numbers of places and transitions and its arcs, a set of its places, and
/// whether that is a siphon, a trap and a minimal siphon.
type SetRow = (usize, usize, &'static [Arc], &'static [usize], [bool; 3]);

const SETS: [SetRow; 9] = [
    (2, 2, RING, &[], [true, true, false]),
    (2, 2, RING, &[0], [false, false, false]),
    (2, 2, RING, &[0, 1], [true, true, true]),
    (2, 1, LINE, &[0], [true, false, true]),
    (2, 1, LINE, &[1], [false, true, false]),
    (2, 1, LINE, &[0, 1], [true, true, false]),
    (2, 0, &[], &[1], [true, true, true]),
    (2, 0, &[], &[0, 1], [true, true, false]),
    (0, 1, &[], &[], [true, true, false]),
];

/// A set of places of the turned line, and the greatest siphon and the greatest trap in it.
const GREATEST: [[&[usize]; 3]; 4] = [
    [&[0, 1, 2], &[0, 1, 2], &[0, 1, 2]],
    [&[1, 2], &[], &[1, 2]],
    [&[0, 1], &[0, 1], &[]],
    [&[0, 2], &[0], &[2]],
];

#[test]
fn siphons_and_traps_of_small_nets(rt: HostRuntime) -> Result<(), Fail> {
    let alloc = rt.alloc();
    for (places, transitions, arcs, set, answers) in &SETS {
        let marking = [0; 2];
        assert!(rt; *places <= marking.len());
        let net = net_with(alloc, &marking[..*places], *transitions, arcs)?;
        let set = place_set(alloc, *places, set)?;
        let mut scratch = place_set(alloc, *places, &[])?;
        assert!(rt; net.places() == set.size() && net.places() == scratch.size());
        let minimal = is_minimal_siphon(&net, &set, &mut scratch);
        assert_eq!(rt;
            [is_siphon(&net, &set), is_trap(&net, &set), minimal],
            *answers
        );
    }
    Ok(())
}

#[test]
fn greatest_closed_sets_of_a_line(rt: HostRuntime) -> Result<(), Fail> {
    let alloc = rt.alloc();
    let line = net_with(alloc, &[0; 3], 2, TURNED_LINE)?;
    for [within, siphon, trap] in &GREATEST {
        let mut set = place_set(alloc, 3, within)?;
        let mut other = place_set(alloc, 3, within)?;
        assert!(rt; line.places() == set.size() && line.places() == other.size());
        greatest_siphon(&line, &mut set);
        greatest_trap(&line, &mut other);
        assert!(rt; set == place_set(alloc, 3, siphon)? && other == place_set(alloc, 3, trap)?);
    }
    Ok(())
}

/// A place that is taken out of all places of the line, a set that has to stay, and what is left where it does.
type WithoutRow = (usize, &'static [usize], Option<&'static [usize]>);

const WITHOUT: [WithoutRow; 4] = [
    (1, &[0], Some(&[0])),
    (0, &[], Some(&[])),
    (0, &[1], None),
    (7, &[0, 1], Some(&[0, 1])),
];

#[test]
fn siphons_of_a_line_without_a_place(rt: HostRuntime) -> Result<(), Fail> {
    let alloc = rt.alloc();
    let line = net_with(alloc, &[0; 2], 1, LINE)?;
    let mut fallen = Fallen::none();
    for (place, kept, left) in &WITHOUT {
        let mut set = place_set(alloc, 2, &[0, 1])?;
        let kept = place_set(alloc, 2, kept)?;
        assert!(rt; line.places() == set.size());
        assert!(rt; is_siphon(&line, &set));
        let stays = keeps_without(&line, &mut set, *place, &kept, &mut fallen);
        assert!(rt; stays == left.is_some());
        if let Some(left) = left {
            assert!(rt; set == place_set(alloc, 2, left)?);
        }
    }
    Ok(())
}

#[test]
fn open_transitions_of_a_set_that_grows(rt: HostRuntime) -> Result<(), Fail> {
    let alloc = rt.alloc();
    let line = net_with(alloc, &[0; 2], 1, LINE)?;
    let mut set = place_set(alloc, 2, &[])?;
    let mut opens = place_set(alloc, 1, &[])?;
    assert!(rt; line.places() == 2 && set.size() == 2);
    assert!(rt; line.transitions() == 1 && opens.size() == 1);
    find_open(&line, &set, &mut opens);
    add_place(&line, &mut set, &mut opens, 1);
    assert!(rt; opens == place_set(alloc, 1, &[0])?);
    assert!(rt; set.size() == line.places());
    add_place(&line, &mut set, &mut opens, 0);
    assert!(rt; opens.is_empty());
    Ok(())
}
