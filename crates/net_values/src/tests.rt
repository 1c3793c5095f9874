ghost use Rattle.std.specs.Prelude.{◌≡◌, ◌≤ℤ◌, IfOk, pos, length};

use super::*;
use std::alloc::Global;
use std::process::Abort;
use std::test::Fail;

/// Two places and two transitions in a ring: p to t to q to u to p, with one token on p.
fn ring(rt: &impl Abort, alloc: Global) -> Result<FlatNet, NoMemory> {
    let mut net = FlatNet::new(alloc);
    for (id, initial) in [("p", 1), ("q", 0)] {
        assert!(rt; net.places() < 2);
        net.add_place(Text::from_bytes(alloc, id.as_bytes())?, initial)?;
    }
    for id in ["t", "u"] {
        assert!(rt; net.transitions() < 2);
        net.add_transition(Text::from_bytes(alloc, id.as_bytes())?)?;
    }
    for (p, t, q) in [(0, 0, 1), (1, 1, 0)] {
        assert!(rt; net.places() == 2 && net.transitions() == 2 && net.arcs() < 4);
        net.add_input(p, t, 1)?;
        net.add_output(t, q, 1)?;
    }
    Ok(net)
}

fn counts(rt: &impl Abort, marking: &Marking) -> (i128, i128) {
    assert!(rt; marking.places() == 2);
    (marking.get(0), marking.get(1))
}

#[test]
fn nets_add_parallel_arcs_and_fire_within_the_limits(rt: HostRuntime) -> Result<(), Fail> {
    let alloc = rt.alloc();
    let mut net = ring(&rt, alloc)?;
    assert!(rt; net.places() == 2 && net.transitions() == 2 && net.arcs() == 4);
    assert_eq!(rt; net.takers(0), [0].as_slice());
    assert_eq!(rt; net.givers(0), [1].as_slice());
    let mut marking = Marking::initial(alloc, &net)?;
    assert!(rt; marking.places() == net.places());
    assert_eq!(rt; net.fire(&mut marking, 0), Ok(()));
    assert_eq!(rt; counts(&rt, &marking), (0, 1));
    assert_eq!(rt; net.fire(&mut marking, 0), Err(FireFault::NotEnabled(0)));
    assert_eq!(rt; counts(&rt, &marking), (0, 1));

    net.add_input(0, 0, u64::MAX)?;
    assert!(rt; net.places() == 2 && net.transitions() == 2 && net.arcs() == 5);
    assert_eq!(rt; net.pre(0, 0), 1 << 64, "parallel arcs are summed");
    assert_eq!(rt; net.inputs(0).len(), 1, "under one entry");
    let back = net.reverse(alloc)?;
    assert!(rt; back.places() == 2 && back.transitions() == 2 && back.arcs() == 5);
    assert_eq!(rt;
        (back.post(0, 0), back.pre(0, 0), back.pre(1, 0)),
        (1 << 64, 0, 1)
    );
    assert_eq!(rt;
        (
            back.place_id(1).as_bytes(),
            back.transition_id(0).as_bytes()
        ),
        (b"q".as_slice(), b"t".as_slice())
    );
    assert_eq!(rt; (back.initial(0), back.initial(1)), (1, 0));
    assert_eq!(rt; back.takers(0), [1].as_slice());
    assert_eq!(rt; back.givers(0), [0].as_slice());
    Ok(())
}

#[test]
fn nodes_are_counted_and_named_by_their_kind(rt: HostRuntime) -> Result<(), Fail> {
    let alloc = rt.alloc();
    let net = ring(&rt, alloc)?;
    for (kind, other, id) in [
        (NodeKind::Place, NodeKind::Transition, "q"),
        (NodeKind::Transition, NodeKind::Place, "u"),
    ] {
        assert_eq!(rt; kind.other(), other);
        assert!(rt; net.nodes(kind) == 2);
        assert_eq!(rt; net.node_id(kind, 1).as_str(), id);
    }
    Ok(())
}

#[test]
fn firing_never_makes_a_count_wide(rt: HostRuntime) -> Result<(), Fail> {
    let alloc = rt.alloc();
    let mut net = FlatNet::new(alloc);
    net.add_place(Text::new(alloc), 0)?;
    net.add_transition(Text::new(alloc))?;
    net.add_output(0, 0, 1)?;
    for (before, answer, after) in [
        (i128::MAX, Err(FireFault::WideMarking(0)), i128::MAX),
        (i128::MAX - 1, Ok(()), i128::MAX),
        (0, Ok(()), 1),
    ] {
        assert!(rt; before >= 0);
        let mut marking = Marking::from_counts(alloc, &[before])?;
        assert!(rt; marking.places() == 1 && net.places() == 1 && net.transitions() == 1);
        assert_eq!(rt; net.fire(&mut marking, 0), answer, "at {before}");
        assert_eq!(rt; marking.get(0), after, "at {before}");
    }
    Ok(())
}

/// The vector with these two entries.
fn pair(alloc: Global, high: i128, low: i128) -> Result<Vector, NoMemory>
    requires high { pos 0 ≤ℤ high }
    requires low { pos 0 ≤ℤ low }
    ensures { IfOk result (λ vector. length vector ≡ 2) }
{
    let mut vector = Vector::zeros(alloc, 2)?;
    vector.set(0, high);
    vector.set(1, low);
    Ok(vector)
}

/// Appends a row of the length of those that are there.
fn append_row(rt: &impl Abort, rows: &mut Rows, row: Vector) -> Result<(), NoMemory> {
    assert!(rt; rows.as_slice().iter().all(|other| other.len() == row.len()));
    rows.push(row)
}

/// Appends a set of the size of those that are there.
fn append_set(rt: &impl Abort, sets: &mut Sets, set: PlaceSet) -> Result<(), NoMemory> {
    assert!(rt;
        sets.as_slice()
            .iter()
            .all(|other| other.size() == set.size())
    );
    sets.push(set)
}

#[test]
fn rows_are_sorted_and_cut(rt: HostRuntime) -> Result<(), Fail> {
    let alloc = rt.alloc();
    let mut rows = Rows::new(alloc);
    for (high, low) in [(2, 0), (0, 5), (0, 4), (2, 0)] {
        assert!(rt; high >= 0 && low >= 0);
        append_row(&rt, &mut rows, pair(alloc, high, low)?.copy(alloc)?)?;
    }
    rows.sort();
    assert!(rt; rows.len() == 4);
    rows.truncate(3);
    assert!(rt; rows.len() == 3);
    let first = rows.remove(0);
    assert!(rt; rows.len() == 2);
    assert!(rt;
        first == pair(alloc, 0, 4)?
            && *rows.get(0) == pair(alloc, 0, 5)?
            && *rows.get(1) == pair(alloc, 2, 0)?
    );
    Ok(())
}

#[test]
fn positive_entries_are_numbered_across_words(rt: HostRuntime) -> Result<(), Fail> {
    let alloc = rt.alloc();
    let mut vector = Vector::zeros(alloc, 130)?;
    for (position, value) in [(128, 5), (63, 7), (64, 9), (63, 0)] {
        assert!(rt; position < vector.len() && value >= 0);
        vector.set(position, value);
    }
    assert_eq!(rt; vector.positives(), 2);
    assert!(rt; vector.positives() > 1);
    assert_eq!(rt;
        (vector.positive(0), vector.positive(1)),
        ((64, 9), (128, 5))
    );
    let mut walk = vector.walk();
    assert_eq!(rt;
        (walk.next(), walk.next(), walk.next()),
        (Some((64, 9)), Some((128, 5)), None)
    );
    vector.clear();
    assert_eq!(rt; vector.positives(), 0);
    Ok(())
}

#[test]
fn sets_are_sorted_and_cut(rt: HostRuntime) -> Result<(), Fail> {
    let alloc = rt.alloc();
    let mut sets = Sets::new(alloc);
    for (high, low) in [(true, false), (false, true), (false, true), (true, false)] {
        let mut set = PlaceSet::new(alloc, 2)?;
        if high {
            set.insert(0);
        }
        if low {
            set.insert(1);
        }
        append_set(&rt, &mut sets, set.copy(alloc)?)?;
    }
    sets.sort();
    assert!(rt; sets.len() == 4);
    sets.truncate(3);
    assert!(rt; sets.len() == 3);
    let least = sets.remove(0);
    assert!(rt; sets.len() == 2);
    assert!(rt; least.size() == 2 && least.contains(1) && !least.contains(0) && !least.is_empty());
    let most = sets.get(1);
    assert!(rt; most.size() == 2 && most.contains(0) && !most.contains(1));
    assert!(rt; least.is_subset(&least) && !least.is_subset(most) && !most.is_subset(&least));
    Ok(())
}

#[test]
fn a_set_and_its_complement_share_no_place(rt: HostRuntime) -> Result<(), Fail> {
    let alloc = rt.alloc();
    let mut set = PlaceSet::new(alloc, 2)?;
    set.insert(0);
    let others = set.complement(alloc)?;
    assert!(rt; others.size() == 2 && !others.contains(0) && others.contains(1));
    set.copy_from(&others);
    assert!(rt; set == others);
    Ok(())
}

#[test]
fn lists_are_joined_in_their_order(rt: HostRuntime) -> Result<(), Fail> {
    let alloc = rt.alloc();
    let mut list = List::new(alloc);
    list.push(3)?;
    let mut more = List::new(alloc);
    more.push(1)?;
    more.push(2)?;
    list.append(more)?;
    assert_eq!(rt; list.as_slice(), [3, 1, 2].as_slice());
    assert_eq!(rt; list.into_first(), Some(3));
    assert_eq!(rt; List::<u8>::new(alloc).into_first(), None);
    Ok(())
}

#[test]
fn sets_keep_their_places_across_words(rt: HostRuntime) -> Result<(), Fail> {
    let alloc = rt.alloc();
    let mut set = PlaceSet::new(alloc, 4096)?;
    assert!(rt; set.size() == 4096 && set.is_empty());
    for p in [0, 63, 64, 4095] {
        assert!(rt; p < set.size());
        set.insert(p);
    }
    assert!(rt; set.size() == 4096);
    set.remove(63);
    let others = set.complement(alloc)?;
    assert!(rt; set.size() == 4096 && others.size() == 4096);
    for (p, is_in) in [
        (0, true),
        (63, false),
        (64, true),
        (4094, false),
        (4095, true),
    ] {
        assert!(rt; p < set.size() && p < others.size());
        assert_eq!(rt;
            (set.contains(p), others.contains(p)),
            (is_in, !is_in),
            "{p}"
        );
    }
    assert!(rt; !set.is_subset(&others) && set.is_subset(&set) && set > others);
    assert!(rt; set.is_within_either(&others, &set) && !set.is_within_either(&others, &others));
    Ok(())
}

#[test]
fn the_first_place_is_looked_for_from_a_place_on(rt: HostRuntime) -> Result<(), Fail> {
    let alloc = rt.alloc();
    let mut set = PlaceSet::new(alloc, 130)?;
    for p in [3, 64, 129] {
        assert!(rt; p < set.size());
        set.insert(p);
    }
    for (from, first) in [
        (0, Some(3)),
        (3, Some(3)),
        (4, Some(64)),
        (64, Some(64)),
        (65, Some(129)),
        (130, None),
        (usize::MAX, None),
    ] {
        assert_eq!(rt; set.first_from(from), first, "from {from}");
    }
    Ok(())
}

#[test]
fn members_are_taken_out_last_first(rt: HostRuntime) -> Result<(), Fail> {
    let mut list = List::new(rt.alloc());
    list.push(1)?;
    list.push(2)?;
    assert_eq!(rt;
        (list.pop(), list.pop(), list.pop()),
        (Some(2), Some(1), None)
    );
    Ok(())
}
