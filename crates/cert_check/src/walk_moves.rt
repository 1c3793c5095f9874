ghost use Rattle.std.specs.Prelude.{◌≡◌, [], ◌∷◌, ℕ, ◌<◌, MatchBool, true, false, length};
ghost use Rattle.net_values.specs.FlatNets.{net_of};
ghost use Rattle.net_values.specs.PlaceSets.{has};
ghost use Rattle.closed_sets.specs.ClosedSets.{IsSiphon};
ghost use Rattle.closed_sets.specs.Opens.{AreLeaving};
ghost use Rattle.certificates.specs.Conditions.{TreeLineHolds, after_line, all_siphons};
ghost use Rattle.certificates.specs.declared.certificate.TreeLine.{TreeLine};
ghost use Rattle.cert_check.specs.Walks.{HasSizes, IsAt, IsLeft, KnowsWithout, Enters, Turns, Rises};
ghost use Rattle.cert_check.specs.Walks.{class_now, pending_now, level_at, saved_at};

use crate::walk::{Level, Walk};
use closed_sets::{
    Fallen, find_empty_places, find_leaving, greatest_siphon, keeps_without, put_place,
};
use net_values::{FlatNet, PlaceSet};

/// Begins at the class of all siphons.
pub fn begin(net: &FlatNet, walk: &mut Walk)
    requires { HasSizes (net_of net.now).places walk.old }
    ensures { IsLeft (net_of net.now) walk.new (all_siphons ∷ []) }
{
    walk.depth = 0;
    clear(&mut walk.contained);
    clear(&mut walk.used);
    find_leaving(net, &walk.contained, &mut walk.leaving);
    find_empty_places(net, &mut walk.unmarked);
    walk.empty = false;
    fill(&mut walk.live);
    greatest_siphon(net, &mut walk.live);
}

/// Takes every place out of the set.
pub fn clear(set: &mut PlaceSet)
    ensures size { length set.new ≡ length set.old }
    ensures empty { (p : ℕ) → p < length set.old → has set.new p ≡ false }
{
    for p in 0..set.size() {
        set.remove(p);
    }
}

/// Puts every place into the set.
fn fill(set: &mut PlaceSet)
    ensures size { length set.new ≡ length set.old }
    ensures full { (p : ℕ) → p < length set.old → has set.new p ≡ true }
{
    for p in 0..set.size() {
        set.insert(p);
    }
}

/// Parts the class at place `p`, where the net has the place and the class neither contains nor avoids it. Tells
/// whether this is so.
pub fn split(net: &FlatNet, walk: &mut Walk, p: u32) -> bool
    requires { IsAt (net_of net.now) walk.old }
    ensures exact { MatchBool result
        (IsLeft (net_of net.now) walk.new (after_line (TreeLine.Split p) (class_now walk.old) (pending_now walk.old)))
        (TreeLineHolds (net_of net.now) (class_now walk.old) (TreeLine.Split p) → ⊥) }
    ensures holds { result ≡ true → TreeLineHolds (net_of net.now) (class_now walk.old) (TreeLine.Split p) }
    ensures sizes { HasSizes (net_of net.now).places walk.new }
{
    let place = p as usize;
    if place >= net.places() || walk.used.contains(place) {
        return false;
    }
    enter(net, walk, place);
    true
}

/// Goes down to the first side of a split at place `p`, which is in none of the splits above it.
fn enter(net: &FlatNet, walk: &mut Walk, p: usize)
    requires at { IsAt (net_of net.now) walk.old }
    requires place { p < (net_of net.now).places }
    requires room { walk.old.depth < (net_of net.now).places }
    ensures { Enters (net_of net.now) walk.old walk.new p }
{
    let depth = walk.depth;
    walk.levels[depth] = Level {
        place: p,
        contained: false,
        empty: walk.empty,
    };
    walk.saved[depth].copy_from(&walk.live);
    walk.used.insert(p);
    walk.empty = leave_out(
        net,
        walk.empty,
        &mut walk.live,
        p,
        &walk.contained,
        &mut walk.fallen,
    );
    walk.depth = depth + 1;
}

/// Takes place `p` out of the greatest siphon of a class, unless the class is empty. Tells whether the class without
/// the place is: so it is as soon as a contained place falls. The list is scratch.
fn leave_out(
    net: &FlatNet,
    empty: bool,
    live: &mut PlaceSet,
    p: usize,
    contained: &PlaceSet,
    fallen: &mut Fallen,
) -> bool
    requires size { length live.old ≡ (net_of net.now).places }
    requires siphon { empty ≡ false → IsSiphon (net_of net.now) (has live.old) }
    ensures size { length live.new ≡ length live.old }
    ensures known { KnowsWithout (net_of net.now) contained.now p empty live.old result live.new }
{
    empty || !keeps_without(net, live, p, contained, fallen)
}

/// Whether no nonempty siphon belongs to the class: so it is where that is known, or the greatest siphon that avoids
/// what the class avoids is empty, or lacks a place of the set that its siphons contain.
pub fn is_empty_class(net: &FlatNet, walk: &Walk) -> bool
    requires { IsAt (net_of net.now) walk.now }
    ensures { MatchBool result (TreeLineHolds (net_of net.now) (class_now walk.now) TreeLine.Empty)
        (TreeLineHolds (net_of net.now) (class_now walk.now) TreeLine.Empty → ⊥) }
{
    if walk.empty {
        return true;
    }
    walk.live.is_empty() || !walk.contained.is_subset(&walk.live)
}

/// Goes on to the next class that is left: up from the second sides of splits, and over to the second side of
/// the first split that has it to come.
pub fn advance(net: &FlatNet, walk: &mut Walk)
    requires { IsAt (net_of net.now) walk.old }
    ensures { IsLeft (net_of net.now) walk.new (pending_now walk.old) }
{
    'levels: while walk.depth > 0 {
        let d = walk.depth - 1;
        if !walk.levels[d].contained {
            turn(net, walk, d);
            return;
        }
        rise(net, walk, d);
    }
}

/// Goes from the first side of split `d`, the deepest, to the second.
fn turn(net: &FlatNet, walk: &mut Walk, d: usize)
    requires level { d < length walk.old.levels.items }
    requires saved { d < length walk.old.saved.items }
    requires place { (level_at walk.old.levels.items d).place < (net_of net.now).places }
    requires contained { length walk.old.contained ≡ (net_of net.now).places }
    requires leaving { AreLeaving (net_of net.now) walk.old.contained walk.old.leaving }
    requires live { length walk.old.live ≡ length (saved_at walk.old.saved.items d) }
    ensures { Turns (net_of net.now) walk.old walk.new d }
{
    let Level { place, empty, .. } = walk.levels[d];
    walk.levels[d] = Level {
        place,
        contained: true,
        empty,
    };
    put_place(net, &mut walk.contained, &mut walk.leaving, place, true);
    walk.empty = empty;
    walk.live.copy_from(&walk.saved[d]);
}

/// Goes up from the second side of split `d`, the deepest.
fn rise(net: &FlatNet, walk: &mut Walk, d: usize)
    requires level { d < length walk.old.levels.items }
    requires place { (level_at walk.old.levels.items d).place < (net_of net.now).places }
    requires contained { length walk.old.contained ≡ (net_of net.now).places }
    requires leaving { AreLeaving (net_of net.now) walk.old.contained walk.old.leaving }
    requires used { (level_at walk.old.levels.items d).place < length walk.old.used }
    ensures { Rises (net_of net.now) walk.old walk.new d }
{
    let place = walk.levels[d].place;
    put_place(net, &mut walk.contained, &mut walk.leaving, place, false);
    walk.used.remove(place);
    walk.depth = d;
}
