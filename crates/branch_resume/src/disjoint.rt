ghost use Rattle.std.specs.Prelude.{◌≡◌, ◌↔◌, false, All, AllPairs, Any, IfOk, IsTrue, MatchOption, length};
ghost use Rattle.siphon_branch.specs.Classes.{AreDisjoint, HasSize};
ghost use Rattle.branch_resume.specs.Disjoint.{HaveCommon, IsFirstOverlap, IsWithinBoth, OverlapsOne};

use net_values::{NoMemory, PlaceSet};
use siphon_branch::Branch;
use std::alloc::Global;

/// The first class that isn't disjoint from an earlier one. Classes that a search left pending take one walk;
/// only where that doesn't tell them apart are they compared pair by pair.
pub(crate) fn first_overlap(
    alloc: Global,
    _places: usize,
    classes: &[Branch],
) -> Result<Option<usize>, NoMemory>
    requires { All (HasSize _places) classes.now }
    ensures { IfOk result (λ first. MatchOption first (AllPairs AreDisjoint classes.now) (IsFirstOverlap classes.now)) }
{
    if avoid_later(alloc, _places, classes)? {
        Ok(None)
    } else {
        Ok(first_of_pairs(_places, classes))
    }
}

/// Whether each class avoids a place that all later ones contain.
fn avoid_later(alloc: Global, _places: usize, classes: &[Branch]) -> Result<bool, NoMemory>
    requires { All (HasSize _places) classes.now }
    ensures { IfOk result (λ told. IsTrue told → AllPairs AreDisjoint classes.now) }
{
    let Some(last) = classes.last() else {
        return Ok(true);
    };
    let mut common = last.contains.copy(alloc)?;
    let mut first = classes.len() - 1;
    'classes: while first > 0 {
        first -= 1;
        let class = &classes[first];
        if !have_common(&common, &class.avoids) {
            return Ok(false);
        }
        keep_within(&mut common, &class.contains);
    }
    Ok(true)
}

/// The first class that isn't disjoint from an earlier one, each compared with all.
fn first_of_pairs(_places: usize, classes: &[Branch]) -> Option<usize>
    requires { All (HasSize _places) classes.now }
    ensures { MatchOption result (AllPairs AreDisjoint classes.now) (IsFirstOverlap classes.now) }
{
    for k in 0..classes.len() {
        let (earlier, _) = classes.split_at(k);
        if overlaps(_places, &classes[k], earlier) {
            return Some(k);
        }
    }
    None
}

/// Whether the class isn't disjoint from one of the earlier ones.
fn overlaps(_places: usize, class: &Branch, earlier: &[Branch]) -> bool
    requires size { HasSize _places class.now }
    requires sizes { All (HasSize _places) earlier.now }
    ensures some { IsTrue result → OverlapsOne earlier.now class.now }
    ensures none { result ≡ false → All (λ one. AreDisjoint one class.now) earlier.now }
{
    for one in earlier {
        if !are_disjoint(_places, one, class) {
            return true;
        }
    }
    false
}

/// Whether some place is contained by one of two classes and avoided by the other.
fn are_disjoint(_places: usize, one: &Branch, other: &Branch) -> bool
    requires one { HasSize _places one.now }
    requires other { HasSize _places other.now }
    ensures { IsTrue result ↔ AreDisjoint one.now other.now }
{
    have_common(&one.contains, &other.avoids) || have_common(&one.avoids, &other.contains)
}

/// Whether some place is in both sets, which are of one size.
pub(crate) fn have_common(one: &PlaceSet, other: &PlaceSet) -> bool
    requires { length one.now ≡ length other.now }
    ensures { IsTrue result ↔ HaveCommon one.now other.now }
{
    let mut from = 0;
    'places: while from < one.size() {
        let Some(p) = one.first_from(from) else {
            return false;
        };
        if other.contains(p) {
            return true;
        }
        from = p + 1;
    }
    false
}

/// Takes out of a set what isn't in another of its size.
fn keep_within(set: &mut PlaceSet, other: &PlaceSet)
    requires { length set.old ≡ length other.now }
    ensures size { length set.new ≡ length set.old }
    ensures within { IsWithinBoth set.old other.now set.new }
{
    let mut from = 0;
    'places: while from < set.size() {
        let Some(p) = set.first_from(from) else {
            return;
        };
        if !other.contains(p) {
            set.remove(p);
        }
        from = p + 1;
    }
}
