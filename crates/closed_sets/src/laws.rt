ghost use Rattle.std.specs.Prelude.{◌||◌, ℕ, Bool};
ghost use Rattle.net_values.specs.Net.{Net};
ghost use Rattle.closed_sets.specs.ClosedSets.{EachSetHasGreatest, IsSiphon, OnePlaceLess};
ghost use Rattle.closed_sets.specs.MinimalSets.{MinimalSetsCover};
ghost use Rattle.closed_sets.specs.Commoner.{CommonerExcludesDead, DeadEmptiesASiphon, EmptySiphonsStayEmpty, TrapsStayMarked};
ghost use Rattle.closed_sets.specs.Growth.{TrapsAreSiphonsReversed};

/// The union of two siphons is a siphon (Murata 1989).
pub fn unions_of_siphons_are_siphons()
    ensures { (net : Net) (S R : ℕ → Bool) → IsSiphon net S → IsSiphon net R → IsSiphon net (λ p. S p || R p) }
{}

/// Each set has a greatest siphon in it.
pub fn each_set_has_a_greatest_siphon()
    ensures { (net : Net) → EachSetHasGreatest net }
{}

/// The greatest siphon in a set without one place more is the greatest one in what the place leaves of the
/// greatest siphon of the set.
pub fn one_place_less_is_left_of_the_greatest()
    ensures { (net : Net) → OnePlaceLess net }
{}

/// The traps of a net are the siphons of the net with every arc turned round, and so are the minimal and the
/// grown ones.
pub fn traps_are_siphons_reversed()
    ensures { (net : Net) (S : ℕ → Bool) → TrapsAreSiphonsReversed net S }
{}

/// The list of all minimal siphons has one in every nonempty siphon.
pub fn minimal_siphons_are_in_all()
    ensures { (net : Net) → MinimalSetsCover net }
{}

/// A siphon without a token stays so along any firing list (Murata 1989).
pub fn empty_siphons_stay_empty()
    ensures { (net : Net) → EmptySiphonsStayEmpty net }
{}

/// A trap that is marked stays marked along any firing list (Murata 1989).
pub fn traps_stay_marked()
    ensures { (net : Net) → TrapsStayMarked net }
{}

/// At a dead marking of an ordinary net with a transition the empty places are a nonempty siphon
/// (Murata 1989).
pub fn dead_markings_empty_a_siphon()
    ensures { (net : Net) → DeadEmptiesASiphon net }
{}

/// Commoner's condition excludes every dead reachable marking of an ordinary net with a transition
/// (Murata 1989).
pub fn commoner_excludes_dead_markings()
    ensures { (net : Net) → CommonerExcludesDead net }
{}
