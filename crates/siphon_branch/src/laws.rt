ghost use Rattle.std.specs.Prelude.{ℕ, List, Bool};
ghost use Rattle.net_values.specs.Net.{Net};
ghost use Rattle.siphon_branch.specs.Laws.{FewAreNotMany, FewOrMany, HasLists, LiveClassesHaveGrown, MinimalAreGrown, TrapListsReversed};

/// A class whose greatest siphon is nonempty and contains what it must has a siphon that is grown in it.
pub fn live_classes_have_a_grown_siphon()
    ensures { (net : Net) → LiveClassesHaveGrown net }
{}

/// Every minimal siphon is grown.
pub fn minimal_siphons_are_grown()
    ensures { (net : Net) → MinimalAreGrown net }
{}

/// A net with at most so many grown siphons or traps has not more.
pub fn few_are_not_many()
    ensures { (net : Net) (limit : ℕ) (carried : List (List Bool)) → FewAreNotMany net limit carried }
{}

/// A net has at most so many grown siphons or more, and likewise traps.
pub fn few_or_many()
    ensures { (net : Net) (limit : ℕ) → FewOrMany net limit }
{}

/// A net has the list of its minimal siphons, and that of its minimal traps.
pub fn minimal_siphons_have_a_list()
    ensures { (net : Net) → HasLists net }
{}

/// What is said of the minimal and the grown traps of a net is what is said of the siphons of the net with every
/// arc turned round.
pub fn trap_lists_are_siphon_lists_reversed()
    ensures { (net : Net) (limit : ℕ) (list : List (List Bool)) → TrapListsReversed net limit list }
{}
