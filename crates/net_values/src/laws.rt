ghost use Rattle.std.specs.Cmp.Lexicographic.{slice_cmp};
ghost use Rattle.std.specs.Ordering.{nat_cmp, bool_cmp};
ghost use Rattle.net_values.specs.TheList.{MembersMakeTheList};

/// Strictly ascending lists of vectors, or of place sets, with the same members are equal. So there is
/// one such list of the vectors or sets with a property.
pub fn strictly_ascending_lists_are_one()
    ensures vectors { MembersMakeTheList (slice_cmp nat_cmp) }
    ensures sets { MembersMakeTheList (slice_cmp bool_cmp) }
{}
