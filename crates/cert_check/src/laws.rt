ghost use Rattle.certificates.specs.Laws.{AcceptedOrAFalseLine, OneFalseLine, AcceptedClaimsAreTrue};

/// A well-formed certificate is accepted by a net, or has a first line whose condition is false.
pub fn accepted_or_a_false_line()
    ensures { AcceptedOrAFalseLine }
{}

/// The first line whose condition is false is one.
pub fn one_false_line()
    ensures { OneFalseLine }
{}

/// What an accepted certificate claims is true of the net: bounds by semiflows (Lautenbach 1975, Murata 1989),
/// a siphon without a marked trap, or Commoner's condition, which excludes dead markings (Hack 1972).
pub fn accepted_claims_are_true()
    ensures { AcceptedClaimsAreTrue }
{}
