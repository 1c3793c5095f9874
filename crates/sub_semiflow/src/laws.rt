ghost use Rattle.std.specs.Prelude.{ℕ, List};
ghost use Rattle.net_values.specs.Net.{Net};
ghost use Rattle.sub_semiflow.specs.SubSemiflows.{SubSemiflowsBoundPlaces, CutsAreExtremal};

/// A sub-semiflow with `y(p) > 0` bounds the place whatever the initial marking is: at every marking that is
/// reachable from it `M(p)` times `y(p)` is at most its weighted tokens (Memmi and Roucairol 1980, Murata
/// 1989).
pub fn sub_semiflows_bound_places()
    ensures { (net : Net) → SubSemiflowsBoundPlaces net }
{}

/// The extremal sub-semiflows of a net are the semiflows of minimal support of its extended incidence, cut
/// to their place entries, in the same order.
pub fn cuts_are_extremal()
    ensures { (net : Net) → CutsAreExtremal net }
{}
