ghost use Rattle.net_values.specs.Net.{Net};
ghost use Rattle.incidence.specs.Invariance.{WeightedTokensStay, SemiflowsBoundPlaces};

/// The tokens of a marking, weighted by a semiflow of places, stay the same along every firing list
/// (Lautenbach 1975, Murata 1989).
pub fn weighted_tokens_stay()
    ensures { (net : Net) → WeightedTokensStay net }
{}

/// A semiflow of places with `y(p) > 0` bounds the place: at every reachable marking `M(p)` times `y(p)`
/// is at most the weighted tokens of the initial marking (Murata 1989).
pub fn semiflows_bound_places()
    ensures { (net : Net) → SemiflowsBoundPlaces net }
{}
