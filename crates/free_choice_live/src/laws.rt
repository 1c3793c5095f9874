ghost use Rattle.net_values.specs.Net.{Net};
ghost use Rattle.free_choice_live.specs.Live.{CommonerGivesLiveness, LiveNetsNeverDie};

/// In a free-choice net Commoner's condition implies that the net is live (Hack 1972).
pub fn commoner_gives_liveness()
    ensures { (net : Net) → CommonerGivesLiveness net }
{}

/// In a live net with a transition no reachable marking is dead.
pub fn live_nets_never_die()
    ensures { (net : Net) → LiveNetsNeverDie net }
{}
