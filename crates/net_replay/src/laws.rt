ghost use Rattle.std.specs.Prelude.{ℕ, List};
ghost use Rattle.net_values.specs.Net.{Net};
ghost use Rattle.net_replay.specs.Laws.{AFiringListOrABadLine, OneFiringList, AReplayOrAFailure, OneReplay};

/// Bytes are a firing list of a net or have a bad line.
pub fn a_firing_list_or_a_bad_line()
    ensures { (net : Net) (ids : ℕ → List ℕ) (bytes : List ℕ) → AFiringListOrABadLine net ids bytes }
{}

/// Bytes are one firing list or have one bad line.
pub fn one_firing_list()
    ensures { (net : Net) (ids : ℕ → List ℕ) (bytes : List ℕ) → OneFiringList net ids bytes }
{}

/// A firing list has a replay, or a member is refused.
pub fn a_replay_or_a_failure()
    ensures { (net : Net) (ts : List ℕ) → AReplayOrAFailure net ts }
{}

/// A firing list has one replay or one member that is refused. So it has a replay exactly where it fires
/// within range.
pub fn one_replay()
    ensures { (net : Net) (ts : List ℕ) → OneReplay net ts }
{}
