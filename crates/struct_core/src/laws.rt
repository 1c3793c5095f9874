ghost use Rattle.struct_core.specs.Completeness.{QuietRunsComplete};
ghost use Rattle.struct_core.specs.Determined.{HasOneOutcome, HasSomeOutcome};
ghost use Rattle.struct_core.specs.Laws.{PrintSemiflows, PrintClosedSets, PrintBoundsThatHold, PrintLeastBounds, ProvedNetsNeverDie, ProvedNetsLive, AcceptedCertificatesAreTrue, MadeCertificatesAreAccepted, CanonStays, SamplesAreInTheProfile};
ghost use Rattle.struct_core.specs.Words.{HasOneMeaning};

/// Every vector that `places` and `transitions` print is a semiflow (Colom and Silva 1991).
pub fn printed_vectors_are_semiflows()
    ensures { PrintSemiflows }
{}

/// Every set that `siphons` and `traps` print is a siphon, or a trap (Murata 1989).
pub fn printed_sets_are_closed()
    ensures { PrintClosedSets }
{}

/// At every reachable marking a place has at most as many tokens as `bounds` prints for it (Murata 1989).
pub fn printed_bounds_hold()
    ensures { PrintBoundsThatHold }
{}

/// `bounds` prints for each place the least bound that a semiflow of places gives, and none where none covers
/// it.
pub fn printed_bounds_are_least()
    ensures { PrintLeastBounds }
{}

/// Where `commoner` prints `deadlock-free proved`, no reachable marking is dead (Hack 1972, Murata 1989).
pub fn deadlock_free_is_proved()
    ensures { ProvedNetsNeverDie }
{}

/// Where `live` prints `live proved`, each transition can be fired again after some further firings, whatever
/// marking has been reached (Hack 1972, Murata 1989).
pub fn proved_nets_are_live()
    ensures { ProvedNetsLive }
{}

/// Where `verify` accepts a certificate, what it claims is true of the net, and where it also prints
/// `deadlock-free proved`, no reachable marking is dead (Lautenbach 1975, Hack 1972, Murata 1989).
pub fn accepted_certificates_are_true()
    ensures { AcceptedCertificatesAreTrue }
{}

/// What `cert-bounds` and `cert-commoner` write of a net `verify` accepts of it.
pub fn made_certificates_are_accepted()
    ensures { MadeCertificatesAreAccepted }
{}

/// `canon` of a canonical text writes that text and does nothing else, where the document breaks no rule and has
/// the net that is asked for.
pub fn canonical_text_stays()
    ensures { CanonStays }
{}

/// An order has at most one status for an input, and one text but for the tree of a certificate for Commoner's
/// condition and the run of `resume`.
pub fn one_outcome()
    ensures { HasOneOutcome }
{}

/// Every input has an outcome; for the semiflows, the sub-semiflows, the bounds and their certificate, where it is decided
/// that every step of the elimination passes or that one fails first.
pub fn some_outcome()
    ensures { HasSomeOutcome }
{}

/// A run without faults, on a document of the profile whose chosen net stays within the limits of the task, for `verify`
/// with a certificate that the net accepts, for `resume` with pending classes of the net, and for `replay` with a firing
/// list that fires within range, writes the
/// defined text, or memory was refused.
pub fn quiet_runs_complete()
    ensures { QuietRunsComplete }
{}

/// A list of words has at most one meaning.
pub fn one_meaning()
    ensures { HasOneMeaning }
{}

/// The canonical text of each sample net spells it, and the net breaks no rule.
pub fn samples_are_in_the_profile()
    ensures { SamplesAreInTheProfile }
{}
