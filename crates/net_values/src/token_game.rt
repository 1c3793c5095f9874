use crate::flat_net::FlatNet;
use crate::limits::MAX_TOKENS;
use crate::marking::Marking;

/// Why a transition doesn't fire: a place has fewer tokens than the transition takes, or would have
/// more than 2^127 - 1. The lowest such place is told.
#[derive(Clone, Copy, Debug, PartialEq, Eq)]
pub enum FireFault {
    NotEnabled(usize),
    WideMarking(usize),
}

impl FlatNet {
    ghost use Rattle.std.specs.Prelude.{◌≡◌, ◌<◌, IfErr, OnErr, OnOk, MatchOption};
    ghost use Rattle.std.specs.Prelude.{length, slice_index};
    ghost use Rattle.net_values.specs.FlatNets.{net_of};
    ghost use Rattle.net_values.specs.TokenGame.{IsEnabled, Lacks, Overflows, NoneOverflows};
    ghost use Rattle.net_values.specs.TokenGame.{IsLowest, Fires, FailsToFire};

    /// Fires transition `t` at a marking (ISO/IEC 15909-1). A refusal leaves the marking unchanged:
    /// first `NotEnabled` with the lowest place that has fewer tokens than `t` takes, then
    /// `WideMarking` with the lowest place that would have more than 2^127 - 1. It takes no memory.
    pub fn fire(&self, marking: &mut Marking, t: usize) -> Result<(), FireFault>
        requires places { length marking.old ≡ (net_of self.now).places }
        requires transition { t < (net_of self.now).transitions }
        ensures ok { OnOk result
            (Fires (net_of self.now) (slice_index marking.old) t (slice_index marking.new)) }
        ensures fault { IfErr result (FailsToFire (net_of self.now) (slice_index marking.old) t) }
        ensures unchanged { OnErr result (marking.new ≡ marking.old) }
        ensures places { length marking.new ≡ length marking.old }
    {
        if let Some(p) = self.lacking_place(marking, t) {
            return Err(FireFault::NotEnabled(p));
        }
        if let Some(p) = self.overflowing_place(marking, t) {
            return Err(FireFault::WideMarking(p));
        }
        marking.take(self.inputs(t));
        marking.put(self.outputs(t));
        Ok(())
    }

    /// The lowest place that has fewer tokens than transition `t` takes.
    fn lacking_place(&self, marking: &Marking, t: usize) -> Option<usize>
        requires places { length marking.now ≡ (net_of self.now).places }
        requires transition { t < (net_of self.now).transitions }
        ensures { MatchOption result (IsEnabled (net_of self.now) (slice_index marking.now) t)
            (IsLowest (net_of self.now) (Lacks (net_of self.now) (slice_index marking.now) t)) }
    {
        let counts = marking.as_slice();
        let inputs = self.inputs(t);
        for entry in inputs {
            if counts[entry.place] < entry.weight {
                return Some(entry.place);
            }
        }
        None
    }

    /// The lowest place that would have too many tokens after transition `t`, which is enabled.
    fn overflowing_place(&self, marking: &Marking, t: usize) -> Option<usize>
        requires places { length marking.now ≡ (net_of self.now).places }
        requires transition { t < (net_of self.now).transitions }
        requires enabled { IsEnabled (net_of self.now) (slice_index marking.now) t }
        ensures { MatchOption result (NoneOverflows (net_of self.now) (slice_index marking.now) t)
            (IsLowest (net_of self.now) (Overflows (net_of self.now) (slice_index marking.now) t)) }
    {
        let counts = marking.as_slice();
        let outputs = self.outputs(t);
        for entry in outputs {
            let left = counts[entry.place] - self.pre(entry.place, t);
            if left + entry.weight > MAX_TOKENS {
                return Some(entry.place);
            }
        }
        None
    }
}
