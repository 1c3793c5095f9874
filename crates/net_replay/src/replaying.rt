ghost use Rattle.std.specs.Prelude.{◌≡◌, ◌<◌, ◌↔◌, ℕ, All, IfOk, IfErr, OnOk, IsTrue, length, slice_index};
ghost use Rattle.net_values.specs.FlatNets.{net_of, initial_marking};
ghost use Rattle.net_replay.specs.Failures.{ExplainsFailure, at_member};
ghost use Rattle.net_replay.specs.Replays.{FiresTo, IsCountVector, IsReplay, Returns};

use crate::firings::Firings;
use crate::replayed::{Replay, ReplayFault};
use net_values::{FireFault, FlatNet, Marking, NoMemory, Vector};
use std::alloc::Global;

/// Fires the transitions of a list one after the other from the initial marking (ISO/IEC 15909-1). `NotEnabled` and `WideMarking` tell the first member that is refused, exactly as firing it is: the
/// lowest place that has fewer tokens than it takes, else the lowest that would have more than 2^127 - 1.
pub fn replay(alloc: Global, net: &FlatNet, list: &Firings) -> Result<Replay, ReplayFault>
    requires { All (λ t. t < (net_of net.now).transitions) list.now }
    ensures replayed { IfOk result (IsReplay (net_of net.now) list.now) }
    ensures fault { IfErr result (ExplainsFailure (net_of net.now) list.now) }
{
    let mut marking = Marking::initial(alloc, net)?;
    fire_all(net, &mut marking, list)?;
    let counts = count_firings(alloc, net, list)?;
    let semiflow = returns(net, list, &marking);
    Ok(Replay {
        marking,
        counts,
        semiflow,
    })
}

/// Fires the members of a list from the initial marking.
fn fire_all(net: &FlatNet, marking: &mut Marking, list: &Firings) -> Result<(), ReplayFault>
    requires initial { marking.old ≡ initial_marking net.now }
    requires transitions { All (λ t. t < (net_of net.now).transitions) list.now }
    ensures ok { OnOk result (FiresTo (net_of net.now) (net_of net.now).initial list.now (slice_index marking.new)) }
    ensures fault { IfErr result (ExplainsFailure (net_of net.now) list.now) }
    ensures places { OnOk result (length marking.new ≡ (net_of net.now).places) }
{
    for index in 0..list.len() {
        match net.fire(marking, list.get(index) as usize) {
            Ok(()) => {}
            Err(fault) => return Err(at_member(index, fault)),
        }
    }
    Ok(())
}

/// The fault of a member that is refused.
fn at_member(index: usize, fault: FireFault) -> ReplayFault
    ensures { result ≡ at_member index fault }
{
    match fault {
        FireFault::NotEnabled(p) => ReplayFault::NotEnabled(index, p),
        FireFault::WideMarking(p) => ReplayFault::WideMarking(index, p),
    }
}

/// How often each transition of a net occurs in a list.
fn count_firings(alloc: Global, net: &FlatNet, list: &Firings) -> Result<Vector, NoMemory>
    requires { All (λ t. t < (net_of net.now).transitions) list.now }
    ensures { IfOk result (IsCountVector (net_of net.now) list.now) }
{
    let mut counts = Vector::zeros(alloc, net.transitions())?;
    for t in list.as_slice() {
        let count = counts.get(*t as usize);
        counts.set(*t as usize, count + 1);
    }
    Ok(counts)
}

/// Whether something fired and the marking that was reached is the initial one.
fn returns(net: &FlatNet, list: &Firings, marking: &Marking) -> bool
    requires { length marking.now ≡ (net_of net.now).places }
    ensures { IsTrue result ↔ Returns (net_of net.now) list.now (slice_index marking.now) }
{
    list.len() > 0 && is_initial(net, marking)
}

/// Whether a marking is the initial one.
fn is_initial(net: &FlatNet, marking: &Marking) -> bool
    requires { length marking.now ≡ (net_of net.now).places }
    ensures { IsTrue result ↔ ((p : ℕ) → p < (net_of net.now).places → slice_index marking.now p ≡ (net_of net.now).initial p) }
{
    let counts = marking.as_slice();
    for p in 0..net.places() {
        if counts[p] != u128::from(net.initial(p)) {
            return false;
        }
    }
    true
}
