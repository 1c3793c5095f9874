ghost use Rattle.std.specs.Prelude.{◌≡◌, ℕ, MatchBool, IfErr, OnOk, true, ◌↔◌, IsTrue};
ghost use Rattle.net_values.specs.FlatNets.{net_of};
ghost use Rattle.certificates.specs.Conditions.{IsAccepted, IsFalseLine, TreeLineHolds, after_line};
ghost use Rattle.certificates.specs.WellFormed.{IsTree};
ghost use Rattle.certificates.specs.declared.certificate.Certificate.{Certificate};
ghost use Rattle.cert_check.specs.KnownTraps.{AreMarkedTraps, HasRoomFor};
ghost use Rattle.cert_check.specs.Walks.{HasSizes, IsAt, IsLeft, class_now, pending_now};

use crate::known_traps::KnownTraps;
use crate::line_checks::Rejected;
use crate::walk::Walk;
use crate::walk_moves::{advance, begin, is_empty_class, split};
use certificates::{TreeLine, TreeLines};
use net_values::FlatNet;

/// Checks the lines of a tree, each at its class.
pub fn check_tree(
    net: &FlatNet,
    tree: &TreeLines,
    walk: &mut Walk,
    traps: &mut KnownTraps,
) -> Result<(), Rejected>
    requires tree { IsTree tree.now }
    requires sizes { HasSizes (net_of net.now).places walk.old }
    requires room { HasRoomFor (net_of net.now).places traps.old }
    ensures accepted { OnOk result (IsAccepted (net_of net.now) (Certificate.Commoner tree.now)) }
    ensures rejected { IfErr result (λ fault. IsFalseLine (net_of net.now) (Certificate.Commoner tree.now) fault.0) }
    ensures sizes { HasSizes (net_of net.now).places walk.new }
    ensures room { HasRoomFor (net_of net.now).places traps.new }
{
    let lines = tree.as_slice();
    begin(net, walk);
    traps.forget();
    for k in 0..lines.len() {
        if !step(net, lines[k], walk, traps) {
            return Err(Rejected(k as u64 + 2));
        }
    }
    Ok(())
}

/// Whether a line's condition holds at the class of the walk, which then goes on to the class of the next line.
fn step(net: &FlatNet, line: TreeLine, walk: &mut Walk, traps: &mut KnownTraps) -> bool
    requires at { IsAt (net_of net.now) walk.old }
    requires room { HasRoomFor (net_of net.now).places traps.old }
    requires traps { AreMarkedTraps (net_of net.now) traps.old }
    ensures exact { MatchBool result
        (IsLeft (net_of net.now) walk.new (after_line line (class_now walk.old) (pending_now walk.old)))
        (TreeLineHolds (net_of net.now) (class_now walk.old) line → ⊥) }
    ensures holds { result ≡ true → TreeLineHolds (net_of net.now) (class_now walk.old) line }
    ensures sizes { HasSizes (net_of net.now).places walk.new }
    ensures room { HasRoomFor (net_of net.now).places traps.new }
    ensures traps { AreMarkedTraps (net_of net.now) traps.new }
{
    match line {
        TreeLine::Split(place) => split(net, walk, place),
        TreeLine::Empty => pass(net, is_empty_class(net, walk), walk),
        TreeLine::Trap => pass(net, contains_marked_trap(net, walk, traps), walk),
    }
}

/// Whether there is a marked trap in the set that the siphons of the class contain, which has a place where there is a
/// split above.
fn contains_marked_trap(net: &FlatNet, walk: &Walk, traps: &mut KnownTraps) -> bool
    requires at { IsAt (net_of net.now) walk.now }
    requires room { HasRoomFor (net_of net.now).places traps.old }
    requires traps { AreMarkedTraps (net_of net.now) traps.old }
    ensures exact { IsTrue result ↔ TreeLineHolds (net_of net.now) (class_now walk.now) TreeLine.Trap }
    ensures room { HasRoomFor (net_of net.now).places traps.new }
    ensures traps { AreMarkedTraps (net_of net.now) traps.new }
{
    if walk.depth == 0 {
        return false;
    }
    let place = walk.levels[walk.depth - 1].place;
    traps.has_one_in(net, &walk.contained, &walk.leaving, &walk.unmarked, place)
}

/// Goes on where a leaf's condition holds. Tells whether it does.
fn pass(net: &FlatNet, holds: bool, walk: &mut Walk) -> bool
    requires { IsAt (net_of net.now) walk.old }
    ensures answer { result ≡ holds }
    ensures left { result ≡ true → IsLeft (net_of net.now) walk.new (pending_now walk.old) }
    ensures sizes { HasSizes (net_of net.now).places walk.new }
{
    if holds {
        advance(net, walk);
    }
    holds
}
