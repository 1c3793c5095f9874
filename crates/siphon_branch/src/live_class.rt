ghost use Rattle.std.specs.Prelude.{◌≡◌, ◌<◌, ◌↔◌, All, IfOk, IsTrue, OnOk, MatchBool, MatchOption, length, not, slice_set, true};
ghost use Rattle.net_values.specs.FlatNets.{net_of};
ghost use Rattle.net_values.specs.PlaceSets.{has};
ghost use Rattle.closed_sets.specs.Growth.{IsFirst, is_input_in};
ghost use Rattle.siphon_branch.specs.Classes.{HasSize};
ghost use Rattle.siphon_branch.specs.LiveClasses.{branch_of, IsDead, IsHeld, IsLiveOf, IsNextPlace, IsWhole, part_without};
ghost use Rattle.siphon_branch.specs.Held.{HasLoneNext, HasNoInput, HasSizesOf, KeepsLive, part_left};

use crate::branch::Branch;
use crate::scratch::{Scratch, copy_to_spare};
use closed_sets::{Fallen, add_place, find_open, greatest_siphon, keeps_without, lone_input};
use net_values::{FlatNet, List, NoMemory, PlaceSet};
use std::alloc::Global;

/// A class that has a siphon: the greatest siphon that avoids the one set has all places of the other. The
/// greatest siphon is kept, and the transitions that are open at the contained set.
#[derive(Drop)]
pub struct LiveClass {
    pub contains: PlaceSet,
    pub avoids: PlaceSet,
    pub greatest: PlaceSet,
    pub opens: PlaceSet,
}

impl LiveClass {
    /// The class with what is kept of it, where it is live.
    pub fn of(alloc: Global, net: &FlatNet, class: &Branch) -> Result<Option<LiveClass>, NoMemory>
        requires { HasSize (net_of net.now).places class.now }
        ensures { IfOk result (λ live. MatchOption live (IsDead (net_of net.now) class.now) (IsLiveOf (net_of net.now) class.now)) }
    {
        let mut greatest = class.avoids.complement(alloc)?;
        greatest_siphon(net, &mut greatest);
        if greatest.is_empty() || !class.contains.is_subset(&greatest) {
            return Ok(None);
        }
        let mut opens = PlaceSet::new(alloc, net.transitions())?;
        find_open(net, &class.contains, &mut opens);
        Ok(Some(LiveClass {
            contains: class.contains.copy(alloc)?,
            avoids: class.avoids.copy(alloc)?,
            greatest,
            opens,
        }))
    }

    /// An equal class.
    pub(crate) fn copy(&self, alloc: Global) -> Result<LiveClass, NoMemory>
        ensures { IfOk result (λ class. class ≡ self.now) }
    {
        Ok(LiveClass {
            contains: self.contains.copy(alloc)?,
            avoids: self.avoids.copy(alloc)?,
            greatest: self.greatest.copy(alloc)?,
            opens: self.opens.copy(alloc)?,
        })
    }

    /// Makes this class equal to another of the same sizes. It takes no memory.
    pub(crate) fn copy_over(&mut self, other: &LiveClass)
        requires { HasSizesOf other.now self.old }
        ensures { self.new ≡ other.now }
    {
        self.contains.copy_from(&other.contains);
        self.avoids.copy_from(&other.avoids);
        self.greatest.copy_from(&other.greatest);
        self.opens.copy_from(&other.opens);
    }

    /// The class alone.
    pub(crate) fn branch(&self, alloc: Global) -> Result<Branch, NoMemory>
        ensures { IfOk result (λ class. class ≡ branch_of self.now) }
    {
        Ok(Branch {
            contains: self.contains.copy(alloc)?,
            avoids: self.avoids.copy(alloc)?,
        })
    }

    /// The place at which the class is parted: where nothing is contained, the lowest of the greatest siphon, else
    /// the lowest input place in it of the lowest open transition. There is none where the contained set is a
    /// siphon.
    pub fn next_place(&self, net: &FlatNet) -> Option<usize>
        requires { IsHeld (net_of net.now) self.now }
        ensures { MatchOption result (IsWhole (net_of net.now) (has self.now.contains))
            (IsNextPlace (net_of net.now) (has self.now.contains) (has self.now.greatest)) }
    {
        if self.contains.is_empty() {
            return self.greatest.first_from(0);
        }
        let Some(t) = self.opens.first_from(0) else {
            return None;
        };
        first_input(net, &self.greatest, t)
    }

    /// The part of the class without place `p`, where it is live. What the scratch set and the scratch list hold is
    /// lost.
    pub fn without(
        &self,
        alloc: Global,
        net: &FlatNet,
        p: usize,
        left: &mut PlaceSet,
        fallen: &mut Fallen,
    ) -> Result<Option<LiveClass>, NoMemory>
        requires held { IsHeld (net_of net.now) self.now }
        requires next { IsNextPlace (net_of net.now) (has self.now.contains) (has self.now.greatest) p }
        requires left { length left.old ≡ (net_of net.now).places }
        ensures left { length left.new ≡ length left.old }
        ensures part { IfOk result (λ part. MatchOption part (IsDead (net_of net.now) (part_without (branch_of self.now) p))
            (IsLiveOf (net_of net.now) (part_without (branch_of self.now) p))) }
    {
        if !self.is_live_without(net, p, left, fallen) {
            return Ok(None);
        }
        let mut part = self.copy(alloc)?;
        part.leave_out(p, left);
        Ok(Some(part))
    }

    /// Whether the part of the class without place `p` is live. Its greatest siphon is left in the scratch set then.
    /// What the scratch list holds is lost.
    fn is_live_without(
        &self,
        net: &FlatNet,
        p: usize,
        left: &mut PlaceSet,
        fallen: &mut Fallen,
    ) -> bool
        requires held { IsHeld (net_of net.now) self.now }
        requires next { IsNextPlace (net_of net.now) (has self.now.contains) (has self.now.greatest) p }
        requires left { length left.old ≡ (net_of net.now).places }
        ensures left { length left.new ≡ length left.old }
        ensures part { MatchBool result (IsHeld (net_of net.now) (part_left self.now p left.new))
            (IsDead (net_of net.now) (part_without (branch_of self.now) p)) }
    {
        left.copy_from(&self.greatest);
        if !keeps_without(net, left, p, &self.contains, fallen) {
            return false;
        }
        !left.is_empty()
    }

    /// Goes on to the part of the class without place `p`, whose greatest siphon is given.
    fn leave_out(&mut self, p: usize, greatest: &PlaceSet)
        requires place { p < length self.old.avoids }
        requires greatest { length self.old.greatest ≡ length greatest.now }
        ensures { self.new ≡ part_left self.old p greatest.now }
    {
        self.avoids.insert(p);
        self.greatest.copy_from(greatest);
    }

    /// Appends the part of the class without place `p`, where it is live, written over a spare class where there is one.
    /// Where each siphon of the class has the place, the part isn't looked at.
    pub(crate) fn keep_without(
        &self,
        alloc: Global,
        net: &FlatNet,
        p: usize,
        classes: &mut List<LiveClass>,
        scratch: &mut Scratch,
    ) -> Result<(), NoMemory>
        requires held { IsHeld (net_of net.now) self.now }
        requires next { IsNextPlace (net_of net.now) (has self.now.contains) (has self.now.greatest) p }
        requires left { length scratch.old.left ≡ (net_of net.now).places }
        requires spares { All (HasSizesOf self.now) scratch.old.spares }
        ensures left { length scratch.new.left ≡ length scratch.old.left }
        ensures needed { scratch.new.needed ≡ scratch.old.needed }
        ensures spares { All (HasSizesOf self.now) scratch.new.spares }
        ensures kept { OnOk result (KeepsLive (net_of net.now) (part_without (branch_of self.now) p) classes.old classes.new) }
    {
        if self.needs_next(net) {
            return Ok(());
        }
        let Scratch {
            left,
            fallen,
            spares,
            ..
        } = scratch;
        if !self.is_live_without(net, p, left, fallen) {
            return Ok(());
        }
        let mut part = copy_to_spare(alloc, self, spares)?;
        part.leave_out(p, left);
        classes.push(part)
    }

    /// Whether the lowest open transition has no other input place in the greatest siphon than the next place. Then
    /// each siphon of the class has that place, and no part without it is live.
    fn needs_next(&self, net: &FlatNet) -> bool
        requires { IsHeld (net_of net.now) self.now }
        ensures { IsTrue result ↔ HasLoneNext (net_of net.now) self.now.contains self.now.greatest }
    {
        let Some(t) = self.opens.first_from(0) else {
            return false;
        };
        lone_input(net, &self.greatest, t).is_some()
    }

    /// Goes on to the part of the class with place `p`.
    pub fn take(&mut self, net: &FlatNet, p: usize)
        requires held { IsHeld (net_of net.now) self.old }
        requires next { IsNextPlace (net_of net.now) (has self.old.contains) (has self.old.greatest) p }
        ensures contains { self.new.contains ≡ slice_set self.old.contains p true }
        ensures avoids { self.new.avoids ≡ self.old.avoids }
        ensures held { IsHeld (net_of net.now) self.new }
    {
        add_place(net, &mut self.contains, &mut self.opens, p);
    }
}

/// The lowest input place of transition `t` in the set.
fn first_input(net: &FlatNet, set: &PlaceSet, t: usize) -> Option<usize>
    requires size { length set.now ≡ (net_of net.now).places }
    requires transition { t < (net_of net.now).transitions }
    ensures { MatchOption result (HasNoInput (net_of net.now) (has set.now) t)
        (IsFirst (net_of net.now).places (is_input_in (net_of net.now) (has set.now) t)) }
{
    let inputs = net.inputs(t);
    for entry in inputs {
        if set.contains(entry.place) {
            return Some(entry.place);
        }
    }
    None
}
