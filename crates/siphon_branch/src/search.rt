ghost use Rattle.std.specs.Prelude.{◌≡◌, [], ◌∷◌, ◌+◌, ◌≤◌, All, AllPairs, IfOk, length};
ghost use Rattle.std.specs.Cmp.Lexicographic.{slice_cmp};
ghost use Rattle.std.specs.Ordering.{bool_cmp};
ghost use Rattle.net_values.specs.FlatNets.{net_of};
ghost use Rattle.net_values.specs.TheList.{IsTheList};
ghost use Rattle.closed_sets.specs.MinimalSets.{IsMinimalSet};
ghost use Rattle.siphon_branch.specs.Classes.{AreDisjoint, HasSize, IsConsistent, every_set};
ghost use Rattle.siphon_branch.specs.Searches.{Answers, Begins, DividesAll, GoesOn, IsDivided, IsMinimalOf, IsSearch, searched_net, SplitsMinimal, StartedFromAll};
ghost use Rattle.siphon_branch.specs.Limits.{HasAtMostGrown, PassesLimit};
ghost use Rattle.siphon_branch.specs.Met.{IsListOf};

use crate::branch::{Branch, Branches};
use crate::live_class::LiveClass;
use crate::progress::{AdvanceFault, Progress};
use crate::stack::{live_classes, meet_more};
use net_values::{FlatNet, List, NoMemory, Sets};
use std::alloc::Global;
use std::marker::Model;

/// A search for the siphons that are grown in given classes. The ones that it has met are kept, and the classes
/// in which the others are grown.
#[derive(Drop)]
pub struct Search<'n> {
    alloc: Global,
    net: &'n FlatNet,
    limit: usize,
    origin: Branches,
    classes: List<LiveClass>,
    pending: Branches,
    met: Sets,
    found: Sets,
}

impl<'n> Model for Search<'n> {
    ghost use Rattle.net_values.specs.FlatNets.{net_of};
    ghost use Rattle.siphon_branch.specs.Held.{IsHeldSearch};
    ghost use Rattle.siphon_branch.specs.Searches.{SearchValue};

    ghost Value = { SearchValue };

    ghost view = { λ s. record { lists = s.net.now; origin = s.origin; pending = s.pending; met = s.met; found = s.found; limit = s.limit } };

    ghost invariant = { λ s. IsHeldSearch (net_of s.net.now) s.origin s.classes s.pending s.met s.found s.limit };
}

impl<'n> Search<'n> {
    /// Begins a search for all grown siphons of a net, with a limit on how many are met.
    pub fn start(alloc: Global, net: &'n FlatNet, sets: u32) -> Result<Search<'n>, NoMemory>
        ensures { IfOk result (Begins net.now (every_set (net_of net.now).places ∷ []) sets) }
    {
        let mut branches = Branches::new(alloc);
        branches.push(Branch::all(alloc, net.places())?)?;
        Search::start_from(alloc, net, branches, sets)
    }

    /// Begins a search for the siphons that are grown in classes of which no two have a siphon in common, with a
    /// limit on how many are met.
    pub fn start_from(
        alloc: Global,
        net: &'n FlatNet,
        branches: Branches,
        sets: u32,
    ) -> Result<Search<'n>, NoMemory>
        requires sizes { All (HasSize (net_of net.now).places) branches }
        requires disjoint { AllPairs AreDisjoint branches }
        ensures { IfOk result (Begins net.now branches sets) }
    {
        let begun = live_classes(alloc, net, &branches)?;
        Ok(Search {
            alloc,
            net,
            limit: sets as usize,
            origin: branches,
            classes: begun.classes,
            pending: begun.pending,
            met: Sets::new(alloc),
            found: Sets::new(alloc),
        })
    }

    /// Goes on with the search, and meets at most so many siphons more. It answers `SetLimit` where one siphon more
    /// than the limit was met, which stay; else `Done` where no class is pending, and `More` where one is and
    /// so many siphons were met. After `NoMemory` the search is unchanged.
    pub fn advance(&mut self, leaves: u32) -> Result<Progress, AdvanceFault>
        requires { 1 ≤ leaves }
        ensures on { GoesOn leaves self.old self.new }
        ensures answer { Answers leaves self.old self.new result }
    {
        if self.met.len() > self.limit {
            return Err(AdvanceFault::SetLimit);
        }
        let end = (self.limit + 1).min(self.met.len() + leaves as usize);
        let rest = meet_more(
            self.alloc,
            self.net,
            &self.classes,
            end,
            &mut self.met,
            &mut self.found,
        )?;
        self.classes = rest.classes;
        self.pending = rest.pending;
        if self.met.len() > self.limit {
            Err(AdvanceFault::SetLimit)
        } else if self.pending.len() == 0 {
            Ok(Progress::Done)
        } else {
            Ok(Progress::More)
        }
    }

    /// The minimal siphons among those that were met.
    pub fn found(&self) -> &Sets
        ensures value { result.now ≡ self.now.found }
        ensures minimal { IsListOf (IsMinimalOf (searched_net self.now) self.now.met) self.now.found }
        ensures classes { SplitsMinimal self.now }
    {
        &self.found
    }

    /// The siphons that were met.
    pub fn met(&self) -> &Sets
        ensures value { result.now ≡ self.now.met }
        ensures room { length self.now.met ≤ self.now.limit + 1 }
        ensures divided { IsDivided (searched_net self.now) self.now.origin self.now.pending self.now.met }
        ensures all { StartedFromAll self.now → DividesAll self.now }
    {
        &self.met
    }

    /// The classes that are not yet taken.
    pub fn pending(&self) -> &Branches
        ensures value { result.now ≡ self.now.pending }
        ensures sizes { All (HasSize (searched_net self.now).places) self.now.pending }
        ensures disjoint { AllPairs AreDisjoint self.now.pending }
        ensures consistent { All IsConsistent self.now.pending }
    {
        &self.pending
    }

    /// The classes that the search started from.
    pub fn origin(&self) -> &Branches
        ensures { result.now ≡ self.now.origin }
    {
        &self.origin
    }

    /// The minimal siphons that were met, all that were met, and the classes that are not yet taken, as lists of their
    /// own. It takes no memory.
    pub fn into_parts(self) -> (Sets, Sets, Branches)
        ensures search { IsSearch self.entry }
        ensures found { result.0 ≡ self.entry.found }
        ensures met { result.1 ≡ self.entry.met }
        ensures pending { result.2 ≡ self.entry.pending }
    {
        (self.found, self.met, self.pending)
    }

    /// The siphons that were met.
    pub(crate) fn into_met(self) -> Sets
        ensures value { result ≡ self.entry.met }
        ensures carried { StartedFromAll self.entry → length self.entry.met ≡ self.entry.limit + 1 → PassesLimit (searched_net self.entry) self.entry.limit result }
    {
        self.met
    }

    /// The minimal siphons that were found, in ascending order.
    pub(crate) fn into_list(self) -> Sets
        ensures list { StartedFromAll self.entry → self.entry.pending ≡ [] → IsTheList (slice_cmp bool_cmp) (IsMinimalSet (searched_net self.entry)) result }
        ensures few { StartedFromAll self.entry → self.entry.pending ≡ [] → length self.entry.met ≤ self.entry.limit → HasAtMostGrown (searched_net self.entry) self.entry.limit }
    {
        let mut found = self.found;
        found.sort();
        found
    }
}
