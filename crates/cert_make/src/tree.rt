ghost use Rattle.std.specs.Prelude.{◌≡◌, [], ◌∷◌, ◌++◌, ◌+◌, ◌<◌, ◌≤◌, IfOk, OnOk, length};
ghost use Rattle.net_values.specs.FlatNets.{net_of};
ghost use Rattle.net_values.specs.PlaceSets.{has};
ghost use Rattle.net_values.specs.declared.limits.TheConstants.{MAX_PLACES};
ghost use Rattle.closed_sets.specs.Commoner.{MeetsCommoner};
ghost use Rattle.siphon_branch.specs.LiveClasses.{branch_of, IsNextPlace};
ghost use Rattle.cert_make.specs.Trees.{HasNothing, IsUnderway, places_left};

use certificates::{TreeLine, TreeLines};
use closed_sets::Fallen;
use net_values::{FlatNet, List, NoMemory, PlaceSet, Sets};
use siphon_branch::{Branch, LiveClass};
use std::alloc::Global;

/// A tree while it is made: the classes that a tree is still to be made for, the last one first, the lines so
/// far, and the siphons that were met. The others are scratch.
#[derive(Drop)]
pub(crate) struct Tree {
    pub(crate) classes: List<LiveClass>,
    pub(crate) lines: TreeLines,
    pub(crate) met: Sets,
    left: PlaceSet,
    fallen: Fallen,
}

impl Tree {
    /// The tree for all siphons begins.
    pub(crate) fn start(alloc: Global, net: &FlatNet) -> Result<Tree, NoMemory>
        ensures underway { IfOk result (λ tree. IsUnderway (net_of net.now) tree.classes tree.lines tree.met) }
        ensures met { IfOk result (λ tree. tree.met ≡ []) }
        ensures left { IfOk result (λ tree. length tree.left ≡ (net_of net.now).places) }
        ensures places { OnOk result ((net_of net.now).places ≤ MAX_PLACES) }
    {
        let mut tree = Tree {
            classes: List::new(alloc),
            lines: TreeLines::new(alloc),
            met: Sets::new(alloc),
            left: PlaceSet::new(alloc, net.places())?,
            fallen: Fallen::none(),
        };
        tree.begin(alloc, net)?;
        Ok(tree)
    }

    /// The class of all siphons comes first, where it is live; else its tree is the line `empty`.
    fn begin(&mut self, alloc: Global, net: &FlatNet) -> Result<(), NoMemory>
        requires nothing { HasNothing self.old }
        ensures underway { OnOk result (IsUnderway (net_of net.now) self.new.classes self.new.lines self.new.met) }
        ensures met { self.new.met ≡ self.old.met }
        ensures left { self.new.left ≡ self.old.left }
    {
        let all = Branch::all(alloc, net.places())?;
        match LiveClass::of(alloc, net, &all)? {
            Some(class) => self.classes.push(class),
            None => self.lines.push(TreeLine::Empty),
        }
    }

    /// Goes down a class to its first siphon in preorder: appends the lines on the way, keeps the parts that come
    /// later, and meets the siphon.
    pub(crate) fn descend(
        &mut self,
        alloc: Global,
        net: &FlatNet,
        mut class: LiveClass,
    ) -> Result<(), NoMemory>
        requires commoner { MeetsCommoner (net_of net.now) }
        requires places { (net_of net.now).places ≤ MAX_PLACES }
        requires underway { IsUnderway (net_of net.now) (self.old.classes ++ class ∷ []) self.old.lines self.old.met }
        requires left { length self.old.left ≡ (net_of net.now).places }
        ensures underway { OnOk result (IsUnderway (net_of net.now) self.new.classes self.new.lines self.new.met) }
        ensures met { OnOk result (length self.new.met ≡ length self.old.met + 1) }
        ensures left { length self.new.left ≡ length self.old.left }
    {
        'class: while let Some(p) = class.next_place(net) {
            class = self.part(alloc, net, class, p)?;
        }
        self.lines.push(TreeLine::Trap)?;
        self.met.push(class.contains)
    }

    /// Parts a class at its next place by the line `split`, and gives the part without the place; where that isn't
    /// live, its tree is the line `empty`, and the part with the place is given. Else that one is kept for later.
    fn part(
        &mut self,
        alloc: Global,
        net: &FlatNet,
        mut class: LiveClass,
        p: usize,
    ) -> Result<LiveClass, NoMemory>
        requires places { (net_of net.now).places ≤ MAX_PLACES }
        requires underway { IsUnderway (net_of net.now) (self.old.classes ++ class ∷ []) self.old.lines self.old.met }
        requires left { length self.old.left ≡ (net_of net.now).places }
        requires next { IsNextPlace (net_of net.now) (has class.contains) (has class.greatest) p }
        ensures underway { IfOk result (λ part. IsUnderway (net_of net.now) (self.new.classes ++ part ∷ []) self.new.lines self.new.met) }
        ensures less { IfOk result (λ part. places_left (branch_of part) < places_left (branch_of class)) }
        ensures met { self.new.met ≡ self.old.met }
        ensures left { length self.new.left ≡ length self.old.left }
    {
        self.lines.push(TreeLine::Split(p as u32))?;
        let without = class.without(alloc, net, p, &mut self.left, &mut self.fallen)?;
        class.take(net, p);
        let Some(part) = without else {
            self.lines.push(TreeLine::Empty)?;
            return Ok(class);
        };
        self.classes.push(class)?;
        Ok(part)
    }
}
