ghost use Rattle.std.specs.Prelude.{◌≡◌, [], ◌⊎◌, ◌≤◌, All, AllPairs, IfOk, OnErr, OnOk, length};
ghost use Rattle.net_values.specs.FlatNets.{net_of};
ghost use Rattle.siphon_branch.specs.Classes.{AreDisjoint, HasSize};
ghost use Rattle.siphon_branch.specs.LiveClasses.{branches_of};
ghost use Rattle.siphon_branch.specs.Held.{Extends, IsSomehowUnderway, IsUnderway, KeepsLive, MeetsMore};

use crate::branch::{Branch, Branches};
use crate::live_class::LiveClass;
use crate::walk::walk;
use net_values::{FlatNet, List, NoMemory, Sets};
use std::alloc::Global;

/// The classes that aren't taken yet, with what is kept of them, and alone.
#[derive(Drop)]
pub(crate) struct Stack {
    pub(crate) classes: List<LiveClass>,
    pub(crate) pending: Branches,
}

/// The classes that are live.
pub(crate) fn live_classes(
    alloc: Global,
    net: &FlatNet,
    branches: &Branches,
) -> Result<Stack, NoMemory>
    requires sizes { All (HasSize (net_of net.now).places) branches.now }
    requires disjoint { AllPairs AreDisjoint branches.now }
    ensures alone { IfOk result (λ stack. stack.pending ≡ branches_of stack.classes) }
    ensures underway { IfOk result (λ stack. IsUnderway (net_of net.now) branches.now stack.classes [] []) }
{
    let mut classes = List::new(alloc);
    let branches = branches.as_slice();
    for class in branches {
        keep_live(alloc, net, class, &mut classes)?;
    }
    let pending = alone(alloc, &classes)?;
    Ok(Stack { classes, pending })
}

/// Appends the class where it is live.
fn keep_live(
    alloc: Global,
    net: &FlatNet,
    class: &Branch,
    classes: &mut List<LiveClass>,
) -> Result<(), NoMemory>
    requires { HasSize (net_of net.now).places class.now }
    ensures { OnOk result (KeepsLive (net_of net.now) class.now classes.old classes.new) }
{
    match LiveClass::of(alloc, net, class)? {
        Some(live) => classes.push(live),
        None => Ok(()),
    }
}

/// Meets siphons until there are so many, or no class is left. A refusal leaves what was met unchanged.
pub(crate) fn meet_more(
    alloc: Global,
    net: &FlatNet,
    classes: &List<LiveClass>,
    end: usize,
    met: &mut Sets,
    found: &mut Sets,
) -> Result<Stack, NoMemory>
    requires underway { IsSomehowUnderway (net_of net.now) classes.now met.old found.old }
    requires end { length met.old ≤ end }
    ensures ok { IfOk result (λ stack. MeetsMore (net_of net.now) classes.now stack end met.old met.new found.old found.new) }
    ensures err { OnErr result ((met.new ≡ met.old) × (found.new ≡ found.old)) }
{
    let met_before = met.len();
    let found_before = found.len();
    let stack = walk_copy(alloc, net, classes, end, met, found);
    if stack.is_err() {
        met.truncate(met_before);
        found.truncate(found_before);
    }
    stack
}

/// The same with copies of the classes. A refusal leaves in the lists what was met before it.
fn walk_copy(
    alloc: Global,
    net: &FlatNet,
    classes: &List<LiveClass>,
    end: usize,
    met: &mut Sets,
    found: &mut Sets,
) -> Result<Stack, NoMemory>
    requires underway { IsSomehowUnderway (net_of net.now) classes.now met.old found.old }
    requires end { length met.old ≤ end }
    ensures met { Extends met.old met.new }
    ensures found { Extends found.old found.new }
    ensures ok { IfOk result (λ stack. MeetsMore (net_of net.now) classes.now stack end met.old met.new found.old found.new) }
{
    let mut classes = copies(alloc, classes.as_slice())?;
    walk(alloc, net, &mut classes, end, met, found)?;
    let pending = alone(alloc, &classes)?;
    Ok(Stack { classes, pending })
}

/// Copies of the classes.
fn copies(alloc: Global, classes: &[LiveClass]) -> Result<List<LiveClass>, NoMemory>
    ensures { IfOk result (λ copies. copies ≡ classes.now) }
{
    let mut copies = List::new(alloc);
    for class in classes {
        copies.push(class.copy(alloc)?)?;
    }
    Ok(copies)
}

/// The classes alone.
fn alone(alloc: Global, classes: &List<LiveClass>) -> Result<Branches, NoMemory>
    ensures { IfOk result (λ branches. branches ≡ branches_of classes.now) }
{
    let mut branches = Branches::new(alloc);
    let classes = classes.as_slice();
    for class in classes {
        branches.push(class.branch(alloc)?)?;
    }
    Ok(branches)
}
