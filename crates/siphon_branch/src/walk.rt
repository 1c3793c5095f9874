ghost use Rattle.std.specs.Prelude.{◌≡◌, [], ◌⊎◌, ◌++◌, ◌∷◌, ◌≤◌, IfOk, OnErr, OnOk, All, length};
ghost use Rattle.net_values.specs.FlatNets.{net_of};
ghost use Rattle.net_values.specs.PlaceSets.{has};
ghost use Rattle.siphon_branch.specs.LiveClasses.{IsHeld, IsWhole};
ghost use Rattle.siphon_branch.specs.Held.{AddsFound, Descends, Extends, IsSized, IsSomehowUnderway, KeepsUnderway};

use crate::live_class::LiveClass;
use crate::scratch::Scratch;
use closed_sets::has_no_smaller_siphon;
use net_values::{FlatNet, List, NoMemory, PlaceSet, Sets};
use std::alloc::Global;

/// Takes classes, the last one first, and meets a siphon in each, until so many siphons are met or no class is left.
pub(crate) fn walk(
    alloc: Global,
    net: &FlatNet,
    classes: &mut List<LiveClass>,
    end: usize,
    met: &mut Sets,
    found: &mut Sets,
) -> Result<(), NoMemory>
    requires underway { IsSomehowUnderway (net_of net.now) classes.old met.old found.old }
    requires end { length met.old ≤ end }
    ensures met { Extends met.old met.new }
    ensures found { Extends found.old found.new }
    ensures kept { OnOk result (KeepsUnderway (net_of net.now) classes.old classes.new met.old met.new found.old found.new) }
    ensures within { length met.new ≤ end }
    ensures ended { OnOk result ((length met.new ≡ end) ⊎ (classes.new ≡ [])) }
{
    let mut scratch = Scratch::new(alloc, net)?;
    'siphons: while met.len() < end {
        let Some(class) = classes.pop() else {
            return Ok(());
        };
        let siphon = descend(alloc, net, class, classes, &mut scratch)?;
        add(alloc, net, siphon, met, found, &mut scratch)?;
    }
    Ok(())
}

/// Goes down a class to the siphon whose growth always takes the next place: each step parts the class in two
/// and keeps the part without that place, where it is live. The class that is done is a spare one then.
fn descend(
    alloc: Global,
    net: &FlatNet,
    mut class: LiveClass,
    classes: &mut List<LiveClass>,
    scratch: &mut Scratch,
) -> Result<PlaceSet, NoMemory>
    requires held { IsHeld (net_of net.now) class }
    requires left { length scratch.old.left ≡ (net_of net.now).places }
    requires spares { All (IsSized (net_of net.now)) scratch.old.spares }
    ensures left { length scratch.new.left ≡ length scratch.old.left }
    ensures needed { scratch.new.needed ≡ scratch.old.needed }
    ensures spares { OnOk result (All (IsSized (net_of net.now)) scratch.new.spares) }
    ensures siphon { IfOk result (λ siphon. Descends (net_of net.now) class classes.old classes.new siphon) }
{
    'class: while let Some(p) = class.next_place(net) {
        class.keep_without(alloc, net, p, classes, scratch)?;
        class.take(net, p);
    }
    let siphon = class.contains.copy(alloc)?;
    scratch.spares.push(class)?;
    Ok(siphon)
}

/// Appends a siphon to those that were met, and to the minimal ones where it is one.
fn add(
    alloc: Global,
    net: &FlatNet,
    siphon: PlaceSet,
    met: &mut Sets,
    found: &mut Sets,
    scratch: &mut Scratch,
) -> Result<(), NoMemory>
    requires size { length siphon ≡ (net_of net.now).places }
    requires siphon { IsWhole (net_of net.now) (has siphon) }
    requires met { All (λ set. length set ≡ (net_of net.now).places) met.old }
    requires found { All (λ set. length set ≡ (net_of net.now).places) found.old }
    requires left { length scratch.old.left ≡ (net_of net.now).places }
    requires needed { length scratch.old.needed ≡ (net_of net.now).places }
    ensures left { length scratch.new.left ≡ length scratch.old.left }
    ensures needed { length scratch.new.needed ≡ length scratch.old.needed }
    ensures spares { scratch.new.spares ≡ scratch.old.spares }
    ensures extends { Extends found.old found.new }
    ensures met { OnOk result (met.new ≡ met.old ++ siphon ∷ []) }
    ensures err { OnErr result (met.new ≡ met.old) }
    ensures found { OnOk result (AddsFound (net_of net.now) siphon found.old found.new) }
{
    let Scratch {
        left,
        needed,
        fallen,
        ..
    } = scratch;
    if has_no_smaller_siphon(net, &siphon, needed, left, fallen) {
        found.push(siphon.copy(alloc)?)?;
    }
    met.push(siphon)
}
