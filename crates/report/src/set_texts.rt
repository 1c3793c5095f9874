ghost use Rattle.std.specs.Prelude.{◌≡◌, ◌++◌, All, IfOk, OnOk, codes, length};
ghost use Rattle.std.specs.List.{flat_map};
ghost use Rattle.net_values.specs.FlatNets.{net_of};
ghost use Rattle.net_values.specs.Nodes.{place_id};
ghost use Rattle.report.specs.Lines.{spaced};
ghost use Rattle.report.specs.Texts.{members, set_line, sets_text as set_report};

use crate::lines::{push_count, push_space};
use net_values::{FlatNet, NoMemory, PlaceSet, Sets, Text};
use std::alloc::Global;

/// The text of `siphons`: a line for each set, with the ids of its places in order, and last how many sets
/// there are.
pub fn siphons_text(alloc: Global, net: &FlatNet, sets: &Sets) -> Result<Text, NoMemory>
    requires { All (λ set. length set ≡ (net_of net.now).places) sets.now }
    ensures { IfOk result (λ text. text ≡ set_report (codes "siphons") (place_id net.now) sets.now) }
{
    sets_text(alloc, "siphons", net, sets)
}

/// The text of `traps`: likewise.
pub fn traps_text(alloc: Global, net: &FlatNet, sets: &Sets) -> Result<Text, NoMemory>
    requires { All (λ set. length set ≡ (net_of net.now).places) sets.now }
    ensures { IfOk result (λ text. text ≡ set_report (codes "traps") (place_id net.now) sets.now) }
{
    sets_text(alloc, "traps", net, sets)
}

#[tactic(auto, unfolding(crate::specs::Texts::sets_text))]
fn sets_text(alloc: Global, word: &str, net: &FlatNet, sets: &Sets) -> Result<Text, NoMemory>
    requires { All (λ set. length set ≡ (net_of net.now).places) sets.now }
    ensures { IfOk result (λ text. text ≡ set_report word.now (place_id net.now) sets.now) }
{
    let mut text = Text::new(alloc);
    push_sets(&mut text, net, sets.as_slice())?;
    push_count(&mut text, word, sets.len() as u128)?;
    Ok(text)
}

/// Appends the lines of sets.
fn push_sets(text: &mut Text, net: &FlatNet, sets: &[PlaceSet]) -> Result<(), NoMemory>
    requires { All (λ set. length set ≡ (net_of net.now).places) sets.now }
    ensures { let line = set_line (place_id net.now) in
        OnOk result (text.new ≡ text.old ++ flat_map line sets.now) }
{
    for set in sets {
        push_set(text, net, set)?;
    }
    Ok(())
}

/// Appends the line of a set.
fn push_set(text: &mut Text, net: &FlatNet, set: &PlaceSet) -> Result<(), NoMemory>
    requires { length set.now ≡ (net_of net.now).places }
    ensures { OnOk result (text.new ≡ text.old ++ set_line (place_id net.now) set.now) }
{
    push_members(text, net, set, true)?;
    text.push("\n")
}

/// Appends the ids of the places of a set, with one space between, and where they don't begin the line also
/// one in front of them.
pub(crate) fn push_members(
    text: &mut Text,
    net: &FlatNet,
    set: &PlaceSet,
    begins: bool,
) -> Result<(), NoMemory>
    requires { length set.now ≡ (net_of net.now).places }
    ensures { let pieces = members (place_id net.now) set.now in
        OnOk result (text.new ≡ text.old ++ spaced begins pieces) }
{
    let mut is_first = begins;
    for p in 0..set.size() {
        if set.contains(p) {
            push_space(text, is_first)?;
            text.push(net.place_id(p).as_str())?;
            is_first = false;
        }
    }
    Ok(())
}
