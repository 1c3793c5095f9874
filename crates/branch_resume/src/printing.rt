ghost use Rattle.std.specs.Prelude.{◌≡◌, ◌++◌, All, IfOk, OnOk, decimal, length};
ghost use Rattle.std.specs.List.{flat_map};
ghost use Rattle.net_values.specs.FlatNets.{net_of};
ghost use Rattle.net_values.specs.Nodes.{place_id};
ghost use Rattle.branch_resume.specs.Pending.{ArePending};
ghost use Rattle.branch_resume.specs.Texts.{resume_text as the_resume_text};
ghost use Rattle.branch_resume.specs.Tokens.{class_line, places_of, token_text};

use crate::resumed::Resumed;
use net_values::{Document, FlatNet, NoMemory, PlaceSet, Text};
use pnml_write::canonical;
use report::siphons_text;
use siphon_branch::Branch;
use std::alloc::Global;

/// The text of `resume`: the canonical text of the document and the token of the pending classes, which the next
/// run reads, and then the siphons that were found, as `siphons` prints them.
#[tactic(auto, unfolding(crate::specs::Texts::resume_text))]
pub fn resume_text(
    alloc: Global,
    document: &Document,
    net: &FlatNet,
    resumed: &Resumed,
) -> Result<Text, NoMemory>
    requires pending { ArePending (net_of net.now).places resumed.now.pending }
    requires found { All (λ set. length set ≡ (net_of net.now).places) resumed.now.found }
    ensures { IfOk result (λ text. text ≡ the_resume_text document.now (place_id net.now) resumed.now) }
{
    let mut text = canonical(alloc, document)?;
    push_token(&mut text, resumed.pending.as_slice())?;
    text.push(siphons_text(alloc, net, &resumed.found)?.as_str())?;
    Ok(text)
}

/// Appends the token of classes.
fn push_token(text: &mut Text, classes: &[Branch]) -> Result<(), NoMemory>
    ensures { OnOk result (text.new ≡ text.old ++ token_text classes.now) }
{
    text.push("pending\n")?;
    push_classes(text, classes)?;
    text.push("end\n")?;
    Ok(())
}

/// Appends the lines of classes.
fn push_classes(text: &mut Text, classes: &[Branch]) -> Result<(), NoMemory>
    ensures { OnOk result (text.new ≡ text.old ++ flat_map class_line classes.now) }
{
    for class in classes {
        push_class(text, class)?;
    }
    Ok(())
}

/// Appends the line of a class.
#[tactic(auto, unfolding(crate::specs::Tokens::class_line))]
fn push_class(text: &mut Text, class: &Branch) -> Result<(), NoMemory>
    ensures { OnOk result (text.new ≡ text.old ++ class_line class.now) }
{
    text.push("class")?;
    push_places(text, " +", &class.contains)?;
    push_places(text, " -", &class.avoids)?;
    text.push("\n")
}

/// Appends the places of a set, ascending, each after the same piece.
fn push_places(text: &mut Text, piece: &str, set: &PlaceSet) -> Result<(), NoMemory>
    ensures { OnOk result (text.new ≡ text.old ++ flat_map (λ p. piece.now ++ decimal p) (places_of set.now)) }
{
    let mut from = 0;
    'places: while from < set.size() {
        let Some(p) = set.first_from(from) else {
            return Ok(());
        };
        text.push(piece)?;
        text.push_number(p as u128)?;
        from = p + 1;
    }
    Ok(())
}
