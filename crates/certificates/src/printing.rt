ghost use Rattle.std.specs.Prelude.{◌≡◌, ◌++◌, IfOk, OnOk};
ghost use Rattle.std.specs.List.{flat_map};
ghost use Rattle.net_values.specs.Vectors.{positive_part};
ghost use Rattle.certificates.specs.Spelling.{bound_line, certificate_text, flow_line, place_word, siphon_line, term_word, tree_line};

use crate::certificate::{BoundLines, Certificate, Claim, TreeLine};
use net_values::{CopyList, NoMemory, Text};
use std::alloc::Global;

/// The text of a certificate.
pub fn print(alloc: Global, certificate: &Certificate) -> Result<Text, NoMemory>
    ensures { IfOk result (λ text. text ≡ certificate_text certificate.now) }
{
    let mut text = Text::new(alloc);
    match certificate {
        Certificate::Bounds(lines) => push_bound_lines(&mut text, lines)?,
        Certificate::BadSiphon(places) => push_bad_siphon(&mut text, places.as_slice())?,
        Certificate::Commoner(tree) => push_commoner(&mut text, tree.as_slice())?,
    }
    Ok(text)
}

/// Appends a certificate on bounds.
fn push_bound_lines(text: &mut Text, lines: &BoundLines) -> Result<(), NoMemory>
    ensures { OnOk result (text.new ≡ text.old ++ certificate_text (Certificate.Bounds lines.now)) }
{
    text.push("bounds\n")?;
    push_flows(text, lines.flows.as_slice())?;
    push_bounds(text, lines.claims.as_slice())?;
    text.push("end\n")?;
    Ok(())
}

/// Appends a certificate on a siphon.
fn push_bad_siphon(text: &mut Text, places: &[u32]) -> Result<(), NoMemory>
    ensures { OnOk result (text.new ≡ text.old ++ certificate_text (Certificate.BadSiphon places.now)) }
{
    text.push("bad-siphon\n")?;
    push_siphon(text, places)?;
    text.push("end\n")?;
    Ok(())
}

/// Appends a certificate with a tree.
fn push_commoner(text: &mut Text, tree: &[TreeLine]) -> Result<(), NoMemory>
    ensures { OnOk result (text.new ≡ text.old ++ certificate_text (Certificate.Commoner tree.now)) }
{
    text.push("commoner\n")?;
    push_tree(text, tree)?;
    text.push("end\n")?;
    Ok(())
}

/// Appends the lines of flows.
fn push_flows(text: &mut Text, flows: &[CopyList<(u32, i128)>]) -> Result<(), NoMemory>
    ensures { OnOk result (text.new ≡ text.old ++ flat_map flow_line flows.now) }
{
    for flow in flows {
        push_flow(text, flow.as_slice())?;
    }
    Ok(())
}

/// Appends the line of a flow.
#[tactic(auto, unfolding(crate::specs::Spelling::flow_line))]
fn push_flow(text: &mut Text, flow: &[(u32, i128)]) -> Result<(), NoMemory>
    ensures { OnOk result (text.new ≡ text.old ++ flow_line flow.now) }
{
    text.push("flow")?;
    push_terms(text, flow)?;
    text.push("\n")
}

/// Appends the words of terms.
fn push_terms(text: &mut Text, terms: &[(u32, i128)]) -> Result<(), NoMemory>
    ensures { OnOk result (text.new ≡ text.old ++ flat_map term_word terms.now) }
{
    for term in terms {
        push_term(text, *term)?;
    }
    Ok(())
}

/// Appends the word of a term.
#[tactic(auto, unfolding(crate::specs::Spelling::term_word))]
fn push_term(text: &mut Text, term: (u32, i128)) -> Result<(), NoMemory>
    ensures { OnOk result (text.new ≡ text.old ++ term_word term) }
{
    text.push(" ")?;
    text.push_number(term.0 as u128)?;
    text.push(":")?;
    text.push_number(positive_part(term.1))
}

/// The number, or 0 if it is negative.
fn positive_part(number: i128) -> u128
    ensures { result ≡ positive_part number }
{
    if number > 0 { number.unsigned_abs() } else { 0 }
}

/// Appends the lines of claims.
fn push_bounds(text: &mut Text, claims: &[Claim]) -> Result<(), NoMemory>
    ensures { OnOk result (text.new ≡ text.old ++ flat_map bound_line claims.now) }
{
    for claim in claims {
        push_bound(text, *claim)?;
    }
    Ok(())
}

/// Appends the line of a claim.
#[tactic(auto, unfolding(crate::specs::Spelling::bound_line))]
fn push_bound(text: &mut Text, claim: Claim) -> Result<(), NoMemory>
    ensures { OnOk result (text.new ≡ text.old ++ bound_line claim) }
{
    text.push("bound ")?;
    text.push_number(claim.place as u128)?;
    text.push(" ")?;
    text.push_number(positive_part(claim.bound))?;
    text.push(" ")?;
    text.push_number(claim.flow as u128)?;
    text.push("\n")
}

/// Appends the line of a siphon.
#[tactic(auto, unfolding(crate::specs::Spelling::siphon_line))]
fn push_siphon(text: &mut Text, places: &[u32]) -> Result<(), NoMemory>
    ensures { OnOk result (text.new ≡ text.old ++ siphon_line places.now) }
{
    text.push("siphon")?;
    push_places(text, places)?;
    text.push("\n")
}

/// Appends the words of places.
fn push_places(text: &mut Text, places: &[u32]) -> Result<(), NoMemory>
    ensures { OnOk result (text.new ≡ text.old ++ flat_map place_word places.now) }
{
    for place in places {
        push_place(text, *place)?;
    }
    Ok(())
}

/// Appends the word of a place.
#[tactic(auto, unfolding(crate::specs::Spelling::place_word))]
fn push_place(text: &mut Text, place: u32) -> Result<(), NoMemory>
    ensures { OnOk result (text.new ≡ text.old ++ place_word place) }
{
    text.push(" ")?;
    text.push_number(place as u128)
}

/// Appends the lines of a tree.
fn push_tree(text: &mut Text, tree: &[TreeLine]) -> Result<(), NoMemory>
    ensures { OnOk result (text.new ≡ text.old ++ flat_map tree_line tree.now) }
{
    for line in tree {
        push_tree_line(text, *line)?;
    }
    Ok(())
}

/// Appends a line of a tree.
#[tactic(auto, unfolding(crate::specs::Spelling::tree_line))]
fn push_tree_line(text: &mut Text, line: TreeLine) -> Result<(), NoMemory>
    ensures { OnOk result (text.new ≡ text.old ++ tree_line line) }
{
    match line {
        TreeLine::Split(place) => {
            text.push("split ")?;
            text.push_number(place as u128)?;
            text.push("\n")
        }
        TreeLine::Empty => text.push("empty\n"),
        TreeLine::Trap => text.push("trap\n"),
    }
}
