ghost use Rattle.std.specs.Prelude.{◌≡◌, ◌++◌, IfOk, OnOk, codes};
ghost use Rattle.report.specs.SummaryText.{sizes_lines, findings_lines, value_line, bound_line, summary_text};

use crate::lines::{push_answer, push_count};
use itoa::Buffer;
use net_values::{NoMemory, Text};
use std::alloc::Global;

/// What `sample` tells of a net.
#[derive(Clone, Copy, Debug, PartialEq, Eq)]
pub struct Summary {
    /// The number of places.
    pub places: usize,
    /// The number of transitions.
    pub transitions: usize,
    /// The number of arcs.
    pub arcs: usize,
    /// The number of minimal semiflows of places.
    pub place_semiflows: usize,
    /// The number of minimal semiflows of transitions.
    pub transition_semiflows: usize,
    /// The number of minimal siphons.
    pub siphons: usize,
    /// The greatest of the least bounds of the places, in tokens, or 0 where no place has one.
    pub greatest_bound: i128,
    /// Whether every siphon contains a marked trap.
    pub commoner: bool,
}

/// The eight lines of `sample`.
#[tactic(auto, unfolding(crate::specs::SummaryText::summary_text))]
pub fn sample_text(alloc: Global, summary: &Summary) -> Result<Text, NoMemory>
    ensures { IfOk result (λ text. text ≡ summary_text summary.now) }
{
    let mut text = Text::new(alloc);
    push_sizes(&mut text, summary)?;
    push_findings(&mut text, summary)?;
    push_bound(&mut text, summary.greatest_bound)?;
    push_answer(&mut text, "commoner", summary.commoner)?;
    Ok(text)
}

/// Appends how large the net is.
#[tactic(auto, unfolding(crate::specs::SummaryText::sizes_lines))]
fn push_sizes(text: &mut Text, summary: &Summary) -> Result<(), NoMemory>
    ensures { OnOk result (text.new ≡ text.old ++ sizes_lines summary.now) }
{
    push_count(text, "places", summary.places as u128)?;
    push_count(text, "transitions", summary.transitions as u128)?;
    push_count(text, "arcs", summary.arcs as u128)
}

/// Appends how long the lists are.
#[tactic(auto, unfolding(crate::specs::SummaryText::findings_lines))]
fn push_findings(text: &mut Text, summary: &Summary) -> Result<(), NoMemory>
    ensures { OnOk result (text.new ≡ text.old ++ findings_lines summary.now) }
{
    push_count(text, "place-semiflows", summary.place_semiflows as u128)?;
    push_count(
        text,
        "transition-semiflows",
        summary.transition_semiflows as u128,
    )?;
    push_count(text, "siphons", summary.siphons as u128)
}

/// Appends the greatest bound.
#[tactic(auto, unfolding(crate::specs::SummaryText::bound_line))]
fn push_bound(text: &mut Text, bound: i128) -> Result<(), NoMemory>
    ensures { OnOk result (text.new ≡ text.old ++ bound_line bound) }
{
    let mut buffer = Buffer::new();
    push_value(text, "greatest-bound", buffer.format(bound))
}

/// Appends the line of a value.
#[tactic(auto, unfolding(crate::specs::SummaryText::value_line))]
fn push_value(text: &mut Text, word: &str, value: &str) -> Result<(), NoMemory>
    ensures { OnOk result (text.new ≡ text.old ++ value_line word.now value.now) }
{
    text.push(word)?;
    text.push(" ")?;
    text.push(value)?;
    text.push("\n")
}
