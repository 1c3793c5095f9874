ghost use Rattle.std.specs.Prelude.{◌≡◌, IfOk};
ghost use Rattle.net_values.specs.FlatNets.{net_of};
ghost use Rattle.report.specs.Texts.{check_text as check_report, class_text as class_report};

use crate::lines::push_answer;
use net_class::Class;
use net_values::{Document, FlatNet, NoMemory, Text};
use std::alloc::Global;

/// The line of `check`: how many places, transitions and arcs the net has. For the flat net of a document the
/// last is the number of its arcs.
#[tactic(auto, unfolding(crate::specs::Texts::check_text))]
pub fn check_text(alloc: Global, _document: &Document, net: &FlatNet) -> Result<Text, NoMemory>
    ensures { let found = net_of net.now in
        IfOk result (λ text. text ≡ check_report found.places found.transitions net.now.arcs) }
{
    let mut text = Text::new(alloc);
    text.push("places ")?;
    text.push_number(net.places() as u128)?;
    text.push(" transitions ")?;
    text.push_number(net.transitions() as u128)?;
    text.push(" arcs ")?;
    text.push_number(net.arcs() as u128)?;
    text.push("\n")?;
    Ok(text)
}

/// The four lines of `class`.
#[tactic(auto, unfolding(crate::specs::Texts::class_text))]
pub fn class_text(alloc: Global, class: Class) -> Result<Text, NoMemory>
    ensures { IfOk result (λ text. text ≡ class_report class) }
{
    let mut text = Text::new(alloc);
    push_answer(&mut text, "ordinary", class.ordinary)?;
    push_answer(&mut text, "state-machine", class.state_machine)?;
    push_answer(&mut text, "marked-graph", class.marked_graph)?;
    push_answer(&mut text, "free-choice", class.free_choice)?;
    Ok(text)
}
