ghost use Rattle.std.specs.Prelude.{◌≡◌, ◌++◌, All, IfOk, OnOk, length};
ghost use Rattle.net_values.specs.FlatNets.{net_of};
ghost use Rattle.net_values.specs.Nodes.{place_id};
ghost use Rattle.sub_semiflow.specs.Texts.{bounded_line, covered_below, sub_text as the_sub_text};

use crate::extremal::covered;
use net_values::{FlatNet, NoMemory, NodeKind, Rows, Text};
use report::{push_count, push_semiflows};
use std::alloc::Global;

/// The text of `sub`: a line for each vector, with its positive entries in order, each as its number, `*` and the
/// id of its place; then how many vectors there are, and last how many of the places are covered.
#[tactic(auto, unfolding(crate::specs::Texts::sub_text))]
pub fn sub_text(alloc: Global, net: &FlatNet, rows: &Rows) -> Result<Text, NoMemory>
    requires { All (λ row. length row ≡ (net_of net.now).places) rows.now }
    ensures { IfOk result (λ text. text ≡ the_sub_text (place_id net.now) (net_of net.now).places rows.now) }
{
    let mut text = Text::new(alloc);
    push_semiflows(&mut text, NodeKind::Place, net, rows.as_slice())?;
    push_count(&mut text, "sub-semiflows", rows.len() as u128)?;
    push_bounded(&mut text, count_covered(rows, net.places()), net.places())?;
    Ok(text)
}

/// Appends how many of the places are covered.
#[tactic(auto, unfolding(crate::specs::Texts::bounded_line))]
fn push_bounded(text: &mut Text, count: usize, places: usize) -> Result<(), NoMemory>
    ensures { OnOk result (text.new ≡ text.old ++ bounded_line count places) }
{
    text.push("structurally bounded ")?;
    text.push_number(count as u128)?;
    text.push(" of ")?;
    text.push_number(places as u128)?;
    text.push("\n")
}

/// How many of the first places are covered.
fn count_covered(rows: &Rows, places: usize) -> usize
    requires { All (λ row. length row ≡ places) rows.now }
    ensures { result ≡ covered_below rows.now places }
{
    let mut count = 0;
    for p in 0..places {
        if covered(rows, p) {
            count += 1;
        }
    }
    count
}
