ghost use Rattle.std.specs.Prelude.{◌≡◌, ◌++◌, IfOk, OnOk, length};
ghost use Rattle.net_values.specs.FlatNets.{net_of};
ghost use Rattle.net_values.specs.Nodes.{place_id};
ghost use Rattle.net_replay.specs.Texts.{replay_text as the_replay_text, token_lines};

use crate::firings::Firings;
use crate::replayed::Replay;
use net_values::{FlatNet, Marking, NoMemory, Text};
use report::{push_answer, push_count};
use std::alloc::Global;

/// The text of `replay`: a line for each place, with its id and its tokens, then how many transitions fired,
/// and last whether the counts are a semiflow of transitions.
#[tactic(auto, unfolding(crate::specs::Texts::replay_text))]
pub fn replay_text(
    alloc: Global,
    net: &FlatNet,
    list: &Firings,
    replay: &Replay,
) -> Result<Text, NoMemory>
    requires { length replay.now.marking ≡ (net_of net.now).places }
    ensures { IfOk result (λ text. text ≡ the_replay_text (place_id net.now) list.now replay.now) }
{
    let mut text = Text::new(alloc);
    push_tokens(&mut text, net, &replay.marking)?;
    push_count(&mut text, "fired", list.len() as u128)?;
    push_answer(&mut text, "t-semiflow", replay.semiflow)?;
    Ok(text)
}

/// Appends the lines of the places.
fn push_tokens(text: &mut Text, net: &FlatNet, marking: &Marking) -> Result<(), NoMemory>
    requires { length marking.now ≡ (net_of net.now).places }
    ensures { let lines = token_lines (place_id net.now) marking.now (length marking.now) in
        OnOk result (text.new ≡ text.old ++ lines) }
{
    let counts = marking.as_slice();
    for p in 0..counts.len() {
        push_count(text, net.place_id(p).as_str(), counts[p])?;
    }
    Ok(())
}
