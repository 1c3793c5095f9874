ghost use Rattle.std.specs.Prelude.{◌≡◌, ◌↔◌, ◌++◌, IsTrue, IfOk, OnOk, length};
ghost use Rattle.net_values.specs.FlatNets.{net_of};
ghost use Rattle.net_values.specs.Nodes.{place_id};
ghost use Rattle.report.specs.VerdictTexts.{CommonerSuffices, IsCommonerText, IsVerdictOn, ProvesDeadlockFree, deadlock_line, siphon_line, verdict_lines};

use crate::lines::push_answer;
use crate::set_texts::push_members;
use net_class::{Verdict, class};
use net_values::{FlatNet, NoMemory, PlaceSet, Text};
use std::alloc::Global;

/// The text of `commoner`: whether Commoner's condition holds, for a no the ids of the places of the siphon,
/// and last whether a yes proves that no reachable marking is dead, which it does in an ordinary net with a
/// transition.
pub fn commoner_text(alloc: Global, net: &FlatNet, verdict: &Verdict) -> Result<Text, NoMemory>
    requires { IsVerdictOn (net_of net.now) verdict.now }
    ensures { IfOk result (IsCommonerText (net_of net.now) (place_id net.now) verdict.now) }
{
    let mut text = Text::new(alloc);
    push_verdict(&mut text, net, verdict)?;
    push_deadlock_free(&mut text, proves_deadlock_free(net, verdict))?;
    Ok(text)
}

/// Appends the lines of a verdict.
fn push_verdict(text: &mut Text, net: &FlatNet, verdict: &Verdict) -> Result<(), NoMemory>
    requires { IsVerdictOn (net_of net.now) verdict.now }
    ensures { OnOk result (text.new ≡ text.old ++ verdict_lines (place_id net.now) verdict.now) }
{
    match verdict {
        Verdict::Yes => push_answer(text, "commoner", true),
        Verdict::No(siphon) => {
            push_answer(text, "commoner", false)?;
            push_siphon(text, net, siphon)
        }
    }
}

/// Appends the line of a siphon: `siphon` and the ids of its places in order, each after a space.
#[tactic(auto, unfolding(crate::specs::VerdictTexts::siphon_line))]
pub fn push_siphon(text: &mut Text, net: &FlatNet, siphon: &PlaceSet) -> Result<(), NoMemory>
    requires { length siphon.now ≡ (net_of net.now).places }
    ensures { OnOk result (text.new ≡ text.old ++ siphon_line (place_id net.now) siphon.now) }
{
    text.push("siphon")?;
    push_members(text, net, siphon, false)?;
    text.push("\n")
}

/// Whether a verdict proves that no reachable marking is dead.
fn proves_deadlock_free(net: &FlatNet, verdict: &Verdict) -> bool
    ensures { IsTrue result ↔ ProvesDeadlockFree (net_of net.now) verdict.now }
{
    matches!(verdict, Verdict::Yes) && commoner_suffices(net)
}

/// Whether Commoner's condition suffices to exclude dead reachable markings: in an ordinary net with a
/// transition.
pub(crate) fn commoner_suffices(net: &FlatNet) -> bool
    ensures { IsTrue result ↔ CommonerSuffices (net_of net.now) }
{
    net.transitions() > 0 && class(net).ordinary
}

/// Appends the line that tells whether it is proved that no reachable marking is dead.
pub(crate) fn push_deadlock_free(text: &mut Text, is_proved: bool) -> Result<(), NoMemory>
    ensures { OnOk result (text.new ≡ text.old ++ deadlock_line is_proved) }
{
    text.push(if is_proved {
        "deadlock-free proved\n"
    } else {
        "deadlock-free unknown\n"
    })
}
