ghost use Rattle.std.specs.Prelude.{◌≡◌, IfOk};
ghost use Rattle.net_values.specs.FlatNets.{net_of};
ghost use Rattle.report.specs.VerifiedTexts.{IsTreeText, IsVerifiedText};

use crate::verdict_texts::{commoner_suffices, push_deadlock_free};
use certificates::Certificate;
use net_values::{FlatNet, NoMemory, Text};
use std::alloc::Global;

/// The text of `verify` for a certificate that was accepted: its kind, and for a tree also whether it proves
/// that no reachable marking is dead, which it does in an ordinary net with a transition.
pub fn verified_text(
    alloc: Global,
    net: &FlatNet,
    certificate: &Certificate,
) -> Result<Text, NoMemory>
    ensures { IfOk result (IsVerifiedText (net_of net.now) certificate.now) }
{
    match certificate {
        Certificate::Bounds(_) => text_with(alloc, "accepted bounds\n"),
        Certificate::BadSiphon(_) => text_with(alloc, "accepted bad-siphon\n"),
        Certificate::Commoner(_) => tree_text(alloc, net),
    }
}

fn tree_text(alloc: Global, net: &FlatNet) -> Result<Text, NoMemory>
    ensures { IfOk result (IsTreeText (net_of net.now)) }
{
    let mut text = text_with(alloc, "accepted commoner\n")?;
    push_deadlock_free(&mut text, commoner_suffices(net))?;
    Ok(text)
}

fn text_with(alloc: Global, line: &str) -> Result<Text, NoMemory>
    ensures { IfOk result (λ text. text ≡ line.now) }
{
    let mut text = Text::new(alloc);
    text.push(line)?;
    Ok(text)
}
