ghost use Rattle.std.specs.Prelude.{◌≡◌, IfOk};
ghost use Rattle.net_values.specs.FlatNets.{net_of};
ghost use Rattle.net_values.specs.Nodes.{place_id};
ghost use Rattle.free_choice_live.specs.Texts.{IsLivenessOn, live_text as live_report};

use crate::liveness::Liveness;
use net_values::{FlatNet, NoMemory, Text};
use report::push_siphon;
use std::alloc::Global;

/// The text of `live`: `live proved`, or `live unknown` and a second line that says why: the net isn't
/// free-choice, it has no transition, or the siphon that contains no marked trap, by the ids of its places.
pub fn live_text(alloc: Global, net: &FlatNet, liveness: &Liveness) -> Result<Text, NoMemory>
    requires { IsLivenessOn (net_of net.now) liveness.now }
    ensures { IfOk result (λ text. text ≡ live_report (place_id net.now) liveness.now) }
{
    let mut text = Text::new(alloc);
    match liveness {
        Liveness::Proved => text.push("live proved\n")?,
        Liveness::NotFreeChoice => text.push("live unknown\nnot free-choice\n")?,
        Liveness::NoTransition => text.push("live unknown\nno transition\n")?,
        Liveness::Siphon(siphon) => {
            text.push("live unknown\n")?;
            push_siphon(&mut text, net, siphon)?;
        }
    }
    Ok(text)
}
