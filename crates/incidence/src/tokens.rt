ghost use Rattle.std.specs.Prelude.{◌≡◌, ◌*◌, ◌<◌, ◌^◌, OkIff, length, slice_index};
ghost use Rattle.net_values.specs.FlatNets.{net_of};
ghost use Rattle.incidence.specs.Invariance.{weighted_tokens};

use crate::wide_sum::{WideSum, add_product};
use net_values::{FlatNet, Vector};

/// The tokens of the initial marking, those of each place counted as many times as its factor says.
/// `WideSum` comes where they exceed 2^127 - 1.
pub fn initial_tokens(net: &FlatNet, factors: &Vector) -> Result<u128, WideSum>
    requires { length factors.now ≡ (net_of net.now).places }
    ensures { let tokens = weighted_tokens (net_of net.now) (slice_index factors.now) (net_of net.now).initial in
        OkIff result (tokens < 2 ^ 127) tokens }
{
    let mut total = 0;
    let mut walk = factors.walk();
    'places: while let Some((p, factor)) = walk.next() {
        total = add_product(total, factor, u128::from(net.initial(p)))?;
    }
    Ok(total)
}
