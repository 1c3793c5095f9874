ghost use Rattle.std.specs.Prelude.{◌≡◌, ◌<◌, OkIff, length, pos, slice_index};
ghost use Rattle.net_values.specs.FlatNets.{net_of};
ghost use Rattle.incidence.specs.Matrix.{AreNarrow, gain_sum, loss_sum, incidence_of};

use crate::side::Side;
use crate::wide_sum::WideSum;
use net_values::{FlatNet, Vector};

/// The two sums of a vector, with an entry per place, at a transition's column of the net's incidence: over
/// the positive entries, and over the negated negative ones. It takes no memory. `WideSum` comes where
/// either exceeds 2^127 - 1.
pub fn net_sums(net: &FlatNet, y: &Vector, column: usize) -> Result<(i128, i128), WideSum>
    requires size { length y.now ≡ (net_of net.now).places }
    requires column { column < (net_of net.now).transitions }
    ensures { let m = incidence_of (net_of net.now) in
        OkIff result (AreNarrow m column (slice_index y.now)) (pos (gain_sum m column (slice_index y.now)), pos (loss_sum m column (slice_index y.now))) }
{
    let gain = Side::Gain.weighted_sum(net, y, column)?;
    let loss = Side::Loss.weighted_sum(net, y, column)?;
    Ok((gain as i128, loss as i128))
}
