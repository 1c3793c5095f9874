ghost use Rattle.std.specs.Prelude.{◌≡◌, length};
ghost use Rattle.support_prune.specs.Masks.{mask_of as mask_in_words};
ghost use Rattle.support_prune.specs.Supports.{is_within as within_test};

use crate::support::is_within;
use net_values::Vector;

/// The mask of a vector: the support folded into 128 bits.
pub(crate) fn mask_of(row: &Vector) -> u128
    ensures { result ≡ mask_in_words row.now }
{
    let mut mask = 0;
    let mut walk = row.walk();
    'entries: while let Some((i, _)) = walk.next() {
        mask |= 1 << (i % 128);
    }
    mask
}

/// Whether the support of a vector is a subset of the support of another, of the same length. The masks
/// tell most pairs apart before the entries are read.
pub(crate) fn is_within_masked(row: &Vector, mask: u128, other: &Vector, other_mask: u128) -> bool
    requires alike { length row.now ≡ length other.now }
    requires mask { mask ≡ mask_in_words row.now }
    requires other_mask { other_mask ≡ mask_in_words other.now }
    ensures { result ≡ within_test row.now other.now }
{
    mask | other_mask == other_mask && is_within(row, other)
}
