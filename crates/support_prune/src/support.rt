ghost use Rattle.std.specs.Prelude.{◌≡◌, length};
ghost use Rattle.support_prune.specs.Supports.{is_within as within_test};

use net_values::Vector;

/// Whether the support of a vector is a subset of the support of another, of the same length.
pub(crate) fn is_within(row: &Vector, other: &Vector) -> bool
    requires { length row.now ≡ length other.now }
    ensures { result ≡ within_test row.now other.now }
{
    row.support().is_subset(other.support())
}
