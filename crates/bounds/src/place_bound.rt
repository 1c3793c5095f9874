ghost use Rattle.std.specs.Prelude.{◌≡◌, ℕ, ◌<◌, length, slice_index};
ghost use Rattle.bounds.specs.Listed.{kept_at, tightened};

use net_values::Vector;

/// A bound of a place, and the number of the row that gives it.
#[derive(Clone, Copy, Debug, PartialEq, Eq)]
pub struct PlaceBound {
    pub bound: u128,
    pub row: usize,
}

/// Puts the bound of a row with these weighted tokens in each place where it is below the one that is kept.
pub(crate) fn tighten_all(
    kept: &mut [Option<PlaceBound>],
    entries: &Vector,
    tokens: u128,
    row: usize,
)
    requires { length entries.now ≡ length kept.old }
    ensures { (p : ℕ) → p < length kept.new →
        kept_at kept.new p ≡ tightened (kept_at kept.old p) (slice_index entries.now p) tokens row }
{
    let mut walk = entries.walk();
    'places: while let Some((p, entry)) = walk.next() {
        tighten(&mut kept[p], entry, tokens, row);
    }
}

/// Puts the bound of a row in one place. An entry of 0 gives none.
fn tighten(kept: &mut Option<PlaceBound>, entry: u128, tokens: u128, row: usize)
    ensures { kept.new ≡ tightened kept.old entry tokens row }
{
    if entry == 0 {
        return;
    }
    let bound = tokens / entry;
    let is_least = kept.is_none_or(|old| bound < old.bound);
    if is_least {
        *kept = Some(PlaceBound { bound, row });
    }
}
