ghost use Rattle.std.specs.Prelude.{◌≡◌, ◌≤◌, All, length};
ghost use Rattle.semiflow_elim.specs.Carried.{AreListed};
ghost use Rattle.semiflow_elim.specs.Counts.{AreCounted};
ghost use Rattle.semiflow_elim.specs.Kept.{AreKept};

use crate::carried_rows::CarriedRows;
use crate::counts::{ColumnCounts, uncount_row};
use crate::signs::RowSums;

/// Keeps the rows whose two sums are equal, and those past the end of the sums, and takes the others off the counts.
/// The last row takes the place of one that goes, so a step moves no more rows than it drops. No memory is taken.
pub(crate) fn keep_zeros(rows: &mut CarriedRows, counts: &mut [ColumnCounts], sums: &[RowSums])
    requires carried { length rows.old.sums.items ≡ length rows.old.vectors.items }
    requires listed { All (AreListed (length counts.old)) rows.old.sums.items }
    requires counted { AreCounted rows.old.sums.items (length rows.old.sums.items) (length counts.old) counts.old }
    requires few { length sums.now ≤ length rows.old.vectors.items }
    ensures kept { AreKept sums.now rows.old.vectors.items rows.old.sums.items rows.new.vectors.items rows.new.sums.items }
    ensures counted { AreCounted rows.new.sums.items (length rows.new.sums.items) (length counts.old) counts.new }
{
    let mut left = sums.len();
    while left > 0 {
        left -= 1;
        if sums[left].gain != sums[left].loss {
            uncount_row(counts, rows.sums[left].as_slice());
            rows.drop_row(left);
        }
    }
}
