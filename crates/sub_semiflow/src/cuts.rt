ghost use Rattle.std.specs.Prelude.{◌≡◌, ◌≤◌, All, IfOk, length, map, take};

use net_values::{NoMemory, Rows, Vector};
use std::alloc::Global;

/// The first `count` entries of each vector.
pub(crate) fn cut(alloc: Global, rows: &Rows, count: usize) -> Result<Rows, NoMemory>
    requires { All (λ row. count ≤ length row) rows.now }
    ensures { IfOk result (λ cuts. cuts ≡ map (take count) rows.now) }
{
    let mut cuts = Vec::with_capacity(alloc, rows.len())?;
    for row in rows.as_slice() {
        cuts.push(front(alloc, row, count)?)?;
    }
    Ok(Rows::from_members(cuts))
}

/// The first `count` entries of a vector.
fn front(alloc: Global, row: &Vector, count: usize) -> Result<Vector, NoMemory>
    requires { count ≤ length row.now }
    ensures { IfOk result (λ front. front ≡ take count row.now) }
{
    let mut walk = row.walk();
    let mut front = Vector::zeros(alloc, count)?;
    'entries: while let Some((i, entry)) = walk.next() {
        if i < count {
            front.append(i, entry);
        }
    }
    Ok(front)
}
