ghost use Rattle.std.specs.Prelude.{◌≡◌, IfOk, length};

use super::*;
use net_values::{NoMemory, Vector};
use std::alloc::Global;
use std::test::Fail;

/// The vector with these entries.
fn vector(alloc: Global, first: u8, second: u8) -> Result<Vector, NoMemory>
    ensures { IfOk result (λ vector. length vector ≡ 2) }
{
    let mut vector = Vector::zeros(alloc, 2)?;
    vector.set(0, i128::from(first));
    vector.set(1, i128::from(second));
    Ok(vector)
}

#[test]
fn only_smallest_supports_are_kept(rt: HostRuntime) -> Result<(), Fail> {
    let alloc = rt.alloc();
    for (first, second, kept) in [
        ((1, 1), (2, 0), [(2, 0)].as_slice()),
        ((1, 0), (2, 3), [(1, 0)].as_slice()),
        ((1, 0), (5, 0), [(1, 0)].as_slice()),
        ((1, 0), (0, 3), [(1, 0), (0, 3)].as_slice()),
    ] {
        let mut pool = Pool::new(alloc);
        pool.offer(vector(alloc, first.0, first.1)?)?;
        let row = vector(alloc, second.0, second.1)?;
        assert!(rt; pool.rows().iter().all(|other| other.len() == row.len()));
        pool.offer(row)?;
        let rows = pool.into_rows();
        assert_eq!(rt; rows.len(), kept.len());
        for (row, entries) in rows.as_slice().iter().zip(kept) {
            assert!(rt; *row == vector(alloc, entries.0, entries.1)?);
        }
    }
    Ok(())
}
