ghost use Rattle.std.specs.Prelude.{◌≡◌, ◌≤ℤ◌, IfOk, pos, length};

use super::*;
use net_values::{NoMemory, Vector};
use small_nets::{Arc, net_with};
use std::alloc::Global;
use std::test::Fail;

/// A transition that takes 3 from the first place and gives it 1 back, and gives the second place 2^63.
const EXCHANGE: &[Arc] = &[(0, 0, -3), (0, 0, 1), (1, 0, 1 << 63)];

/// The vector with these two entries.
fn pair(alloc: Global, first: i128, second: i128) -> Result<Vector, NoMemory>
    requires first { pos 0 ≤ℤ first }
    requires second { pos 0 ≤ℤ second }
    ensures { IfOk result (λ vector. length vector ≡ 2) }
{
    let mut vector = Vector::zeros(alloc, 2)?;
    vector.set(0, first);
    vector.set(1, second);
    Ok(vector)
}

#[test]
fn sums_are_exact_up_to_the_limit(rt: HostRuntime) -> Result<(), Fail> {
    let alloc = rt.alloc();
    let net = net_with(alloc, &[0; 2], 1, EXCHANGE)?;
    assert!(rt; net.places() == 2 && net.transitions() == 1);
    let matrix = Incidence::of(alloc, &net)?;
    assert!(rt; matrix.rows() == 2 && matrix.columns() == 1);
    assert_eq!(rt; (matrix.entry(0, 0), matrix.entry(1, 0)), (-2, 1 << 63));
    let turned = matrix.transpose(alloc)?;
    assert!(rt; turned.rows() == 1 && turned.columns() == 2);
    assert_eq!(rt; (turned.entry(0, 0), turned.entry(0, 1)), (-2, 1 << 63));
    for (first, second, sums) in [
        (5, 7, Ok((7 << 63, 10))),
        (0, (1 << 64) - 1, Ok((((1 << 64) - 1) << 63, 0))),
        (0, 1 << 64, Err(WideSum)),
        (1 << 126, 0, Err(WideSum)),
        ((1 << 126) - 1, 0, Ok((0, i128::MAX - 1))),
    ] {
        assert!(rt; first >= 0 && second >= 0);
        let y = pair(alloc, first, second)?;
        assert_eq!(rt; matrix.sums(&y, 0), sums, "at {first}, {second}");
        assert_eq!(rt; net_sums(&net, &y, 0), sums, "at {first}, {second}");
    }
    Ok(())
}

#[test]
fn the_extended_incidence_has_a_row_per_transition(rt: HostRuntime) -> Result<(), Fail> {
    let alloc = rt.alloc();
    let net = net_with(alloc, &[0; 2], 1, EXCHANGE)?;
    let extended = Incidence::extended(alloc, &net)?;
    assert!(rt; extended.rows() == 3 && extended.columns() == 1);
    assert_eq!(rt; (extended.entry(0, 0), extended.entry(2, 0)), (-2, 1));
    Ok(())
}
