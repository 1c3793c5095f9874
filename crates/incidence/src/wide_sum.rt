ghost use Rattle.std.specs.Prelude.{◌+◌, ◌*◌, ◌<◌, ◌^◌, OkIff};

use net_values::MAX_TOKENS;

/// A sum exceeds 2^127 - 1.
#[derive(Clone, Copy, Debug, PartialEq, Eq)]
pub struct WideSum;

/// The total and the product of the two factors together.
pub fn add_product(total: u128, factor: u128, amount: u128) -> Result<u128, WideSum>
    ensures { OkIff result (total + factor * amount < 2 ^ 127) (total + factor * amount) }
{
    // Most factors are 0, which this tells without a wide multiplication.
    if factor == 0 && total <= MAX_TOKENS {
        return Ok(total);
    }
    let product = factor.checked_mul(amount).ok_or(WideSum)?;
    let sum = total.checked_add(product).ok_or(WideSum)?;
    if sum > MAX_TOKENS {
        return Err(WideSum);
    }
    Ok(sum)
}
