ghost use Rattle.std.specs.Prelude.{◌≡◌, ℕ, ◌<◌, ◌^◌, IfSome, IfNone, decimal};

use itoa::Buffer;

/// The number below 2^128 whose decimal text this is, without a sign or leading zeros. It takes no memory.
pub fn read_decimal(text: &[u8]) -> Option<u128>
    ensures read { IfSome result (λ number. text.now ≡ decimal number) }
    ensures none { IfNone result ((number : ℕ) → number < 2 ^ 128 → text.now ≡ decimal number → ⊥) }
{
    let Ok(written) = std::str::from_utf8(text) else {
        return None;
    };
    let Ok(number) = written.parse::<u128>() else {
        return None;
    };
    let mut buffer = Buffer::new();
    if buffer.format(number).as_bytes() == text {
        Some(number)
    } else {
        None
    }
}
