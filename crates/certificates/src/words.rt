ghost use Rattle.std.specs.Prelude.{◌≡◌, ◌+◌, ◌∷◌, [], ◌<◌, MatchOption, IfSome, drop, length};
ghost use Rattle.certificates.specs.Words.{before, from_first, words_in};

use memchr::memchr;

/// The bytes before the first separator, and those from it on.
pub fn split(separator: u8, bytes: &[u8]) -> (&[u8], &[u8])
    ensures first { result.0.now ≡ before separator bytes.now }
    ensures rest { result.1.now ≡ from_first separator bytes.now }
    ensures size { length result.0.now + length result.1.now ≡ length bytes.now }
{
    let at = memchr(separator, bytes).unwrap_or(bytes.len());
    bytes.split_at(at)
}

/// What follows a separator, if one is there.
pub(crate) fn past(bytes: &[u8]) -> &[u8]
    ensures { result.now ≡ drop 1 bytes.now }
{
    match bytes {
        [_, rest @ ..] => rest,
        [] => bytes,
    }
}

/// The first line without its line feed, and what follows it; nothing where there is no line feed.
pub fn next_line(bytes: &[u8]) -> Option<(&[u8], &[u8])>
    ensures parts { MatchOption result (from_first 10 bytes.now ≡ [])
        (λ x. (x.0.now ≡ before 10 bytes.now) × (length x.1.now < length bytes.now) × (from_first 10 bytes.now ≡ 10 ∷ x.1.now)) }
{
    let (line, after) = split(b'\n', bytes);
    match after {
        [_, rest @ ..] => Some((line, rest)),
        [] => None,
    }
}

/// The first word of what begins with a space, and what follows it.
pub fn next_word(bytes: &[u8]) -> Option<(&[u8], &[u8])>
    ensures words { MatchOption result (words_in bytes.now ≡ []) (λ x. words_in bytes.now ≡ x.0.now ∷ words_in x.1.now) }
    ensures shorter { IfSome result (λ x. length x.1.now < length bytes.now) }
{
    match bytes {
        [_, rest @ ..] => Some(split(b' ', rest)),
        [] => None,
    }
}
