//! A number of a name, by which names that are numbered in order are told to be distinct in one pass: its length,
//! and then its last bytes.

ghost use Rattle.std.specs.Prelude.{◌≡◌, IsTrue, [], true, map};
ghost use Rattle.pnml_grammar.specs.Reading.{are_new, raw_attribute_name};
ghost use Rattle.pnml_token.specs.Ranks.{rank, tail_from};
ghost use Rattle.pnml_token.specs.Views.{views};

use crate::attributes::RawAttribute;

/// How many numbers eight bytes have.
const TAILS: u128 = 1 << 64;

/// Whether each name has a greater number than the one before. Then no name repeats another.
pub(crate) fn do_ascend(raw_attributes: &[RawAttribute<'_>]) -> bool
    ensures { IsTrue result → are_new [] (map raw_attribute_name (views raw_attributes.now)) ≡ true }
{
    let mut last = 0;
    for raw_attribute in raw_attributes {
        let next = rank(raw_attribute.name);
        if next <= last {
            return false;
        }
        last = next;
    }
    true
}

/// The number of a name.
pub(crate) fn rank(name: &[u8]) -> u128
    ensures { result ≡ rank name.now }
{
    (name.len() as u128) * TAILS + tail(name) as u128
}

/// The last eight bytes as a number.
fn tail(name: &[u8]) -> u64
    ensures { result ≡ tail_from 0 name.now }
{
    let mut tail: u64 = 0;
    for byte in name {
        tail = tail.wrapping_mul(256).wrapping_add(*byte as u64);
    }
    tail
}
