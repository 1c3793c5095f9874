ghost use Rattle.std.specs.Prelude.{◌≡◌, ◌++◌, ◌≤◌, ◌<◌, ◌↔◌, IfOk, IsTrue, MatchOption, codes, length, map};
ghost use Rattle.net_values.specs.PlaceSets.{IsEmpty};
ghost use Rattle.certificates.specs.Words.{words_in};
ghost use Rattle.branch_resume.specs.Tokens.{places_of, signed};
ghost use Rattle.branch_resume.specs.Lines.{IsPlaceText, IsSignedPlace, NamesClass, NamesNone, NoPlaceText, NoSignedPlace, StopsAfter};

use crate::disjoint::have_common;
use certificates::{next_word, place, split};
use net_values::{MAX_PLACES, NoMemory, PlaceSet};
use siphon_branch::Branch;
use std::alloc::Global;

/// The class of sets of this size that a line names, without its line feed.
pub(crate) fn read_class(
    alloc: Global,
    size: usize,
    line: &[u8],
) -> Result<Option<Branch>, NoMemory>
    requires { size ≤ MAX_PLACES }
    ensures { IfOk result (λ class. MatchOption class (NamesNone size line.now) (NamesClass size line.now)) }
{
    let (word, rest) = split(b' ', line);
    if !is_class_word(word) {
        return Ok(None);
    }
    let mut contains = PlaceSet::new(alloc, size)?;
    let mut avoids = PlaceSet::new(alloc, size)?;
    let rest = take_places(b'+', rest, &mut contains);
    let rest = take_places(b'-', rest, &mut avoids);
    if rest.is_empty() && !have_common(&contains, &avoids) {
        Ok(Some(Branch { contains, avoids }))
    } else {
        Ok(None)
    }
}

/// Whether the word is the one with which the line of a class begins.
fn is_class_word(word: &[u8]) -> bool
    ensures { IsTrue result ↔ word.now ≡ codes "class" }
{
    word == b"class".as_slice()
}

/// Puts into an empty set the ascending places of the words at the front that have this sign, and gives what
/// follows them.
fn take_places<'b>(sign: u8, words: &'b [u8], set: &mut PlaceSet) -> &'b [u8]
    requires empty { IsEmpty set.old }
    requires size { length set.old ≤ MAX_PLACES }
    ensures size { length set.new ≡ length set.old }
    ensures words { words_in words.now ≡ map (signed sign) (places_of set.new) ++ words_in result.now }
    ensures stops { StopsAfter sign set.new (words_in result.now) }
{
    let mut least = 0;
    let mut left = words;
    'words: while let Some((word, after)) = next_word(left) {
        let Some(p) = signed_place(sign, least, set.size(), word) else {
            return left;
        };
        set.insert(p);
        least = p + 1;
        left = after;
    }
    left
}

/// The place from the least to below the limit that a word names after this sign.
fn signed_place(sign: u8, least: usize, limit: usize, word: &[u8]) -> Option<usize>
    requires { limit ≤ MAX_PLACES }
    ensures { MatchOption result (NoSignedPlace sign least limit word.now) (IsSignedPlace sign least limit word.now) }
{
    match word {
        [first, number @ ..] if *first == sign => place_from(least, limit, number),
        _ => None,
    }
}

/// The place from the least to below the limit whose number the text is.
fn place_from(least: usize, limit: usize, text: &[u8]) -> Option<usize>
    requires { limit ≤ MAX_PLACES }
    ensures { MatchOption result (NoPlaceText least limit text.now) (IsPlaceText least limit text.now) }
{
    let p = place(text)? as usize;
    if least <= p && p < limit {
        Some(p)
    } else {
        None
    }
}
