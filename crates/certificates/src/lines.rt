ghost use Rattle.std.specs.Prelude.{◌≡◌, [], IfOk};
ghost use Rattle.certificates.specs.Lines.{bare, bound_in, claim_in, flow_in, line_in, line_of, place_in, siphon_in, split_in, term_in};
ghost use Rattle.certificates.specs.Words.{listed, words_in};

use crate::certificate::{Claim, Flow, PlaceList, TreeLine};
use crate::keywords::first_word;
use crate::line::{Keyword, Line};
use crate::numbers::{amount, flow_number, place, term};
use crate::words::{next_word, split};
use net_values::{CopyList, NoMemory};
use std::alloc::Global;

/// The line that the bytes spell, without its line feed.
#[tactic(auto, unfolding(crate::specs::Lines::line_in))]
pub(crate) fn read_line(alloc: Global, bytes: &[u8]) -> Result<Option<Line>, NoMemory>
    ensures { IfOk result (λ line. line ≡ line_in bytes.now) }
{
    let (word, rest) = split(b' ', bytes);
    match first_word(word) {
        None => Ok(None),
        Some(keyword) => line_after(alloc, keyword, rest),
    }
}

/// The line of a first word and what follows it.
fn line_after(alloc: Global, keyword: Keyword, rest: &[u8]) -> Result<Option<Line>, NoMemory>
    ensures { IfOk result (λ line. line ≡ line_of keyword (words_in rest.now)) }
{
    match keyword {
        Keyword::BoundsWord => Ok(bare(Line::OpensBounds, rest)),
        Keyword::BadSiphonWord => Ok(bare(Line::OpensBadSiphon, rest)),
        Keyword::CommonerWord => Ok(bare(Line::OpensCommoner, rest)),
        Keyword::FlowWord => flow(alloc, rest),
        Keyword::BoundWord => Ok(bound(rest)),
        Keyword::SiphonWord => siphon(alloc, rest),
        Keyword::SplitWord => Ok(split_at(rest)),
        Keyword::EmptyWord => Ok(bare(Line::Tree(TreeLine::Empty), rest)),
        Keyword::TrapWord => Ok(bare(Line::Tree(TreeLine::Trap), rest)),
        Keyword::EndWord => Ok(bare(Line::Ends, rest)),
    }
}

/// The line, where nothing follows its word.
fn bare(line: Line, rest: &[u8]) -> Option<Line>
    ensures { result ≡ bare line (words_in rest.now) }
{
    match rest {
        [] => Some(line),
        [_, ..] => None,
    }
}

/// `split` and a place.
fn split_at(rest: &[u8]) -> Option<Line>
    ensures { result ≡ split_in (words_in rest.now) }
{
    let (word, rest) = next_word(rest)?;
    match next_word(rest) {
        None => Some(Line::Tree(TreeLine::Split(place(word)?))),
        Some(_) => None,
    }
}

/// `bound`, a place, its bound and the number of a flow.
fn bound(rest: &[u8]) -> Option<Line>
    ensures { result ≡ bound_in (words_in rest.now) }
{
    let (first, rest) = next_word(rest)?;
    let (second, rest) = next_word(rest)?;
    let (third, rest) = next_word(rest)?;
    match next_word(rest) {
        None => Some(Line::Bound(claim(first, second, third)?)),
        Some(_) => None,
    }
}

/// A place, its bound and the number of a flow.
fn claim(first: &[u8], second: &[u8], third: &[u8]) -> Option<Claim>
    ensures { result ≡ claim_in first.now second.now third.now }
{
    let place = place(first)?;
    let bound = amount(0, second)?;
    let flow = flow_number(third)?;
    Some(Claim { place, bound, flow })
}

/// `flow` and one or more terms.
fn flow(alloc: Global, rest: &[u8]) -> Result<Option<Line>, NoMemory>
    ensures { IfOk result (λ line. line ≡ flow_in (words_in rest.now)) }
{
    let Some(flow) = terms(alloc, rest)? else {
        return Ok(None);
    };
    if flow.len() == 0 {
        Ok(None)
    } else {
        Ok(Some(Line::Flow(flow)))
    }
}

/// Terms in ascending order of their places.
fn terms(alloc: Global, words: &[u8]) -> Result<Option<Flow>, NoMemory>
    ensures { IfOk result (λ flow. flow ≡ listed term_in (λ term. term.0) 0 [] (words_in words.now)) }
{
    let mut flow = CopyList::new(alloc);
    let mut least = 0;
    let mut rest = words;
    'words: while let Some((word, after)) = next_word(rest) {
        let Some(term) = term(word) else {
            return Ok(None);
        };
        if term.0 < least {
            return Ok(None);
        }
        flow.push(term)?;
        least = term.0 + 1;
        rest = after;
    }
    Ok(Some(flow))
}

/// `siphon` and one or more places.
fn siphon(alloc: Global, rest: &[u8]) -> Result<Option<Line>, NoMemory>
    ensures { IfOk result (λ line. line ≡ siphon_in (words_in rest.now)) }
{
    let Some(places) = places(alloc, rest)? else {
        return Ok(None);
    };
    if places.len() == 0 {
        Ok(None)
    } else {
        Ok(Some(Line::Siphon(places)))
    }
}

/// Places in ascending order.
fn places(alloc: Global, words: &[u8]) -> Result<Option<PlaceList>, NoMemory>
    ensures { IfOk result (λ places. places ≡ listed place_in (λ place. place) 0 [] (words_in words.now)) }
{
    let mut places = CopyList::new(alloc);
    let mut least = 0;
    let mut rest = words;
    'words: while let Some((word, after)) = next_word(rest) {
        let Some(place) = place(word) else {
            return Ok(None);
        };
        if place < least {
            return Ok(None);
        }
        places.push(place)?;
        least = place + 1;
        rest = after;
    }
    Ok(Some(places))
}
