//! The same tokens however the input is cut, and the limit on what is held.
use super::{Bytes, NO_TOKENS, TOKENS, Wanted, is_wanted};
use crate::{TokenFault, Tokens};
use pnml_grammar::Token;
use std::process::Abort;
use std::test::Fail;

/// The lengths of the pieces.
const SIZES: [usize; 4] = [1, 2, 3, 7];

/// An input in which no front of a token ends as the whole does.
const INPUT: Bytes =
    b"<?xml version='1.0'?><!-- <a> - > --><a b='>' c=\"/>'\">t &#65;\xc3\xa9>]]<![CDATA[<]]]]]><?p >?a?><d/></a >\n";

/// Its tokens, and the offsets of their ends.
const INSIDE: [(Wanted, u64); 9] = [
    (Wanted::Declaration, 21),
    (Wanted::Comment, 37),
    (Wanted::Start(b"a", &[(b"b", b">"), (b"c", b"/>'")]), 54),
    (Wanted::Characters(b"t A\xc3\xa9>]]"), 66),
    (Wanted::Cdata(b"<]]]"), 82),
    (Wanted::Instruction, 91),
    (Wanted::Empty(b"d", &[]), 95),
    (Wanted::End(b"a"), 100),
    (Wanted::Characters(b"\n"), 101),
];

#[test]
fn a_token_is_the_same_in_pieces(rt: HostRuntime) -> Result<(), Fail> {
    for size in SIZES.iter() {
        for row in TOKENS.iter() {
            let mut tokens = Tokens::new(rt.alloc())?;
            let given = gives(&rt, &mut tokens, row.0, *size, row.1);
            assert!(rt; given && tokens.offset() == row.2 as u64, "{:?}", row.0);
        }
    }
    Ok(())
}

#[test]
fn a_bad_token_is_told_in_pieces_and_again(rt: HostRuntime) -> Result<(), Fail> {
    for size in SIZES.iter() {
        for bytes in NO_TOKENS.iter() {
            let mut tokens = Tokens::new(rt.alloc())?;
            let refused = is_refused(&rt, &mut tokens, bytes, *size);
            let again = is_refused(&rt, &mut tokens, b"<a>", 3);
            assert!(rt; refused && again && tokens.held() == 0, "{bytes:?}");
        }
    }
    Ok(())
}

#[test]
fn an_input_is_cut_anywhere(rt: HostRuntime) -> Result<(), Fail> {
    for size in SIZES.iter() {
        let mut tokens = Tokens::new(rt.alloc())?;
        for row in INSIDE.iter() {
            let rest = &INPUT[(tokens.offset() as usize).min(INPUT.len())..];
            let given = gives(&rt, &mut tokens, rest, *size, row.0);
            assert!(rt; given && tokens.offset() == row.1);
        }
    }
    Ok(())
}

#[test]
fn the_longest_token_is_held(rt: HostRuntime) -> Result<(), Fail> {
    let longest = vec![in rt.alloc(); b'x'; 1_048_576]?;
    let mut tokens = Tokens::new(rt.alloc())?;
    let held = waits(&rt, &mut tokens, longest.as_slice());
    assert!(rt; held && tokens.held() == 1_048_576);
    let refused = is_refused(&rt, &mut tokens, b"x<", 2);
    assert!(rt; refused && tokens.fed() == 1_048_576);
    Ok(())
}

#[test]
fn empty_tags_are_passed(rt: HostRuntime) -> Result<(), Fail> {
    let mut tokens = Tokens::new(rt.alloc())?;
    let first = passed(&rt, &mut tokens, b"<a b='1'/><c/>");
    let waits = waits(&rt, &mut tokens, b"<c");
    let second = passed(&rt, &mut tokens, b"<d/>");
    assert!(rt; first == Some(10) && waits && second.is_none());
    Ok(())
}

/// Whether this token is the next of the bytes, which come in pieces of this length; the input ends at their end.
fn gives(rt: &impl Abort, tokens: &mut Tokens, bytes: &[u8], size: usize, wanted: Wanted) -> bool {
    match next_token(rt, tokens, bytes, size) {
        Ok(Some(token)) => is_wanted(&token, wanted),
        _ => false,
    }
}

/// Whether a bad token at the front of the input is answered.
fn is_refused(rt: &impl Abort, tokens: &mut Tokens, bytes: &[u8], size: usize) -> bool {
    match next_token(rt, tokens, bytes, size) {
        Err(TokenFault::BadToken(0)) => true,
        _ => false,
    }
}

/// Whether a piece completes no token.
fn waits(rt: &impl Abort, tokens: &mut Tokens, piece: &[u8]) -> bool {
    match next_piece(rt, tokens, piece) {
        Ok(None) => true,
        _ => false,
    }
}

/// The end of the empty tag that is passed.
fn passed(rt: &impl Abort, tokens: &mut Tokens, piece: &[u8]) -> Option<usize> {
    assert!(rt; tokens.fed() < 1 << 32 && piece.len() < 1 << 32);
    tokens.pass_empty_tag(piece)
}

/// The next token of the bytes, which come in pieces of this length; the input ends at their end.
fn next_token(
    rt: &impl Abort,
    tokens: &mut Tokens,
    bytes: &[u8],
    size: usize,
) -> Result<Option<Token>, TokenFault> {
    for piece in bytes.chunks(size.max(1)) {
        let token = next_piece(rt, tokens, piece)?;
        if token.is_some() {
            return Ok(token);
        }
    }
    tokens.finish()
}

/// The token that a piece completes.
fn next_piece(
    rt: &impl Abort,
    tokens: &mut Tokens,
    piece: &[u8],
) -> Result<Option<Token>, TokenFault> {
    assert!(rt; tokens.fed() < 1 << 32 && piece.len() < 1 << 32);
    let fed = tokens.feed(piece)?;
    Ok(fed.token)
}
