mod pieces;

use crate::{Step, TokenFault, token_at};
use pnml_grammar::{Attributes, Token};
use std::alloc::{AllocError, Global};
use std::test::Fail;

type Bytes = &'static [u8];

/// A token by its kind and its texts.
#[derive(Clone, Copy)]
enum Wanted {
    Declaration,
    Comment,
    Instruction,
    Cdata(Bytes),
    Start(Bytes, &'static [(Bytes, Bytes)]),
    Empty(Bytes, &'static [(Bytes, Bytes)]),
    End(Bytes),
    Characters(Bytes),
}

/// Bytes, the token at their front, and the offset of its end.
const TOKENS: [(Bytes, Wanted, usize); 22] = [
    (
        b"<a b='x&#10;y' c=\"p\tq\"/>",
        Wanted::Empty(b"a", &[(b"b", b"x\ny"), (b"c", b"p q")]),
        24,
    ),
    (b"p\r\nq\r<", Wanted::Characters(b"p\nq\n"), 5),
    (b"<?xml version=\"1.0\"?>", Wanted::Declaration, 21),
    (
        b"<?xml version='1.0' encoding='utf-8' standalone = \"no\" ?>x",
        Wanted::Declaration,
        57,
    ),
    (
        b"<?xml version=\"1.0\" standalone='yes'?>",
        Wanted::Declaration,
        38,
    ),
    (b"<!---->", Wanted::Comment, 7),
    (b"<!-- a - b -->c", Wanted::Comment, 14),
    (b"<?a?>", Wanted::Instruction, 5),
    (b"<?xml-stylesheet href=\"x\"?>y", Wanted::Instruction, 27),
    (b"<?a b?c>?>", Wanted::Instruction, 10),
    (b"<![CDATA[]]>", Wanted::Cdata(b""), 12),
    (b"<![CDATA[<&\r\n\r]]]>", Wanted::Cdata(b"<&\n\n]"), 18),
    (b"<a>", Wanted::Start(b"a", &[]), 3),
    (
        b"<a:b-1.c _x = 'y' >z",
        Wanted::Start(b"a:b-1.c", &[(b"_x", b"y")]),
        19,
    ),
    (b"<\xc3\xa9>", Wanted::Start(b"\xc3\xa9", &[]), 4),
    (
        b"<a b='\"' c=\"'\">",
        Wanted::Start(b"a", &[(b"b", b"\""), (b"c", b"'")]),
        15,
    ),
    (
        b"<a b=\"&amp;&#x26;&#38;&apos;&quot;&lt;&gt;\r\n\t\">",
        Wanted::Start(b"a", &[(b"b", b"&&&'\"<>  ")]),
        47,
    ),
    (b"<a/>", Wanted::Empty(b"a", &[]), 4),
    (b"</a\n>", Wanted::End(b"a"), 5),
    (
        b"a&lt;b&#x1F600;<",
        Wanted::Characters(b"a<b\xf0\x9f\x98\x80"),
        15,
    ),
    (
        b"]] >\xf4\x8f\xbf\xbf",
        Wanted::Characters(b"]] >\xf4\x8f\xbf\xbf"),
        8,
    ),
    (b"&#13;\n&#x9;", Wanted::Characters(b"\r\n\t"), 11),
];

/// Bytes at whose front no token occurs.
const NO_TOKENS: [Bytes; 48] = [
    b"<a b=\"1\" b=\"2\">",
    b"x]]>y",
    b"<!-- a -- b -->",
    b"<?xml version=\"1.1\"?>",
    b"<?xml encoding=\"UTF-8\"?>",
    b"<?xml version=\"1.0\" standalone=\"yes\" encoding=\"UTF-8\"?>",
    b"<?xml version=\"1.0\" encoding=\"latin1\"?>",
    b"<?xml?>",
    b"<?XML version=\"1.0\"?>",
    b"<?xml version=\"1.0\"encoding=\"UTF-8\"?>",
    b"<!-- a --->",
    b"<!-- a",
    b"<!-->",
    b"<?a",
    b"<?a+b?>",
    b"<? a?>",
    b"<![CDATA[a]]",
    b"<![cdata[a]]>",
    b"<1a>",
    b"< a>",
    b"<a b>",
    b"<a b=c>",
    b"<a b=\"<\">",
    b"<a b=\"1\"c=\"2\">",
    b"<a b=\"x>",
    b"<a b=\"x\xc3\">",
    b"<a",
    b"<a / >",
    b"<a/",
    b"</a b=\"1\">",
    b"</ a>",
    b"</a",
    b"a&nbsp;b",
    b"a&b",
    b"&lt",
    b"&#;",
    b"&#x;",
    b"&#X41;",
    b"&#0;",
    b"&#xFFFF;",
    b"&#xD800;",
    b"&#1114112;",
    b"a\x01",
    b"a\xef\xbf\xbf",
    b"a\xc3",
    b"a\xe2\x82",
    b"\xed\xa0\x80",
    b"<!DOCTYPE a>",
];

#[test]
fn tokens_are_read(rt: HostRuntime) -> Result<(), Fail> {
    for row in TOKENS.iter() {
        let answer = token_at(rt.alloc(), row.0, 0);
        assert!(rt; is_token(&answer, row.1, row.2), "{:?}", row.0);
    }
    Ok(())
}

#[test]
fn the_offset_of_a_bad_token_is_told(rt: HostRuntime) -> Result<(), Fail> {
    for bytes in NO_TOKENS.iter() {
        let answer = token_at(rt.alloc(), bytes, 0);
        assert!(rt; is_bad(&answer, 0), "{bytes:?}");
    }
    let inside = token_at(rt.alloc(), b"ab<", 2);
    assert!(rt; is_bad(&inside, 2));
    Ok(())
}

#[test]
fn offsets_limits_and_long_numbers_are_kept(rt: HostRuntime) -> Result<(), Fail> {
    let end = token_at(rt.alloc(), b"", 0);
    assert!(rt; matches!(end, Ok(Step::End)));
    let inside = token_at(rt.alloc(), b"ab<c>", 2);
    assert!(rt; is_token(&inside, Wanted::Start(b"c", &[]), 5));
    let longest = vec![in rt.alloc(); b'x'; 1_048_576]?;
    let answer = token_at(rt.alloc(), longest.as_slice(), 0);
    assert!(rt; ends_at(&answer, 1_048_576));
    let longer = vec![in rt.alloc(); b'x'; 1_048_577]?;
    let answer = token_at(rt.alloc(), longer.as_slice(), 0);
    assert!(rt; is_bad(&answer, 0));
    let nines = reference(rt.alloc(), b'9', b"9;")?;
    let answer = token_at(rt.alloc(), nines.as_slice(), 0);
    assert!(rt; is_bad(&answer, 0));
    let zeros = reference(rt.alloc(), b'0', b"65;")?;
    let answer = token_at(rt.alloc(), zeros.as_slice(), 0);
    assert!(rt; is_token(&answer, Wanted::Characters(b"A"), 1_005));
    Ok(())
}

/// A reference by a number that begins with a thousand of these digits.
fn reference(alloc: Global, digit: u8, end: &[u8]) -> Result<Vec<u8>, AllocError> {
    let mut text = Vec::new(alloc);
    text.extend_from_slice(b"&#")?;
    for _ in 0..1000 {
        text.push(digit)?;
    }
    text.extend_from_slice(end)?;
    Ok(text)
}

fn is_token(answer: &Result<Step, TokenFault>, wanted: Wanted, end: usize) -> bool {
    match answer {
        Ok(Step::Token(token, at)) => *at == end && is_wanted(token, wanted),
        _ => false,
    }
}

fn ends_at(answer: &Result<Step, TokenFault>, end: usize) -> bool {
    match answer {
        Ok(Step::Token(_, at)) => *at == end,
        _ => false,
    }
}

fn is_bad(answer: &Result<Step, TokenFault>, offset: u64) -> bool {
    match answer {
        Err(TokenFault::BadToken(at)) => *at == offset,
        _ => false,
    }
}

fn is_wanted(token: &Token, wanted: Wanted) -> bool {
    match (token, wanted) {
        (Token::Declaration, Wanted::Declaration) => true,
        (Token::Comment, Wanted::Comment) => true,
        (Token::Instruction, Wanted::Instruction) => true,
        (Token::Cdata(value), Wanted::Cdata(text)) => value.as_bytes() == text,
        (Token::Start(name, attributes), Wanted::Start(text, pairs)) => {
            name.as_bytes() == text && are_wanted(attributes, pairs)
        }
        (Token::Empty(name, attributes), Wanted::Empty(text, pairs)) => {
            name.as_bytes() == text && are_wanted(attributes, pairs)
        }
        (Token::End(name), Wanted::End(text)) => name.as_bytes() == text,
        (Token::Characters(value), Wanted::Characters(text)) => value.as_bytes() == text,
        _ => false,
    }
}

fn are_wanted(attributes: &Attributes, wanted: &[(Bytes, Bytes)]) -> bool {
    let attributes = attributes.as_slice();
    attributes.len() == wanted.len()
        && attributes.iter().zip(wanted.iter()).all(|(attribute, pair)| {
            attribute.name.as_bytes() == pair.0 && attribute.value.as_bytes() == pair.1
        })
}
