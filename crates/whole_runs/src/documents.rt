use crate::fixture::{CHECK, Row, check_input, check_net, check_row, joined};
use crate::nets::{CYCLE, HEAD, MUTEX, REAR};
use net_values::NoMemory;
use std::alloc::Global;
use std::process::Abort;
use std::test::Fail;

const DECLARATION: &[u8] = b"<?xml version=\"1.0\" encoding=\"UTF-8\"?>";

const ONE_PAGE: &[u8] =
    b"<page id=\"g\"><place id=\"p\"><initialMarking><text>1</text></initialMarking></place><transition id=\"t\"/><arc id=\"a\" source=\"p\" target=\"t\"/></page>";

/// A document that is spelled otherwise than its canonical text wherever it may be.
const SPELLED: &[&[u8]] = &[
    b"<?xml version='1.0' encoding='utf-8'?>\n",
    b"<!-- c --><pnml xmlns='http://www.pnml.org/version-2009/grammar/pnml'>",
    b"<net type='http://www.pnml.org/version-2009/grammar/ptnet' id='n'><place id='&#112;'>",
    b"<graphics><position x='1' y='2'/></graphics>",
    b"<name><graphics/><text>a<![CDATA[<]]></text></name></place></net></pnml>\n",
];

/// What is shown, a document, and what `check` writes of it.
type InputText = (&'static str, &'static [&'static [u8]], &'static [u8]);

const COUNTED: [InputText; 9] = [
    (
        "one page",
        &[DECLARATION, HEAD, ONE_PAGE, REAR, b"\n"],
        b"places 1 transitions 1 arcs 1\n",
    ),
    (
        "no last line feed",
        &[DECLARATION, HEAD, ONE_PAGE, REAR],
        b"places 1 transitions 1 arcs 1\n",
    ),
    (
        "an empty page",
        &[DECLARATION, HEAD, b"<page id=\"g\"/>", REAR, b"\n"],
        b"places 0 transitions 0 arcs 0\n",
    ),
    ("no item", &[HEAD, REAR], b"places 0 transitions 0 arcs 0\n"),
    (
        "a byte order mark",
        &[b"\xef\xbb\xbf", DECLARATION, HEAD, ONE_PAGE, REAR],
        b"places 1 transitions 1 arcs 1\n",
    ),
    (
        "a marking of 2^64 - 1",
        &[
            HEAD,
            b"<place id=\"p\"><initialMarking><text>18446744073709551615</text></initialMarking></place>",
            REAR,
        ],
        b"places 1 transitions 0 arcs 0\n",
    ),
    (
        "a weight of 2^64 - 1",
        &[
            HEAD,
            b"<transition id=\"t\"/><place id=\"p\"/><arc id=\"a\" source=\"t\" target=\"p\"><inscription><text>18446744073709551615</text></inscription></arc>",
            REAR,
        ],
        b"places 1 transitions 1 arcs 1\n",
    ),
    (
        "a letter of two bytes in an id",
        &[HEAD, b"<place id=\"\xc3\xa9\"/>", REAR],
        b"places 1 transitions 0 arcs 0\n",
    ),
    (
        "names, graphics, a part for one tool and indentation",
        MUTEX,
        b"places 5 transitions 4 arcs 12\n",
    ),
];

#[test]
fn documents_are_counted(rt: HostRuntime) -> Result<(), Fail> {
    for (shows, input, out) in &COUNTED {
        let row = Row {
            shows: *shows,
            input: *input,
            out: *out,
            ..CHECK
        };
        check_row(&rt, rt.alloc(), &row)?;
    }
    let cycle = Row {
        shows: "no page",
        out: b"places 2 transitions 2 arcs 4\n",
        ..CHECK
    };
    Ok(check_net(&rt, rt.alloc(), &CYCLE, &cycle)?)
}

/// What is shown, the items of a net, and the same in the canonical spelling.
type Spelling = (&'static str, &'static [u8], &'static [u8]);

const WRITTEN: [Spelling; 15] = [
    ("one page", ONE_PAGE, ONE_PAGE),
    (
        "tags without content",
        b"<page id=\"g\"></page><place id=\"p\"></place>",
        b"<page id=\"g\"/><place id=\"p\"/>",
    ),
    (
        "pages in pages",
        b"<page id='g'> <page id='h'/> <page id='i'><place id='p'/></page> </page>",
        b"<page id=\"g\"><page id=\"h\"/><page id=\"i\"><place id=\"p\"/></page></page>",
    ),
    (
        "a page with a name only",
        b"<page id=\"g\"><name><text>x</text></name></page>",
        b"<page id=\"g\"><name><text>x</text></name></page>",
    ),
    (
        "an empty name and none",
        b"<place id=\"p\"><name><text/></name></place><place id=\"q\"><name/></place>",
        b"<place id=\"p\"><name><text/></name></place><place id=\"q\"/>",
    ),
    (
        "white space and zeros in front of a number",
        b"<place id=\"p\"><initialMarking><text> 007 </text></initialMarking></place>",
        b"<place id=\"p\"><initialMarking><text>7</text></initialMarking></place>",
    ),
    (
        "a written marking of 0 and one without a number",
        b"<place id=\"p\"><initialMarking><text>0</text></initialMarking></place><place id=\"q\"><initialMarking/></place>",
        b"<place id=\"p\"/><place id=\"q\"/>",
    ),
    (
        "a written weight of 1, and one in front of a name",
        b"<place id=\"p\"/><transition id=\"t\"/><arc id=\"a\" source=\"p\" target=\"t\"><inscription><text>1</text></inscription></arc><arc id=\"b\" source=\"t\" target=\"p\"><inscription><text>2</text></inscription><name><text>x</text></name></arc>",
        b"<place id=\"p\"/><transition id=\"t\"/><arc id=\"a\" source=\"p\" target=\"t\"/><arc id=\"b\" source=\"t\" target=\"p\"><name><text>x</text></name><inscription><text>2</text></inscription></arc>",
    ),
    (
        "references to characters",
        b"<place id=\"&#xE9;\"><name><text>&lt;&#38;&#x3e;&quot;&apos;&#9;&#10;&#13;</text></name></place>",
        b"<place id=\"\xc3\xa9\"><name><text>&lt;&amp;&gt;&quot;'&#9;&#10;&#13;</text></name></place>",
    ),
    (
        "line ends in a name",
        b"<place id=\"p\"><name><text>a\r\nb\rc</text></name></place>",
        b"<place id=\"p\"><name><text>a&#10;b&#10;c</text></name></place>",
    ),
    (
        "attributes in another order",
        b"<place id=\"p\"/><transition id=\"t\"/><arc target=\"t\" source=\"p\" id=\"a\"/>",
        b"<place id=\"p\"/><transition id=\"t\"/><arc id=\"a\" source=\"p\" target=\"t\"/>",
    ),
    (
        "comments, instructions and white space",
        b" <!-- c --><place id=\"p\" ><?i?></place >\t<?x y?>\r\n<transition id = \"t\" />",
        b"<place id=\"p\"/><transition id=\"t\"/>",
    ),
    (
        "attributes that are ignored",
        b"<place id=\"p\" x:y=\"z\" xmlns=\"http://www.pnml.org/version-2009/grammar/pnml\"/>",
        b"<place id=\"p\"/>",
    ),
    (
        "parts that are skipped",
        b"<toolspecific tool=\"x\"><place id=\"p\"/>y<![CDATA[<]]></toolspecific><place id=\"p\"><graphics/></place>",
        b"<place id=\"p\"/>",
    ),
    (
        "references of both kinds",
        b"<referenceTransition ref=\"t\" id=\"s\"/><referencePlace id=\"r\" ref=\"p\"></referencePlace><place id=\"p\"/><transition id=\"t\"/>",
        b"<referenceTransition id=\"s\" ref=\"t\"/><referencePlace id=\"r\" ref=\"p\"/><place id=\"p\"/><transition id=\"t\"/>",
    ),
];

/// Runs `canon` on an input, and again on what it writes, which is the canonical text of a net with these
/// items.
fn written(
    rt: &impl Abort,
    alloc: Global,
    shows: &'static str,
    input: &[&[u8]],
    pieces: &'static [usize],
    items: &[u8],
) -> Result<(), NoMemory> {
    let row = Row {
        shows,
        words: &["canon"],
        pieces,
        ..CHECK
    };
    let wanted = joined(alloc, &[DECLARATION, HEAD, items, REAR, b"\n"])?;
    let again = joined(alloc, &[wanted.as_slice()])?;
    check_input(rt, alloc, &row, joined(alloc, input)?, wanted.as_slice())?;
    check_input(rt, alloc, &row, again, wanted.as_slice())
}

#[test]
fn documents_are_written_canonically(rt: HostRuntime) -> Result<(), Fail> {
    for (shows, items, canonical) in &WRITTEN {
        written(
            &rt,
            rt.alloc(),
            *shows,
            &[HEAD, *items, REAR],
            &[],
            *canonical,
        )?;
    }
    let canonical = b"<place id=\"p\"><name><text>a&lt;</text></name></place>";
    written(&rt, rt.alloc(), "another spelling", SPELLED, &[], canonical)?;
    Ok(written(
        &rt,
        rt.alloc(),
        "another spelling in bytes",
        SPELLED,
        &[1],
        canonical,
    )?)
}
