use super::*;
use net_values::{
    ArcNode, Document, Item, Items, NetTree, Nets, NoMemory, PageNode, PlaceNode, RefNode, Text,
    TransitionNode,
};
use std::alloc::Global;
use std::test::Fail;

// A text is a piece, so many times.
type Times<'a> = (&'a str, usize);

// A net that has one id and one name with its items. So many pages are in one another, and in the
// innermost a shape, of which each letter is an item, as `item` tells.
#[derive(Clone, Copy)]
struct Row<'a> {
    id: Times<'a>,
    name: Option<Times<'a>>,
    pages: usize,
    shape: Times<'a>,
}

// id, name, pages, shape, and whether the document is valued
const DOCUMENTS: [(
    Times<'static>,
    Option<Times<'static>>,
    usize,
    Times<'static>,
    bool,
); 48] = [
    // ids of 1 to 4,096 bytes
    (("i", 1), None, 0, ("", 0), true),
    (("i", 0), None, 0, ("", 0), false),
    (("i", 4096), None, 0, ("p", 1), true),
    (("i", 4097), None, 0, ("", 0), false),
    (("é", 2048), None, 0, ("", 0), true),
    (("é", 2049), None, 0, ("", 0), false),
    // of legal characters without spaces and control characters
    (("a b", 1), None, 0, ("", 0), false),
    (("a\tb", 1), None, 0, ("", 0), false),
    (("a\u{7F}", 1), None, 0, ("", 0), false),
    (("a\u{80}\u{A0}", 1), None, 0, ("", 0), true),
    (("a\u{FFFE}", 1), None, 0, ("", 0), false),
    (("<&\"'>", 1), None, 0, ("", 0), true),
    // names of at most 65,536 bytes of legal characters
    (("i", 1), Some(("", 0)), 1, ("", 0), true),
    (
        ("i", 1),
        Some(("a b\t\r\n\u{10FFFF}", 1)),
        0,
        ("ptrs12", 1),
        true,
    ),
    (("i", 1), Some(("x", 65_536)), 0, ("", 0), true),
    (("i", 1), Some(("x", 65_537)), 0, ("", 0), false),
    (("i", 1), Some(("a\0", 1)), 0, ("", 0), false),
    (("i", 1), Some(("a\u{FFFF}", 1)), 0, ("", 0), false),
    // markings and weights
    (("i", 1), None, 0, ("m", 1), true),
    (("i", 1), None, 0, ("2", 1), true),
    (("i", 1), None, 0, ("0", 1), false),
    // pages that match
    (("i", 1), None, 0, ("(())()", 1), true),
    (("i", 1), None, 0, ("(", 1), false),
    (("i", 1), None, 0, (")", 1), false),
    (("i", 1), None, 0, (")(", 1), false),
    (("i", 1), None, 0, ("())(()", 1), false),
    // counts
    (("i", 1), None, 0, ("()", 1024), true),
    (("i", 1), None, 0, ("()", 1025), false),
    (("i", 1), None, 0, ("pm", 1024), true),
    (("i", 1), None, 0, ("p", 2049), false),
    (("i", 1), None, 0, ("t", 2048), true),
    (("i", 1), None, 0, ("t", 2049), false),
    (("i", 1), None, 0, ("rs", 2048), true),
    (("i", 1), None, 0, ("rsr", 1366), false),
    (("i", 1), None, 0, ("1", 65_536), true),
    (("i", 1), None, 0, ("1", 65_537), false),
    (("i", 1), None, 0, ("ptrs1()", 1024), true),
    // at most 128 elements open, of which a page and an item is one, and a label two
    (("i", 1), None, 126, ("", 0), true),
    (("i", 1), None, 127, ("", 0), false),
    (("i", 1), None, 126, ("p", 1), false),
    (("i", 1), None, 125, ("ptrs1", 1), true),
    (("i", 1), None, 124, ("m", 1), false),
    (("i", 1), None, 123, ("m2", 1), true),
    (("i", 1), None, 124, ("2", 1), false),
    (("i", 1), Some(("x", 1)), 124, ("", 0), true),
    (("i", 1), Some(("x", 1)), 125, ("", 0), false),
    (("i", 1), Some(("x", 1)), 123, ("m", 1), true),
    (("i", 1), Some(("x", 1)), 124, ("p", 1), false),
];

fn text(alloc: Global, (piece, times): Times) -> Result<Text, NoMemory> {
    let mut text = Text::new(alloc);
    for _ in 0..times {
        text.push(piece)?;
    }
    Ok(text)
}

fn name(alloc: Global, times: Option<Times>) -> Result<Option<Text>, NoMemory> {
    match times {
        None => Ok(None),
        Some(times) => Ok(Some(text(alloc, times)?)),
    }
}

fn item(alloc: Global, row: Row, letter: u8) -> Result<Item, NoMemory> {
    let id = text(alloc, row.id)?;
    let name = name(alloc, row.name)?;
    let source = text(alloc, row.id)?;
    let target = text(alloc, row.id)?;
    match letter {
        b'(' => Ok(Item::Page(PageNode { id, name })),
        b'p' => Ok(Item::Place(PlaceNode {
            id,
            name,
            initial: 0,
        })),
        b'm' => Ok(Item::Place(PlaceNode {
            id,
            name,
            initial: u64::MAX,
        })),
        b't' => Ok(Item::Transition(TransitionNode { id, name })),
        b'r' => Ok(Item::RefPlace(RefNode { id, name, target })),
        b's' => Ok(Item::RefTransition(RefNode { id, name, target })),
        b'0' | b'1' | b'2' => Ok(Item::Arc(ArcNode {
            id,
            name,
            source,
            target,
            weight: (letter - b'0') as u64,
        })),
        _ => Ok(Item::PageEnd),
    }
}

fn net(alloc: Global, row: Row) -> Result<NetTree, NoMemory> {
    let mut items = Items::new(alloc);
    put(alloc, &mut items, row, ("(", row.pages))?;
    put(alloc, &mut items, row, row.shape)?;
    put(alloc, &mut items, row, (")", row.pages))?;
    Ok(NetTree {
        id: text(alloc, row.id)?,
        name: name(alloc, row.name)?,
        items,
    })
}

fn document(alloc: Global, row: Row, count: usize) -> Result<Document, NoMemory> {
    let mut nets = Nets::new(alloc);
    for _ in 0..count {
        nets.push(net(alloc, row)?)?;
    }
    Ok(Document { nets })
}

fn put(alloc: Global, items: &mut Items, row: Row, (shape, times): Times) -> Result<(), NoMemory> {
    for _ in 0..times {
        for letter in shape.as_bytes() {
            items.push(item(alloc, row, *letter)?)?;
        }
    }
    Ok(())
}

#[test]
fn valued_documents_are_told(rt: HostRuntime) -> Result<(), Fail> {
    let alloc = rt.alloc();
    for (id, name, pages, shape, valued) in DOCUMENTS {
        let row = Row {
            id,
            name,
            pages,
            shape,
        };
        assert_eq!(rt;
            is_valued(&document(alloc, row, 1)?),
            valued,
            "{pages} pages around {}",
            shape.0
        );
    }
    Ok(())
}

// so many nets, the shape of each, and whether the document is valued
const NETS: [(usize, Times<'static>, bool); 9] = [
    (0, ("", 0), false),
    (64, ("", 0), true),
    (65, ("", 0), false),
    // counts of all nets together
    (2, ("p", 1024), true),
    (2, ("p", 1025), false),
    (64, ("ptrs()", 16), true),
    (64, ("()", 17), false),
    // each net closes its own pages
    (2, ("()", 1), true),
    (2, ("(", 1), false),
];

#[test]
fn nets_are_told(rt: HostRuntime) -> Result<(), Fail> {
    let alloc = rt.alloc();
    for (count, shape, valued) in NETS {
        let row = Row {
            id: ("i", 1),
            name: None,
            pages: 0,
            shape,
        };
        assert_eq!(rt; is_valued(&document(alloc, row, count)?), valued);
    }
    Ok(())
}
