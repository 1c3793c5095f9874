use super::*;
use net_values::{
    ArcNode, Document, Item, Items, NetTree, Nets, NoMemory, PageNode, PlaceNode, RefNode, Text,
    TransitionNode,
};
use std::alloc::Global;
use std::process::Abort;
use std::test::Fail;

// A net or an item as a row tells it: its id and its name, and what else it has.
#[derive(Clone, Copy)]
struct Named<'a>(&'a str, Option<&'a str>);

#[derive(Clone, Copy)]
enum Told<'a> {
    Page(Named<'a>),
    PageEnd,
    Place(Named<'a>, u64),
    Transition(Named<'a>),
    RefPlace(Named<'a>, &'a str),
    RefTransition(Named<'a>, &'a str),
    Arc(Named<'a>, &'a str, &'a str, u64),
}

fn text(alloc: Global, value: &str) -> Result<Text, NoMemory> {
    let mut text = Text::new(alloc);
    text.push(value)?;
    Ok(text)
}

fn name(alloc: Global, value: Option<&str>) -> Result<Option<Text>, NoMemory> {
    match value {
        None => Ok(None),
        Some(value) => Ok(Some(text(alloc, value)?)),
    }
}

fn reference(alloc: Global, node: Named, target: &str) -> Result<RefNode, NoMemory> {
    Ok(RefNode {
        id: text(alloc, node.0)?,
        name: name(alloc, node.1)?,
        target: text(alloc, target)?,
    })
}

fn item(alloc: Global, told: &Told) -> Result<Item, NoMemory> {
    match *told {
        Told::Page(page) => Ok(Item::Page(PageNode {
            id: text(alloc, page.0)?,
            name: name(alloc, page.1)?,
        })),
        Told::PageEnd => Ok(Item::PageEnd),
        Told::Place(place, initial) => Ok(Item::Place(PlaceNode {
            id: text(alloc, place.0)?,
            name: name(alloc, place.1)?,
            initial,
        })),
        Told::Transition(transition) => Ok(Item::Transition(TransitionNode {
            id: text(alloc, transition.0)?,
            name: name(alloc, transition.1)?,
        })),
        Told::RefPlace(node, target) => Ok(Item::RefPlace(reference(alloc, node, target)?)),
        Told::RefTransition(node, target) => {
            Ok(Item::RefTransition(reference(alloc, node, target)?))
        }
        Told::Arc(arc, source, target, weight) => Ok(Item::Arc(ArcNode {
            id: text(alloc, arc.0)?,
            name: name(alloc, arc.1)?,
            source: text(alloc, source)?,
            target: text(alloc, target)?,
            weight,
        })),
    }
}

fn net(alloc: Global, net: Named, told: &[Told]) -> Result<NetTree, NoMemory> {
    let mut items = Items::new(alloc);
    for row in told {
        items.push(item(alloc, row)?)?;
    }
    Ok(NetTree {
        id: text(alloc, net.0)?,
        name: name(alloc, net.1)?,
        items,
    })
}

// Compares the canonical text of a document of one net with the net's own.
fn check(
    rt: &impl Abort,
    alloc: Global,
    named: Named,
    told: &[Told],
    wanted: &str,
) -> Result<(), NoMemory> {
    let mut nets = Nets::new(alloc);
    nets.push(net(alloc, named, told)?)?;
    check_nets(rt, alloc, nets, wanted)
}

// Compares a document's canonical text with that of its nets, put into the frame that every document has.
fn check_nets(rt: &impl Abort, alloc: Global, nets: Nets, wanted: &str) -> Result<(), NoMemory> {
    let mut whole = text(
        alloc,
        "<?xml version=\"1.0\" encoding=\"UTF-8\"?><pnml xmlns=\"http://www.pnml.org/version-2009/grammar/pnml\">",
    )?;
    whole.push(wanted)?;
    whole.push("</pnml>\n")?;
    let written = canonical(alloc, &Document { nets })?;
    assert_eq!(rt; written.as_bytes(), whole.as_bytes());
    Ok(())
}

#[test]
fn canonical_text_spells_every_document(rt: HostRuntime) -> Result<(), Fail> {
    let alloc = rt.alloc();
    let plain = Named("n", None);
    check(
        &rt,
        alloc,
        plain,
        &[],
        "<net id=\"n\" type=\"http://www.pnml.org/version-2009/grammar/ptnet\"/>",
    )?;
    check(
        &rt,
        alloc,
        Named("a&\"b", Some("")),
        &[],
        "<net id=\"a&amp;&quot;b\" type=\"http://www.pnml.org/version-2009/grammar/ptnet\"><name><text/></name></net>",
    )?;
    check(
        &rt,
        alloc,
        Named("n", Some("net")),
        &[
            Told::Page(plain),
            Told::Place(Named("p", Some("a place")), 1),
            Told::Place(Named("q", None), 0),
            Told::Place(Named("r", None), u64::MAX),
            Told::Place(Named("s", Some("")), 0),
            Told::Transition(Named("t", None)),
            Told::Transition(Named("u", Some("x"))),
            Told::RefPlace(Named("v", None), "p"),
            Told::RefTransition(Named("w", Some("x")), "t"),
            Told::Arc(Named("a", None), "p", "t", 1),
            Told::Arc(Named("b", None), "t", "q", 2),
            Told::Arc(Named("c", Some("x")), "q", "u", 1),
            Told::Arc(Named("d", Some("x")), "u", "p", u64::MAX),
            Told::PageEnd,
        ],
        "<net id=\"n\" type=\"http://www.pnml.org/version-2009/grammar/ptnet\"><name><text>net</text></name><page id=\"n\"><place id=\"p\"><name><text>a place</text></name><initialMarking><text>1</text></initialMarking></place><place id=\"q\"/><place id=\"r\"><initialMarking><text>18446744073709551615</text></initialMarking></place><place id=\"s\"><name><text/></name></place><transition id=\"t\"/><transition id=\"u\"><name><text>x</text></name></transition><referencePlace id=\"v\" ref=\"p\"/><referenceTransition id=\"w\" ref=\"t\"><name><text>x</text></name></referenceTransition><arc id=\"a\" source=\"p\" target=\"t\"/><arc id=\"b\" source=\"t\" target=\"q\"><inscription><text>2</text></inscription></arc><arc id=\"c\" source=\"q\" target=\"u\"><name><text>x</text></name></arc><arc id=\"d\" source=\"u\" target=\"p\"><name><text>x</text></name><inscription><text>18446744073709551615</text></inscription></arc></page></net>",
    )?;
    check(
        &rt,
        alloc,
        plain,
        &[Told::Place(Named("&é<>\"\t\n\r'", Some("<&amp;>\r\n")), 0)],
        "<net id=\"n\" type=\"http://www.pnml.org/version-2009/grammar/ptnet\"><place id=\"&amp;é&lt;&gt;&quot;&#9;&#10;&#13;'\"><name><text>&lt;&amp;amp;&gt;&#13;&#10;</text></name></place></net>",
    )?;
    check(
        &rt,
        alloc,
        plain,
        &[
            Told::Page(Named("a", Some("outer"))),
            Told::Page(Named("b", None)),
            Told::Transition(Named("t", None)),
            Told::Page(Named("c", None)),
            Told::PageEnd,
            Told::PageEnd,
            Told::Page(Named("d", Some("empty"))),
            Told::PageEnd,
            Told::PageEnd,
        ],
        "<net id=\"n\" type=\"http://www.pnml.org/version-2009/grammar/ptnet\"><page id=\"a\"><name><text>outer</text></name><page id=\"b\"><transition id=\"t\"/><page id=\"c\"/></page><page id=\"d\"><name><text>empty</text></name></page></page></net>",
    )?;
    Ok(())
}

#[test]
fn nets_are_written_in_order(rt: HostRuntime) -> Result<(), Fail> {
    let alloc = rt.alloc();
    let mut nets = Nets::new(alloc);
    nets.push(net(alloc, Named("n", Some("one")), &[])?)?;
    nets.push(net(alloc, Named("m", None), &[Told::Place(Named("p", None), 0)])?)?;
    check_nets(
        &rt,
        alloc,
        nets,
        "<net id=\"n\" type=\"http://www.pnml.org/version-2009/grammar/ptnet\"><name><text>one</text></name></net><net id=\"m\" type=\"http://www.pnml.org/version-2009/grammar/ptnet\"><place id=\"p\"/></net>",
    )?;
    Ok(())
}
