ghost use Rattle.std.specs.Prelude.{◌≡◌, ◌≤◌, ◌<◌, ◌++◌, ◌∷◌, [], ◌+◌, ◌*◌, IfOk, OnOk, map, codes};
ghost use Rattle.std.specs.List.{flat_map, range_with_len};
ghost use Rattle.struct_core.specs.Sample.{numbered, place, transition, transitions_of, arc, takes, releases, arcs_of, sample_document};

use net_values::{
    ArcNode, Document, Item, Items, NetTree, Nets, NoMemory, PageNode, PlaceNode, Text,
    TransitionNode,
};
use std::alloc::Global;

/// The net of `n` philosophers around a table, from 2 to 200, who think, take the two forks beside them, eat, and
/// lay both down (E. W. Dijkstra, "Hierarchical ordering of sequential processes", 1971).
pub fn sample_net(alloc: Global, n: u32) -> Result<Document, NoMemory>
    requires { (2 ≤ n) × (n ≤ 200) }
    ensures { IfOk result (λ document. document ≡ sample_document n) }
{
    let mut items = Items::new(alloc);
    items.push(Item::Page(PageNode {
        id: word(alloc, "page")?,
        name: None,
    }))?;
    push_places(&mut items, alloc, "think", 1, n)?;
    push_places(&mut items, alloc, "fork", 1, n)?;
    push_places(&mut items, alloc, "eat", 0, n)?;
    push_transitions(&mut items, alloc, n)?;
    push_arcs(&mut items, alloc, n)?;
    items.push(Item::PageEnd)?;
    let mut nets = Nets::new(alloc);
    nets.push(NetTree {
        id: word(alloc, "sample")?,
        name: None,
        items,
    })?;
    Ok(Document { nets })
}

/// Appends a place for each philosopher.
fn push_places(
    items: &mut Items,
    alloc: Global,
    word: &str,
    initial: u64,
    n: u32,
) -> Result<(), NoMemory>
    ensures { OnOk result (items.new ≡ items.old ++ map (place word.now initial) (range_with_len 0 n)) }
{
    for i in 0..n {
        push_place(items, alloc, word, initial, i)?;
    }
    Ok(())
}

/// Appends a place.
fn push_place(
    items: &mut Items,
    alloc: Global,
    word: &str,
    initial: u64,
    i: u32,
) -> Result<(), NoMemory>
    ensures { OnOk result (items.new ≡ items.old ++ place word.now initial i ∷ []) }
{
    items.push(Item::Place(PlaceNode {
        id: numbered(alloc, word, i)?,
        name: None,
        initial,
    }))
}

/// Appends the transitions of each philosopher.
fn push_transitions(items: &mut Items, alloc: Global, n: u32) -> Result<(), NoMemory>
    ensures { OnOk result (items.new ≡ items.old ++ flat_map transitions_of (range_with_len 0 n)) }
{
    for i in 0..n {
        push_transition(items, alloc, "take", i)?;
        push_transition(items, alloc, "release", i)?;
    }
    Ok(())
}

/// Appends a transition.
fn push_transition(items: &mut Items, alloc: Global, word: &str, i: u32) -> Result<(), NoMemory>
    ensures { OnOk result (items.new ≡ items.old ++ transition word.now i ∷ []) }
{
    items.push(Item::Transition(TransitionNode {
        id: numbered(alloc, word, i)?,
        name: None,
    }))
}

/// Appends the arcs of each philosopher.
fn push_arcs(items: &mut Items, alloc: Global, n: u32) -> Result<(), NoMemory>
    requires { n ≤ 200 }
    ensures { OnOk result (items.new ≡ items.old ++ flat_map (arcs_of n) (range_with_len 0 n)) }
{
    for i in 0..n {
        push_takes(items, alloc, i, (i + 1) % n)?;
        push_releases(items, alloc, i, (i + 1) % n)?;
    }
    Ok(())
}

/// Appends the arcs by which philosopher `i` takes the forks `i` and `j` and eats.
fn push_takes(items: &mut Items, alloc: Global, i: u32, j: u32) -> Result<(), NoMemory>
    requires { i < 200 }
    ensures { OnOk result (items.new ≡ items.old ++ takes i j) }
{
    push_arc(
        items,
        alloc,
        8 * i,
        numbered(alloc, "think", i)?,
        numbered(alloc, "take", i)?,
    )?;
    push_arc(
        items,
        alloc,
        8 * i + 1,
        numbered(alloc, "fork", i)?,
        numbered(alloc, "take", i)?,
    )?;
    push_arc(
        items,
        alloc,
        8 * i + 2,
        numbered(alloc, "fork", j)?,
        numbered(alloc, "take", i)?,
    )?;
    push_arc(
        items,
        alloc,
        8 * i + 3,
        numbered(alloc, "take", i)?,
        numbered(alloc, "eat", i)?,
    )
}

/// Appends the arcs by which the philosopher releases them and thinks.
fn push_releases(items: &mut Items, alloc: Global, i: u32, j: u32) -> Result<(), NoMemory>
    requires { i < 200 }
    ensures { OnOk result (items.new ≡ items.old ++ releases i j) }
{
    push_arc(
        items,
        alloc,
        8 * i + 4,
        numbered(alloc, "eat", i)?,
        numbered(alloc, "release", i)?,
    )?;
    push_arc(
        items,
        alloc,
        8 * i + 5,
        numbered(alloc, "release", i)?,
        numbered(alloc, "think", i)?,
    )?;
    push_arc(
        items,
        alloc,
        8 * i + 6,
        numbered(alloc, "release", i)?,
        numbered(alloc, "fork", i)?,
    )?;
    push_arc(
        items,
        alloc,
        8 * i + 7,
        numbered(alloc, "release", i)?,
        numbered(alloc, "fork", j)?,
    )
}

/// Appends an arc by its number and its ends.
fn push_arc(
    items: &mut Items,
    alloc: Global,
    k: u32,
    source: Text,
    target: Text,
) -> Result<(), NoMemory>
    ensures { OnOk result (items.new ≡ items.old ++ arc k source target ∷ []) }
{
    items.push(Item::Arc(ArcNode {
        id: numbered(alloc, "a", k)?,
        name: None,
        source,
        target,
        weight: 1,
    }))
}

/// A word and a number.
fn numbered(alloc: Global, word: &str, number: u32) -> Result<Text, NoMemory>
    ensures { IfOk result (λ text. text ≡ numbered word.now number) }
{
    let mut text = Text::new(alloc);
    text.push(word)?;
    text.push_number(u128::from(number))?;
    Ok(text)
}

/// A word.
fn word(alloc: Global, word: &str) -> Result<Text, NoMemory>
    ensures { IfOk result (λ text. text ≡ word.now) }
{
    let mut text = Text::new(alloc);
    text.push(word)?;
    Ok(text)
}
