ghost use Rattle.std.specs.Prelude.{◌≡◌, ◌+◌, IfOk, IfErr};
ghost use Rattle.std.specs.List.{AllByRecursion, AllZip};
ghost use Rattle.pnml_grammar.specs.Valued.{Valued};
ghost use Rattle.page_flatten.specs.Elements.{entries};
ghost use Rattle.page_flatten.specs.Rules.{BreaksNoRule, IsAnswered, HasDistinctIds, JoinsArcs};
ghost use Rattle.page_flatten.specs.Flat.{Flat, FlatOf};
ghost use Rattle.page_flatten.specs.Passes.{AreNumbered, FitsLimits, NamesMisjoined, NamesWrongArc, IsFlatAt};
ghost use Rattle.page_flatten.specs.Tables.{AreSettled};

use crate::arcs::add_arcs;
use crate::chains::settle_all;
use crate::fault::FlatFault;
use crate::links::{Link, Links};
use crate::nodes::net_of_nodes;
use crate::numbered::numbered_nets;
use crate::numbers::Numbers;
use crate::rules::{NameRule, check_names};
use net_values::{Document, FlatNet, List, NetTree, Nets};
use std::alloc::Global;

/// The flat net of the net of this number in a document, counted from 0 (ISO/IEC 15909-2): places
/// and transitions in document order, with their ids and initial markings, and between a place and
/// a transition the sum of the weights of all arcs whose resolved ends they are. A place or a
/// transition resolves to itself, a reference node to what the node that its `ref` names resolves
/// to. Arcs may join nodes of different pages.
///
/// Refused, besides out of memory, exactly where one of these rules is broken in some net of the
/// document, the first of them:
/// 1. `DuplicateId`: ids are unique in the document; nets, pages, nodes and arcs are counted.
/// 2. `UnknownId`: each `ref`, `source` and `target` is the id of a node of the same net.
/// 3. `RefKind`: a reference place names a place or a reference place, a reference transition
///    likewise.
/// 4. `RefCycle`: each chain of references ends.
/// 5. `ArcEnds`: the resolved ends of each arc are one place and one transition.
///
/// or, where no rule is broken, `NoNet`: the document has no net of this number.
pub fn flatten(alloc: Global, document: &Document, net: usize) -> Result<FlatNet, FlatFault>
    requires { Valued document.now }
    ensures ok { IfOk result (λ flat. BreaksNoRule document.now × Flat document.now (net + 1) flat) }
    ensures fault { IfErr result (IsAnswered document.now net) }
{
    let nets = &document.nets;
    let tables = numbered_nets(alloc, nets)?;
    check_names(alloc, nets, &tables, NameRule::Mentions)?;
    check_names(alloc, nets, &tables, NameRule::Kinds)?;
    let links = settle_all(alloc, nets, &tables)?;
    chosen_net(alloc, nets, &tables, &links, net)
}

/// The flat net of the net of this number, where the arcs of each net join a place and a transition.
/// The first arc that doesn't is refused.
fn chosen_net(
    alloc: Global,
    nets: &Nets,
    tables: &List<Numbers<'_>>,
    links: &List<Links>,
    number: usize,
) -> Result<FlatNet, FlatFault>
    requires numbered { AreNumbered nets.now tables.now }
    requires settled { AllZip AreSettled nets.now links.now }
    requires fits { AllByRecursion FitsLimits nets.now }
    ensures joins { IfOk result (λ flat. AllByRecursion JoinsArcs nets.now) }
    ensures flat { IfOk result (IsFlatAt nets.now number) }
    ensures fault { IfErr result (NamesMisjoined nets.now number) }
{
    let mut chosen = None;
    for k in 0..nets.len() {
        let flat = flat_net(alloc, nets.get(k), tables.get(k), links.get(k).as_slice())?;
        if k == number {
            chosen = Some(flat);
        }
    }
    match chosen {
        Some(flat) => Ok(flat),
        None => Err(FlatFault::NoNet(nets.len())),
    }
}

/// The flat net of a net, where each arc joins a place and a transition. The first arc that doesn't is
/// refused.
fn flat_net(
    alloc: Global,
    net: &NetTree,
    numbers: &Numbers<'_>,
    links: &[Link],
) -> Result<FlatNet, FlatFault>
    requires numbered { numbers.now ≡ entries net.now }
    requires distinct { HasDistinctIds net.now }
    requires settled { AreSettled net.now links.now }
    requires fits { FitsLimits net.now }
    ensures joins { IfOk result (λ flat. JoinsArcs net.now) }
    ensures flat { IfOk result (FlatOf net.now) }
    ensures fault { IfErr result (NamesWrongArc net.now) }
{
    let items = net.items.as_slice();
    let mut flat = net_of_nodes(alloc, items)?;
    add_arcs(alloc, items, numbers, links, &mut flat)?;
    Ok(flat)
}
