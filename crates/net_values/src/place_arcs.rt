ghost use Rattle.std.specs.Prelude.{◌≡◌, [], ◌+◌, ◌<◌, ◌^◌, IfOk, OnOk, OnErr, vec_capacity, vec_len};
ghost use Rattle.net_values.specs.Columns.{AddsAt, weight_at};
ghost use Rattle.net_values.specs.PlaceArcs.{ArcLists, AreArcLists, HasOneMore, IsAscending, arcs_turned};

use crate::column::Column;
use crate::no_memory::NoMemory;
use std::alloc::Global;
use std::marker::Model;

/// The transitions that the arcs of one place join it to: those that take from it and those that give to
/// it, each list in ascending order.
#[derive(Drop)]
pub struct PlaceArcs {
    takers: Vec<usize>,
    givers: Vec<usize>,
}

impl Model for PlaceArcs {
    ghost use Rattle.net_values.specs.PlaceArcs.{ArcLists, AreArcLists};

    ghost Value = { ArcLists };

    ghost view = { λ a. record { takers = a.takers.items; givers = a.givers.items } };

    ghost invariant = { λ a. AreArcLists record { takers = a.takers.items; givers = a.givers.items } };
}

impl PlaceArcs {
    /// A place without arcs, which takes no memory until it gets one.
    pub(crate) fn new(alloc: Global) -> PlaceArcs
        ensures { result ≡ record { takers = []; givers = [] } }
    {
        PlaceArcs {
            takers: Vec::new(alloc),
            givers: Vec::new(alloc),
        }
    }

    /// The transitions with an arc from the place, in ascending order.
    pub(crate) fn takers(&self) -> &[usize]
        ensures value { result.now ≡ self.now.takers }
        ensures lists { AreArcLists self.now }
    {
        self.takers.as_slice()
    }

    /// The transitions with an arc to the place, in ascending order.
    pub(crate) fn givers(&self) -> &[usize]
        ensures value { result.now ≡ self.now.givers }
        ensures lists { AreArcLists self.now }
    {
        self.givers.as_slice()
    }

    /// Adds an arc to transition `t`, whose column of input places gets the weight at place `p`. A refusal
    /// leaves both unchanged.
    pub(crate) fn add_taker(
        &mut self,
        t: usize,
        inputs: &mut Column,
        p: usize,
        weight: u128,
    ) -> Result<(), NoMemory>
        requires positive { 0 < weight }
        requires fits { weight_at inputs.old p + weight < 2 ^ 128 }
        ensures weight { OnOk result (AddsAt inputs.old inputs.new p weight) }
        ensures taker { OnOk result (HasOneMore self.old.takers self.new.takers t) }
        ensures givers { self.new.givers ≡ self.old.givers }
        ensures err { OnErr result ((inputs.new ≡ inputs.old) × (self.new ≡ self.old)) }
    {
        join(&mut self.takers, t, inputs, p, weight)
    }

    /// Adds an arc from transition `t`, whose column of output places gets the weight at place `p`. A refusal
    /// leaves both unchanged.
    pub(crate) fn add_giver(
        &mut self,
        t: usize,
        outputs: &mut Column,
        p: usize,
        weight: u128,
    ) -> Result<(), NoMemory>
        requires positive { 0 < weight }
        requires fits { weight_at outputs.old p + weight < 2 ^ 128 }
        ensures weight { OnOk result (AddsAt outputs.old outputs.new p weight) }
        ensures giver { OnOk result (HasOneMore self.old.givers self.new.givers t) }
        ensures takers { self.new.takers ≡ self.old.takers }
        ensures err { OnErr result ((outputs.new ≡ outputs.old) × (self.new ≡ self.old)) }
    {
        join(&mut self.givers, t, outputs, p, weight)
    }

    /// The place with its arcs turned round.
    pub(crate) fn turned(&self, alloc: Global) -> Result<PlaceArcs, NoMemory>
        ensures { IfOk result (λ other. other ≡ arcs_turned self.now) }
    {
        Ok(PlaceArcs {
            takers: Vec::from_slice(alloc, self.givers.as_slice())?,
            givers: Vec::from_slice(alloc, self.takers.as_slice())?,
        })
    }
}

/// Adds to the weight of a place in the column of transition `t`, and lists the transition. There is room in
/// the list before the column changes, so that a refusal leaves both unchanged.
fn join(
    list: &mut Vec<usize>,
    t: usize,
    column: &mut Column,
    p: usize,
    weight: u128,
) -> Result<(), NoMemory>
    requires ascending { IsAscending list.old.items }
    requires positive { 0 < weight }
    requires fits { weight_at column.old p + weight < 2 ^ 128 }
    ensures weight { OnOk result (AddsAt column.old column.new p weight) }
    ensures listed { OnOk result (HasOneMore list.old.items list.new.items t) }
    ensures ascending { IsAscending list.new.items }
    ensures err { OnErr result ((column.new ≡ column.old) × (list.new.items ≡ list.old.items)) }
{
    list.reserve(1)?;
    column.add(p, weight)?;
    insert(list, t);
    Ok(())
}

/// Puts a number into an ascending list where it isn't there yet. There is room for it.
fn insert(list: &mut Vec<usize>, number: usize)
    requires ascending { IsAscending list.old.items }
    requires room { vec_len list.old < vec_capacity list.old }
    ensures ascending { IsAscending list.new.items }
    ensures members { HasOneMore list.old.items list.new.items number }
{
    if let Err(k) = list.as_slice().binary_search(&number) {
        let _ = list.insert(k, number);
    }
}
