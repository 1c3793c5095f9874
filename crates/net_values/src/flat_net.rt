ghost use Rattle.std.specs.Prelude.{◌≡◌, IfOk, map};
ghost use Rattle.net_values.specs.FlatNets.{turned};
ghost use Rattle.net_values.specs.PlaceArcs.{arcs_turned};

use crate::column::{Column, WeightedPlace};
use crate::limits::{MAX_ARCS, MAX_PLACES, MAX_TRANSITIONS};
use crate::no_memory::NoMemory;
use crate::node_kind::NodeKind;
use crate::place_arcs::PlaceArcs;
use crate::text::Text;
use std::alloc::Global;
use std::marker::Model;

/// A place of a flat net: its id and its initial marking in tokens.
#[derive(Drop)]
pub struct FlatPlace {
    pub id: Text,
    pub initial: u64,
}

/// A transition of a flat net: its id, and the weights of the arcs to it and from it.
#[derive(Drop)]
pub struct FlatTransition {
    pub id: Text,
    pub inputs: Column,
    pub outputs: Column,
}

/// A place/transition net (ISO/IEC 15909-1) with at most `MAX_PLACES` places, `MAX_TRANSITIONS`
/// transitions and `MAX_ARCS` arcs. Contracts see its places and transitions in order and the number
/// of arcs that were added. The arcs are kept twice, by transition and by place.
#[derive(Drop)]
pub struct FlatNet {
    places: Vec<FlatPlace>,
    transitions: Vec<FlatTransition>,
    arcs: usize,
    by_place: Vec<PlaceArcs>,
}

impl Model for FlatNet {
    ghost use Rattle.net_values.specs.FlatNets.{NetLists, IsKeptTwice};

    ghost Value = { NetLists };

    ghost view = { λ n. record {
      places = n.places.items;
      transitions = n.transitions.items;
      arcs = n.arcs;
    } };

    ghost invariant = { λ n. IsKeptTwice record {
      places = n.places.items;
      transitions = n.transitions.items;
      arcs = n.arcs;
    } n.by_place.items };
}

impl FlatNet {
    ghost use Rattle.std.specs.Prelude.{◌≡◌, [], ◌<◌, ◌≤◌, ◌^◌, IfOk, OnOk, OnErr, All, length};
    ghost use Rattle.net_values.specs.Columns.{Lists};
    ghost use Rattle.net_values.specs.FlatNets.{net_of, place_at, transition_at, with_place, with_transition};
    ghost use Rattle.net_values.specs.FlatNets.{IsFlatNet, AddsInput, AddsOutput, KeepsNodes};
    ghost use Rattle.net_values.specs.Net.{reversed};
    ghost use Rattle.net_values.specs.PlaceArcs.{ListsPositive};
    ghost use Rattle.net_values.specs.Nodes.{node_count, node_id};

    /// The empty net, which takes no memory until it grows.
    pub fn new(alloc: Global) -> FlatNet
        ensures { result ≡ record { places = []; transitions = []; arcs = 0 } }
    {
        FlatNet {
            places: Vec::new(alloc),
            transitions: Vec::new(alloc),
            arcs: 0,
            by_place: Vec::new(alloc),
        }
    }

    /// Appends a place with its initial marking. A refusal leaves the net unchanged and drops the
    /// id.
    pub fn add_place(&mut self, id: Text, initial: u64) -> Result<(), NoMemory>
        requires { length self.old.places < MAX_PLACES }
        ensures ok { OnOk result (self.new ≡ with_place self.old id initial) }
        ensures err { OnErr result (self.new ≡ self.old) }
    {
        self.by_place.reserve(1)?;
        self.places.push(FlatPlace { id, initial })?;
        let alloc = *self.by_place.allocator();
        self.by_place.push_reserved(PlaceArcs::new(alloc));
        Ok(())
    }

    /// Appends a transition without arcs. A refusal leaves the net unchanged and drops the id.
    pub fn add_transition(&mut self, id: Text) -> Result<(), NoMemory>
        requires { length self.old.transitions < MAX_TRANSITIONS }
        ensures ok { OnOk result (self.new ≡ with_transition self.old id) }
        ensures err { OnErr result (self.new ≡ self.old) }
    {
        let alloc = *self.transitions.allocator();
        self.transitions.push(FlatTransition {
            id,
            inputs: Column::new(alloc),
            outputs: Column::new(alloc),
        })?;
        Ok(())
    }

    /// Adds an arc from place `p` to transition `t`: its weight is added to that of the arcs that
    /// join them already. A refusal leaves the net unchanged.
    pub fn add_input(&mut self, p: usize, t: usize, weight: u64) -> Result<(), NoMemory>
        requires place { p < (net_of self.old).places }
        requires transition { t < (net_of self.old).transitions }
        requires positive { 1 ≤ weight }
        requires room { self.old.arcs < MAX_ARCS }
        ensures ok { OnOk result (AddsInput self.old self.new p t weight) }
        ensures err { OnErr result (self.new ≡ self.old) }
    {
        let inputs = &mut self.transitions[t].inputs;
        self.by_place[p].add_taker(t, inputs, p, u128::from(weight))?;
        self.arcs += 1;
        Ok(())
    }

    /// Adds an arc from transition `t` to place `p`: its weight is added to that of the arcs that
    /// join them already. A refusal leaves the net unchanged.
    pub fn add_output(&mut self, t: usize, p: usize, weight: u64) -> Result<(), NoMemory>
        requires place { p < (net_of self.old).places }
        requires transition { t < (net_of self.old).transitions }
        requires positive { 1 ≤ weight }
        requires room { self.old.arcs < MAX_ARCS }
        ensures ok { OnOk result (AddsOutput self.old self.new t p weight) }
        ensures err { OnErr result (self.new ≡ self.old) }
    {
        let outputs = &mut self.transitions[t].outputs;
        self.by_place[p].add_giver(t, outputs, p, u128::from(weight))?;
        self.arcs += 1;
        Ok(())
    }

    /// The number of places, which is at most `MAX_PLACES`.
    pub fn places(&self) -> usize
        ensures value { result ≡ (net_of self.now).places }
        ensures limits { IsFlatNet self.now }
    {
        self.places.len()
    }

    /// The number of transitions, which is at most `MAX_TRANSITIONS`.
    pub fn transitions(&self) -> usize
        ensures value { result ≡ (net_of self.now).transitions }
        ensures limits { IsFlatNet self.now }
    {
        self.transitions.len()
    }

    /// The number of arcs that were added, which is at most `MAX_ARCS`.
    pub fn arcs(&self) -> usize
        ensures value { result ≡ self.now.arcs }
        ensures limits { IsFlatNet self.now }
    {
        self.arcs
    }

    /// The id of place `p`.
    pub fn place_id(&self, p: usize) -> &Text
        requires { p < (net_of self.now).places }
        ensures { result.now ≡ (place_at self.now p).id }
    {
        &self.places[p].id
    }

    /// The id of transition `t`.
    pub fn transition_id(&self, t: usize) -> &Text
        requires { t < (net_of self.now).transitions }
        ensures { result.now ≡ (transition_at self.now t).id }
    {
        &self.transitions[t].id
    }

    /// The number of places or of transitions.
    pub fn nodes(&self, kind: NodeKind) -> usize
        ensures value { result ≡ node_count kind self.now }
        ensures limits { IsFlatNet self.now }
    {
        match kind {
            NodeKind::Place => self.places(),
            NodeKind::Transition => self.transitions(),
        }
    }

    /// The id of place or transition `i`.
    pub fn node_id(&self, kind: NodeKind, i: usize) -> &Text
        requires { i < node_count kind self.now }
        ensures { result.now ≡ node_id kind self.now i }
    {
        match kind {
            NodeKind::Place => self.place_id(i),
            NodeKind::Transition => self.transition_id(i),
        }
    }

    /// The initial marking of place `p`.
    pub fn initial(&self, p: usize) -> u64
        requires { p < (net_of self.now).places }
        ensures { result ≡ (net_of self.now).initial p }
    {
        self.places[p].initial
    }

    /// The weight of the arcs from place `p` to transition `t`.
    pub fn pre(&self, p: usize, t: usize) -> u128
        requires place { p < (net_of self.now).places }
        requires transition { t < (net_of self.now).transitions }
        ensures value { result ≡ (net_of self.now).pre p t }
        ensures bound { result < 2 ^ 80 }
    {
        self.transitions[t].inputs.weight(p)
    }

    /// The weight of the arcs from transition `t` to place `p`.
    pub fn post(&self, p: usize, t: usize) -> u128
        requires place { p < (net_of self.now).places }
        requires transition { t < (net_of self.now).transitions }
        ensures value { result ≡ (net_of self.now).post p t }
        ensures bound { result < 2 ^ 80 }
    {
        self.transitions[t].outputs.weight(p)
    }

    /// The input places of transition `t`, ascending, each with the weight of the arcs to `t`.
    pub fn inputs(&self, t: usize) -> &[WeightedPlace]
        requires { t < (net_of self.now).transitions }
        ensures value { result.now ≡ (transition_at self.now t).inputs }
        ensures lists { let net = net_of self.now in Lists net.places (λ p. net.pre p t) result.now }
        ensures narrow { All (λ entry. entry.weight < 2 ^ 80) result.now }
    {
        self.transitions[t].inputs.as_slice()
    }

    /// The output places of transition `t`, ascending, each with the weight of the arcs from `t`.
    pub fn outputs(&self, t: usize) -> &[WeightedPlace]
        requires { t < (net_of self.now).transitions }
        ensures value { result.now ≡ (transition_at self.now t).outputs }
        ensures lists { let net = net_of self.now in Lists net.places (λ p. net.post p t) result.now }
        ensures narrow { All (λ entry. entry.weight < 2 ^ 80) result.now }
    {
        self.transitions[t].outputs.as_slice()
    }

    /// The transitions with an arc from place `p`, in ascending order.
    pub fn takers(&self, p: usize) -> &[usize]
        requires { p < (net_of self.now).places }
        ensures lists { ListsPositive (λ t. (net_of self.now).pre p t) result.now }
        ensures within { All (λ t. t < (net_of self.now).transitions) result.now }
    {
        self.by_place[p].takers()
    }

    /// The transitions with an arc to place `p`, in ascending order.
    pub fn givers(&self, p: usize) -> &[usize]
        requires { p < (net_of self.now).places }
        ensures lists { ListsPositive (λ t. (net_of self.now).post p t) result.now }
        ensures within { All (λ t. t < (net_of self.now).transitions) result.now }
    {
        self.by_place[p].givers()
    }

    /// The net with every arc turned round: `Pre` and `Post` are exchanged, and all else is kept.
    pub fn reverse(&self, alloc: Global) -> Result<FlatNet, NoMemory>
        ensures net { IfOk result (λ other. net_of other ≡ reversed (net_of self.now)) }
        ensures nodes { IfOk result (λ other. KeepsNodes self.now other) }
        ensures arcs { IfOk result (λ other. other.arcs ≡ self.now.arcs) }
    {
        Ok(FlatNet {
            places: copies(alloc, self.places.as_slice())?,
            transitions: exchanged(alloc, self.transitions.as_slice())?,
            arcs: self.arcs,
            by_place: turned_round(alloc, self.by_place.as_slice())?,
        })
    }
}

/// Copies of the places.
fn copies(alloc: Global, places: &[FlatPlace]) -> Result<Vec<FlatPlace>, NoMemory>
    ensures { IfOk result (λ copies. copies.items ≡ places.now) }
{
    let mut copies = Vec::with_capacity(alloc, places.len())?;
    for place in places {
        copies.push(FlatPlace {
            id: place.id.copy(alloc)?,
            initial: place.initial,
        })?;
    }
    Ok(copies)
}

/// Copies of the transitions, each with its inputs as outputs and its outputs as inputs.
fn exchanged(alloc: Global, transitions: &[FlatTransition]) -> Result<Vec<FlatTransition>, NoMemory>
    ensures { IfOk result (λ copies. copies.items ≡ map turned transitions.now) }
{
    let mut copies = Vec::with_capacity(alloc, transitions.len())?;
    for transition in transitions {
        copies.push(FlatTransition {
            id: transition.id.copy(alloc)?,
            inputs: transition.outputs.copy(alloc)?,
            outputs: transition.inputs.copy(alloc)?,
        })?;
    }
    Ok(copies)
}

/// Copies of the arcs of the places, each turned round.
fn turned_round(alloc: Global, by_place: &[PlaceArcs]) -> Result<Vec<PlaceArcs>, NoMemory>
    ensures { IfOk result (λ copies. copies.items ≡ map arcs_turned by_place.now) }
{
    let mut copies = Vec::with_capacity(alloc, by_place.len())?;
    for arcs in by_place {
        copies.push(arcs.turned(alloc)?)?;
    }
    Ok(copies)
}
