ghost use Rattle.std.specs.Prelude.{◌≡◌, [], ◌+◌, ◌<◌, ◌^◌, IfOk, OnOk, OnErr, MatchResult};
ghost use Rattle.net_values.specs.Columns.{IsColumn, AddsAt, OccursAt, BelongsAt, weight_at};

use crate::no_memory::NoMemory;
use std::alloc::Global;
use std::marker::Model;

/// A place with the weight of the arcs between it and a transition.
#[derive(Clone, Copy)]
pub struct WeightedPlace {
    pub place: usize,
    pub weight: u128,
}

/// The weights of the arcs between one transition and the places, in one direction. Contracts see it
/// as the list of the places with a positive weight, in ascending order.
#[derive(Drop)]
pub struct Column {
    entries: Vec<WeightedPlace>,
}

impl Model for Column {
    ghost use Rattle.std.specs.Prelude.{List};
    ghost use Rattle.net_values.specs.declared.column.WeightedPlace.{WeightedPlace};
    ghost use Rattle.net_values.specs.Columns.{IsColumn};

    ghost Value = { List WeightedPlace };

    ghost view = { λ c. c.entries.items };

    ghost invariant = { λ c. IsColumn c.entries.items };
}

impl Column {
    /// The column of zeros, which takes no memory until it grows.
    pub fn new(alloc: Global) -> Column
        ensures { result ≡ [] }
    {
        Column {
            entries: Vec::new(alloc),
        }
    }

    /// The places with a positive weight, in ascending order.
    pub fn as_slice(&self) -> &[WeightedPlace]
        ensures value { result.now ≡ self.now }
        ensures column { IsColumn self.now }
    {
        self.entries.as_slice()
    }

    /// The weight of a place, 0 where there is no arc.
    pub fn weight(&self, place: usize) -> u128
        ensures { result ≡ weight_at self.now place }
    {
        match find(self.entries.as_slice(), place) {
            Ok(k) => self.entries[k].weight,
            Err(_) => 0,
        }
    }

    /// Adds to the weight of a place. A refusal leaves the column unchanged.
    pub(crate) fn add(&mut self, place: usize, weight: u128) -> Result<(), NoMemory>
        requires positive { 0 < weight }
        requires fits { weight_at self.old place + weight < 2 ^ 128 }
        ensures ok { OnOk result (AddsAt self.old self.new place weight) }
        ensures err { OnErr result (self.new ≡ self.old) }
    {
        match find(self.entries.as_slice(), place) {
            Ok(k) => {
                let weight = self.entries[k].weight + weight;
                self.entries[k] = WeightedPlace { place, weight };
            }
            Err(k) => self.entries.insert(k, WeightedPlace { place, weight })?,
        }
        Ok(())
    }

    /// An equal column.
    pub(crate) fn copy(&self, alloc: Global) -> Result<Column, NoMemory>
        ensures { IfOk result (λ column. column ≡ self.now) }
    {
        Ok(Column {
            entries: Vec::from_slice(alloc, self.entries.as_slice())?,
        })
    }
}

/// Where the entry of a place occurs, or else where one would belong.
fn find(entries: &[WeightedPlace], place: usize) -> Result<usize, usize>
    requires { IsColumn entries.now }
    ensures { MatchResult result (OccursAt entries.now place) (BelongsAt entries.now place) }
{
    entries.binary_search_by_key(&place, |entry| entry.place)
}
