//! The values that every other crate speaks of: texts, lists, documents, nets, markings, vectors and
//! place sets, each seen by contracts as the plain list or record that it represents.
#![tactic(auto)]

mod alike;
mod column;
mod copy_list;
mod decimal;
mod document;
mod flat_net;
mod laws;
mod limits;
mod list;
mod marking;
mod no_memory;
mod node_kind;
mod place_arcs;
mod place_set;
mod place_words;
#[cfg(test)]
mod tests;
mod text;
mod token_game;
mod vector;
mod walk;

pub use alike::{AlikeList, Listed};
pub use column::WeightedPlace;
pub use copy_list::CopyList;
pub use decimal::read_decimal;
pub use document::{
    ArcNode, Document, Item, Items, NetTree, Nets, PageNode, PlaceNode, RefNode, TransitionNode,
};
pub use flat_net::FlatNet;
pub use laws::strictly_ascending_lists_are_one;
pub use limits::{
    MAX_ARCS, MAX_ENTRIES, MAX_ID_BYTES, MAX_INPUT_BYTES, MAX_NAME_BYTES, MAX_NETS,
    MAX_OPEN_ELEMENTS, MAX_PAGES, MAX_PLACES, MAX_REFERENCES, MAX_TOKEN_BYTES, MAX_TOKENS,
    MAX_TRANSITIONS,
};
pub use list::List;
pub use marking::Marking;
pub use no_memory::NoMemory;
pub use node_kind::NodeKind;
pub use place_set::{PlaceSet, Sets};
pub use text::Text;
pub use token_game::FireFault;
pub use vector::{Rows, Vector};
pub use walk::Walk;
