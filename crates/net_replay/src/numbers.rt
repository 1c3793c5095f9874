ghost use Rattle.std.specs.Prelude.{IfOk};
ghost use Rattle.net_values.specs.FlatNets.{net_of};
ghost use Rattle.net_values.specs.Nodes.{transition_id};
ghost use Rattle.std.specs.Prelude.{◌≡◌};
ghost use Rattle.net_replay.specs.Numbers.{NumbersFrom, kept_for};

use indexmap::IndexMap;
use net_values::{FlatNet, NoMemory};
use std::alloc::Global;

/// The transitions by their ids: of several with one id the lowest.
pub(crate) fn number_transitions<'n>(
    alloc: Global,
    net: &'n FlatNet,
) -> Result<IndexMap<&'n [u8], u32>, NoMemory>
    ensures { IfOk result (NumbersFrom (net_of net.now).transitions (transition_id net.now) 0) }
{
    let mut numbers = IndexMap::new(alloc);
    let mut first = net.transitions();
    while first > 0 {
        first -= 1;
        numbers.insert(net.transition_id(first).as_bytes(), first as u32)?;
    }
    Ok(numbers)
}

/// The number that is kept for an id.
pub(crate) fn number_of(numbers: &IndexMap<&[u8], u32>, id: &[u8]) -> Option<u32>
    ensures { result ≡ kept_for id.now numbers.now }
{
    numbers.get(id).copied()
}
