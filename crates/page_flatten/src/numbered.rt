ghost use Rattle.std.specs.Prelude.{IfOk, IfErr, OnOk, ◌∷◌, []};
ghost use Rattle.page_flatten.specs.Rules.{AreDistinct, ids_in, ids_of};
ghost use Rattle.page_flatten.specs.Passes.{AreNumbered, NamesRepeated};

use crate::fault::FlatFault;
use crate::numbers::{Numbers, number_elements};
use net_values::{List, NetTree, Nets};
use std::alloc::Global;

/// The numbers of the elements of each net. The first element of the document whose id an earlier
/// one has is refused.
pub fn numbered_nets<'d>(alloc: Global, nets: &'d Nets) -> Result<List<Numbers<'d>>, FlatFault>
    ensures numbered { IfOk result (AreNumbered nets.now) }
    ensures fault { IfErr result (NamesRepeated (ids_in nets.now)) }
{
    if nets.len() == 1 {
        number_alone(alloc, nets.get(0))
    } else {
        check_ids(alloc, nets)?;
        number_each(alloc, nets)
    }
}

/// The same for a net that is the only one of its document, so that its numbers are all that there
/// are.
fn number_alone<'d>(alloc: Global, net: &'d NetTree) -> Result<List<Numbers<'d>>, FlatFault>
    ensures numbered { IfOk result (AreNumbered (net.now ∷ [])) }
    ensures fault { IfErr result (NamesRepeated (ids_of net.now)) }
{
    let mut tables = List::new(alloc);
    tables.push(number_elements(alloc, net)?)?;
    Ok(tables)
}

/// Refuses the first element of the document whose id an earlier one has.
fn check_ids(alloc: Global, nets: &Nets) -> Result<(), FlatFault>
    ensures ok { OnOk result (AreDistinct (ids_in nets.now)) }
    ensures fault { IfErr result (NamesRepeated (ids_in nets.now)) }
{
    let mut numbers = Numbers::new(alloc);
    for k in 0..nets.len() {
        numbers.add_net(alloc, nets.get(k))?;
    }
    Ok(())
}

/// The numbers of the elements of each net, where no two elements of the document have one id.
fn number_each<'d>(alloc: Global, nets: &'d Nets) -> Result<List<Numbers<'d>>, FlatFault>
    requires { AreDistinct (ids_in nets.now) }
    ensures numbered { IfOk result (AreNumbered nets.now) }
    ensures fault { IfErr result (NamesRepeated (ids_in nets.now)) }
{
    let mut tables = List::new(alloc);
    for k in 0..nets.len() {
        tables.push(number_elements(alloc, nets.get(k))?)?;
    }
    Ok(tables)
}
