ghost use Rattle.std.specs.Prelude.{◌≡◌, OnOk, length};
ghost use Rattle.net_values.specs.FlatNets.{net_of, IsFlatNet};
ghost use Rattle.incidence.specs.Excess.{AddsUnits};
ghost use Rattle.incidence.specs.Tables.{IsTable};

use crate::sparse::SparseTable;
use net_values::{FlatNet, NoMemory};

/// Adds below the rows of the places a row per transition, with a 1 at the transition's own column.
pub fn add_units(table: &mut SparseTable, net: &FlatNet) -> Result<(), NoMemory>
    requires height { table.old.height ≡ (net_of net.now).places }
    requires width { length table.old.lists ≡ (net_of net.now).transitions }
    ensures units { OnOk result (AddsUnits table.old table.new (net_of net.now)) }
    ensures table { IsTable table.old }
    ensures limits { IsFlatNet net.now }
{
    let places = table.height();
    table.add_rows(net.transitions());
    for t in 0..net.transitions() {
        table.add(places + t, t, 1)?;
    }
    Ok(())
}
