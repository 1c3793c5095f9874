ghost use Rattle.std.specs.Prelude.{◌≡◌, [], ◌∷◌, ◌++◌, ◌<◌, OnOk, OnErr, length};
ghost use Rattle.semiflow_elim.specs.Carried.{list_of};
ghost use Rattle.semiflow_elim.specs.Counts.{IsUncounted};
ghost use Rattle.semiflow_elim.specs.Kept.{IsDropped};

use crate::carried::ColumnSums;
use net_values::{List, NoMemory, Vector};
use std::alloc::Global;

/// Rows with the sums of each at the columns that weren't taken.
#[derive(Drop)]
pub(crate) struct CarriedRows {
    pub vectors: Vec<Vector>,
    pub sums: Vec<List<ColumnSums>>,
}

impl CarriedRows {
    /// No rows.
    pub fn new(alloc: Global) -> CarriedRows
        ensures vectors { result.vectors.items ≡ [] }
        ensures sums { result.sums.items ≡ [] }
    {
        CarriedRows {
            vectors: Vec::new(alloc),
            sums: Vec::new(alloc),
        }
    }

    /// Appends a row with its sums. After a refusal the rows are of no use.
    pub fn push(&mut self, vector: Vector, sums: List<ColumnSums>) -> Result<(), NoMemory>
        ensures vectors { OnOk result (self.new.vectors.items ≡ self.old.vectors.items ++ vector ∷ []) }
        ensures sums { OnOk result (self.new.sums.items ≡ self.old.sums.items ++ sums ∷ []) }
    {
        self.vectors.push(vector)?;
        self.sums.push(sums)?;
        Ok(())
    }

    /// Appends rows. A refusal leaves the rows unchanged.
    pub fn append(&mut self, more: CarriedRows) -> Result<(), NoMemory>
        ensures vectors { OnOk result (self.new.vectors.items ≡ self.old.vectors.items ++ more.vectors.items) }
        ensures sums { OnOk result (self.new.sums.items ≡ self.old.sums.items ++ more.sums.items) }
        ensures same_vectors { OnErr result (self.new.vectors.items ≡ self.old.vectors.items) }
        ensures same_sums { OnErr result (self.new.sums.items ≡ self.old.sums.items) }
    {
        let CarriedRows {
            mut vectors,
            mut sums,
        } = more;
        let before = self.vectors.len();
        self.vectors.append(&mut vectors)?;
        if self.sums.append(&mut sums).is_err() {
            self.vectors.truncate(before);
            return Err(NoMemory);
        }
        Ok(())
    }

    /// Drops row `i`. The last row takes its place.
    pub fn drop_row(&mut self, i: usize)
        requires vectors { i < length self.old.vectors.items }
        requires sums { i < length self.old.sums.items }
        ensures vectors { IsDropped self.old.vectors.items self.new.vectors.items i }
        ensures sums { IsDropped self.old.sums.items self.new.sums.items i }
        ensures counted { IsUncounted self.old.sums.items self.new.sums.items (list_of self.old.sums.items i) }
    {
        let _vector = self.vectors.swap_remove(i);
        let _sums = self.sums.swap_remove(i);
    }
}
