ghost use Rattle.std.specs.Prelude.{◌≡◌, ◌↔◌, [], ◌∷◌, ◌++◌, ◌+◌, ◌≤◌, ℕ, List};
ghost use Rattle.std.specs.Prelude.{not, OnOk, OnErr, All, Contains, length, filter, take};
ghost use Rattle.std.specs.List.{list_any};
ghost use Rattle.support_prune.specs.Masks.{mask_of as mask_in_words, masks_of};
ghost use Rattle.support_prune.specs.Supports.{is_within as within_test};
ghost use Rattle.support_prune.specs.Pools.{IsPool, HasWithin, StaysAfter, Offered, row_at};

use crate::mask::{is_within_masked, mask_of};
use net_values::{NoMemory, Rows, Vector};
use std::alloc::Global;
use std::marker::Model;

/// Vectors of one length, none of whose supports is a subset of another's. Contracts see the list of the
/// kept vectors.
#[derive(Drop)]
pub struct Pool {
    rows: Rows,
    masks: Vec<u128>,
}

impl Model for Pool {
    ghost use Rattle.std.specs.Prelude.{List, ℕ};
    ghost use Rattle.support_prune.specs.Pools.{IsMaskedPool};

    ghost Value = { List (List ℕ) };

    ghost view = { λ p. p.rows };

    ghost invariant = { λ p. IsMaskedPool p.rows p.masks.items };
}

impl Pool {
    /// The empty pool, which takes no memory until it grows.
    pub fn new(alloc: Global) -> Pool
        ensures { result ≡ [] }
    {
        Pool {
            rows: Rows::new(alloc),
            masks: Vec::new(alloc),
        }
    }

    /// Offers a row of the length of those that are kept. It is dropped where a kept row's support is a
    /// subset of its own; otherwise it is kept, and each kept row whose support is a superset is dropped.
    /// A refusal leaves the pool unchanged and drops the row.
    pub fn offer(&mut self, row: Vector) -> Result<(), NoMemory>
        requires { All (λ kept. length kept ≡ length row) self.old }
        ensures drops { OnOk result (HasWithin self.old row → self.new ≡ self.old) }
        ensures keeps { OnOk result ((HasWithin self.old row → ⊥) → (x : List ℕ) → (Contains self.new x) ↔ StaysAfter self.old row x) }
        ensures ok { OnOk result (Offered self.old self.new row) }
        ensures count { OnOk result (length self.new ≤ length self.old + 1) }
        ensures err { OnErr result (self.new ≡ self.old) }
    {
        let mask = mask_of(&row);
        if has_within(self.rows.as_slice(), self.masks.as_slice(), &row, mask) {
            return Ok(());
        }
        let before = self.rows.len();
        self.masks.push(mask)?;
        if self.rows.push(row).is_err() {
            self.masks.truncate(before);
            return Err(NoMemory);
        }
        drop_wider(&mut self.rows, &mut self.masks, before);
        Ok(())
    }

    /// The kept rows, lent.
    pub fn rows(&self) -> &[Vector]
        ensures rows { result.now ≡ self.now }
        ensures pool { IsPool self.now }
    {
        self.rows.as_slice()
    }

    /// The kept rows. It takes no memory.
    pub fn into_rows(self) -> Rows
        ensures rows { result ≡ self }
        ensures pool { IsPool self }
    {
        self.rows
    }
}

/// Whether some kept row's support is a subset of the row's.
fn has_within(kept: &[Vector], masks: &[u128], row: &Vector, mask: u128) -> bool
    requires alike { All (λ other. length other ≡ length row.now) kept.now }
    requires masks { masks.now ≡ masks_of kept.now }
    requires mask { mask ≡ mask_in_words row.now }
    ensures { result ≡ list_any (λ other. within_test other row.now) kept.now }
{
    for i in 0..kept.len() {
        if is_within_masked(&kept[i], masks[i], row, mask) {
            return true;
        }
    }
    false
}

/// Drops each of the rows before the last one whose support is a superset of the last one's.
fn drop_wider(rows: &mut Rows, masks: &mut Vec<u128>, before: usize)
    requires size { length rows.old ≡ before + 1 }
    requires masks { masks.old.items ≡ masks_of rows.old }
    ensures rows { rows.new ≡
        filter (λ other. not (within_test (row_at rows.old before) other)) (take before rows.old) ++
        row_at rows.old before ∷ [] }
    ensures masks { masks.new.items ≡ masks_of rows.new }
{
    let mut next = 0;
    for _seen in 0..before {
        let kept = rows.as_slice();
        let last = kept.len() - 1;
        if is_within_masked(&kept[last], masks[last], &kept[next], masks[next]) {
            rows.remove(next);
            masks.remove(next);
        } else {
            next += 1;
        }
    }
}
