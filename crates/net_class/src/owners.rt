ghost use Rattle.std.specs.Prelude.{◌≡◌, ℕ, ◌<◌, ◌==◌, All, MatchOption, Some, None, length, if◌then◌else◌};
ghost use Rattle.std.specs.List.{list_any};
ghost use Rattle.net_class.specs.Owners.{owner_at, IsOwned, NoneIsOwned};

use net_values::WeightedPlace;

/// The owner of the first place of the entries that has one.
pub(crate) fn first_owner(entries: &[WeightedPlace], owners: &[Option<usize>]) -> Option<usize>
    requires { All (λ entry. entry.place < length owners.now) entries.now }
    ensures { MatchOption result (NoneIsOwned entries.now owners.now) (IsOwned entries.now owners.now) }
{
    for entry in entries {
        if let Some(owner) = owners[entry.place] {
            return Some(owner);
        }
    }
    None
}

/// Makes transition `t` the owner of the places of the entries.
pub(crate) fn own(entries: &[WeightedPlace], t: usize, owners: &mut [Option<usize>])
    requires { All (λ entry. entry.place < length owners.old) entries.now }
    ensures { (p : ℕ) → owner_at owners.new p
        ≡ (if list_any (λ entry. entry.place == p) entries.now then Some t else owner_at owners.old p) }
{
    for entry in entries {
        owners[entry.place] = Some(t);
    }
}
