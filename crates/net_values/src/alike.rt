ghost use Rattle.std.specs.Prelude.{◌≡◌, [], ◌∷◌, ◌++◌, ◌<◌, Some, All, OnOk, OnErr};
ghost use Rattle.std.specs.Prelude.{length, take, remove, slice_get};
ghost use Rattle.std.specs.List.Sorted.{IsPermutation, IsSorted};
ghost use Rattle.net_values.specs.TheList.{AreAlike, AreApart, IsStrictlyAscending};

use crate::no_memory::NoMemory;
use std::alloc::Global;
use std::marker::Model;

/// A value with a length, in an order that tells unequal values apart.
pub trait Listed: Ord + Drop {
    ghost use Rattle.std.specs.Prelude.{ℕ};
    ghost use Rattle.std.specs.FinMap.{IsAntisymmetric};

    ghost size: { Self → ℕ };

    ghost exact: { IsAntisymmetric Self.cmp };
}

/// A list of values of one length. Contracts see it as the list of its members.
#[derive(Drop)]
pub struct AlikeList<T: Listed> {
    members: Vec<T>,
}

impl<T: Listed> Model for AlikeList<T> {
    ghost use Rattle.std.specs.Prelude.{List as Listing};
    ghost use Rattle.std.specs.Coded.{coded_list};
    ghost use Rattle.net_values.specs.TheList.{AreAlike};

    ghost Value = { Listing T };

    ghost coded = { coded_list T.code };

    ghost view = { λ l. l.members.items };

    ghost invariant = { λ l. AreAlike T.size l.members.items };
}

impl<T: Listed> AlikeList<T> {
    /// The empty list, which takes no memory until it grows.
    pub fn new(alloc: Global) -> AlikeList<T>
        ensures { result ≡ [] }
    {
        AlikeList {
            members: Vec::new(alloc),
        }
    }

    /// The list of these members, all of one length. It takes no memory.
    pub fn from_members(members: Vec<T>) -> AlikeList<T>
        requires { AreAlike T.size members.items }
        ensures { result ≡ members.items }
    {
        AlikeList { members }
    }

    /// The number of members.
    pub fn len(&self) -> usize
        ensures { result ≡ length self.now }
    {
        self.members.len()
    }

    /// Lends member `i`, counted from 0.
    pub fn get(&self, i: usize) -> &T
        requires { i < length self.now }
        ensures { slice_get self.now i ≡ Some result.now }
    {
        &self.members[i]
    }

    /// The members in order, all of one length.
    pub fn as_slice(&self) -> &[T]
        ensures value { result.now ≡ self.now }
        ensures alike { AreAlike T.size self.now }
    {
        self.members.as_slice()
    }

    /// Appends a member of the length of those that are there. A refusal leaves the list unchanged
    /// and drops the member.
    pub fn push(&mut self, member: T) -> Result<(), NoMemory>
        requires { All (λ other. T.size other ≡ T.size member) self.old }
        ensures ok { OnOk result (self.new ≡ self.old ++ member ∷ []) }
        ensures err { OnErr result (self.new ≡ self.old) }
    {
        self.members.push(member)?;
        Ok(())
    }

    /// Takes member `i` out, gives it and closes up. It takes no memory.
    pub fn remove(&mut self, i: usize) -> T
        requires { i < length self.old }
        ensures given { slice_get self.old i ≡ Some result }
        ensures rest { self.new ≡ remove self.old i }
    {
        self.members.remove(i)
    }

    /// Keeps the first `len` members, or all where there are fewer. It takes no memory.
    pub fn truncate(&mut self, len: usize)
        ensures { self.new ≡ take len self.old }
    {
        self.members.truncate(len);
    }

    /// Puts the members in ascending order. It takes no memory.
    pub fn sort(&mut self)
        ensures same { IsPermutation self.old self.new }
        ensures sorted { IsSorted T.cmp self.new }
        ensures strict { AreApart self.old → IsStrictlyAscending T.cmp self.new }
    {
        self.members.sort_unstable();
    }
}
