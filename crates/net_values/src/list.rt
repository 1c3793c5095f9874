ghost use Rattle.std.specs.Prelude.{◌≡◌, [], ◌∷◌, ◌++◌, ◌<◌, Some, length, slice_get, slice_set, OnOk, OnErr, IsSome, ◌↔◌, option_to_list};

use crate::no_memory::NoMemory;
use std::alloc::Global;
use std::marker::Model;

/// A growing list. Contracts see it as the list of its members.
#[derive(Drop)]
pub struct List<T> {
    members: Vec<T>,
}

impl<T> Model for List<T> {
    ghost use Rattle.std.specs.Prelude.{List as Listed};
    ghost use Rattle.std.specs.Coded.{coded_list};

    ghost Value = { Listed T };

    ghost coded = { coded_list T.code };

    ghost view = { λ l. l.members.items };
}

impl<T> List<T> {
    /// An empty list, which takes no memory until it grows.
    pub fn new(alloc: Global) -> List<T>
        ensures { result ≡ [] }
    {
        List {
            members: Vec::new(alloc),
        }
    }

    /// The number of members.
    pub fn len(&self) -> usize
        ensures { result ≡ length self.now }
    {
        self.members.len()
    }

    /// Lends member `i`, counted from 0.
    pub fn get(&self, i: usize) -> &T
        requires { i < length self.now }
        ensures { slice_get self.now i ≡ Some result.now }
    {
        &self.members[i]
    }

    /// The members in order.
    pub fn as_slice(&self) -> &[T]
        ensures { result.now ≡ self.now }
    {
        self.members.as_slice()
    }
}

impl<T: Drop> List<T> {
    /// Appends a member. A refusal leaves the list unchanged and drops the member.
    pub fn push(&mut self, member: T) -> Result<(), NoMemory>
        ensures ok { OnOk result (self.new ≡ self.old ++ member ∷ []) }
        ensures err { OnErr result (self.new ≡ self.old) }
    {
        self.members.push(member)?;
        Ok(())
    }

    /// Appends the members of another list. A refusal leaves the list unchanged and drops them.
    pub fn append(&mut self, more: List<T>) -> Result<(), NoMemory>
        ensures ok { OnOk result (self.new ≡ self.old ++ more) }
        ensures err { OnErr result (self.new ≡ self.old) }
    {
        let mut members = more.members;
        self.members.append(&mut members)?;
        Ok(())
    }

    /// Takes out the last member and gives it, where there is one.
    pub fn pop(&mut self) -> Option<T>
        ensures last { self.old ≡ self.new ++ option_to_list result }
        ensures some { IsSome result ↔ (0 < length self.old) }
    {
        self.members.pop()
    }

    /// The first member, where there is one. The others are dropped.
    pub fn into_first(self) -> Option<T>
        ensures { result ≡ slice_get self 0 }
    {
        let mut members = self.members;
        if members.is_empty() {
            None
        } else {
            Some(members.swap_remove(0))
        }
    }

    /// Puts another member in the place of member `i`, and gives that one.
    pub(crate) fn replace(&mut self, i: usize, member: T) -> T
        requires { i < length self.old }
        ensures given { slice_get self.old i ≡ Some result }
        ensures rest { self.new ≡ slice_set self.old i member }
    {
        std::mem::replace(&mut self.members[i], member)
    }

    /// Puts another member in the place of member `i`, and drops that one.
    pub(crate) fn set(&mut self, i: usize, member: T)
        requires { i < length self.old }
        ensures { self.new ≡ slice_set self.old i member }
    {
        self.members[i] = member;
    }
}
