ghost use Rattle.std.specs.Prelude.{◌≡◌, [], ◌∷◌, ◌++◌, ◌<◌, Some, length, slice_get, OnOk, OnErr};

use crate::no_memory::NoMemory;
use std::alloc::Global;
use std::marker::Model;

/// A growing list of numbers or pairs, which gives its members by value. Contracts see it as the list of its
/// members.
#[derive(Drop)]
pub struct CopyList<T: Copy> {
    members: Vec<T>,
}

impl<T: Copy> Model for CopyList<T> {
    ghost use Rattle.std.specs.Prelude.{List as Listed};
    ghost use Rattle.std.specs.Coded.{coded_list};

    ghost Value = { Listed T };

    ghost coded = { coded_list T.code };

    ghost view = { λ l. l.members.items };
}

impl<T: Copy> CopyList<T> {
    /// An empty list, which takes no memory until it grows.
    pub fn new(alloc: Global) -> CopyList<T>
        ensures { result ≡ [] }
    {
        CopyList {
            members: Vec::new(alloc),
        }
    }

    /// The number of members.
    pub fn len(&self) -> usize
        ensures { result ≡ length self.now }
    {
        self.members.len()
    }

    /// Member `i`, counted from 0.
    pub fn get(&self, i: usize) -> T
        requires { i < length self.now }
        ensures { slice_get self.now i ≡ Some result }
    {
        self.members[i]
    }

    /// The members in order.
    pub fn as_slice(&self) -> &[T]
        ensures { result.now ≡ self.now }
    {
        self.members.as_slice()
    }

    /// Appends a member. A refusal leaves the list unchanged.
    pub fn push(&mut self, member: T) -> Result<(), NoMemory>
        ensures ok { OnOk result (self.new ≡ self.old ++ member ∷ []) }
        ensures err { OnErr result (self.new ≡ self.old) }
    {
        self.members.push(member)?;
        Ok(())
    }
}
