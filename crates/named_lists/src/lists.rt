//! Names, marks and lists.
ghost use Rattle.std.specs.Prelude.{◌≡◌, ◌+◌, ◌<◌, ◌≤◌, ◌++◌, ◌∷◌, ℕ, [], length, slice_index_or, None, Some, OnOk, IfSome, IfNone};
ghost use Rattle.std.specs.List.{remove};
ghost use Rattle.std.specs.Option.{option_copied};
ghost use Rattle.name_map.specs.Named.{Sorted, find, put, out};
ghost use Rattle.named_lists.specs.Lists.{Parted, lists_of, times};

use name_map::NameMap;
use octet_reading::{NoMemory, Text};
use std::alloc::Global;
use std::marker::Model;

/// Names in order, each with marks and the number of a list that no other name has. Lists are counted from 0; those that
/// no name has are free.
#[derive(Debug, Drop)]
pub struct NamedLists<M> {
    names: NameMap<(M, usize)>,
    free: Vec<usize>,
    /// How many lists there are.
    count: usize,
}

impl<M> Model for NamedLists<M> {
    ghost use Rattle.std.specs.Prelude.{◌+◌, ◌-◌, ◌≤◌, length, min};
    ghost use Rattle.std.specs.Vec.{vec_len, vec_capacity};
    ghost use Rattle.named_lists.specs.Lists.{NameLists, name_lists_code, lists_of, Parted, IsReady};

    ghost Value = { NameLists M };

    ghost coded = { name_lists_code M.code };

    ghost view = { λ n. record { entries = n.names.entries; free = n.free.items; count = n.count; spare = min (n.names.room - length n.free.items) (vec_capacity n.free - (length n.names.entries + length n.free.items)) } };

    ghost invariant = { λ n. record { parted : Parted (lists_of n.names.entries) n.free.items n.count; ready : IsReady (length n.free.items) n.names.room (length n.names.entries) (vec_capacity n.free) } };
}

impl<M> NamedLists<M> {
    /// No names and no lists.
    pub fn new(alloc: Global) -> NamedLists<M>
        ensures entries { result.entries ≡ [] }
        ensures free { result.free ≡ [] }
        ensures count { result.count ≡ 0 }
    {
        NamedLists {
            names: NameMap::new(alloc),
            free: Vec::new(alloc),
            count: 0,
        }
    }

    /// Makes room for so many more lists and names. Nothing else changes.
    pub fn reserve(&mut self, more: usize) -> Result<(), NoMemory>
        ensures entries { self.new.entries ≡ self.old.entries }
        ensures free { self.new.free ≡ self.old.free }
        ensures count { self.new.count ≡ self.old.count }
        ensures spare { OnOk result (more ≤ self.new.spare) }
    {
        let free = self.free.len();
        let names = self.names.entries().len();
        self.names.reserve(free.saturating_add(more))?;
        self.free.reserve(names.saturating_add(more))?;
        Ok(())
    }

    /// Takes in that there are so many lists; the new ones are free. Takes no memory.
    pub fn widen(&mut self, lists: usize)
        requires more { self.old.count ≤ lists }
        requires spare { lists ≤ self.old.count + self.old.spare }
        ensures entries { self.new.entries ≡ self.old.entries }
        ensures count { self.new.count ≡ lists }
        ensures free { length self.new.free + self.old.count ≡ length self.old.free + lists }
        ensures parted { Parted (lists_of self.new.entries) self.new.free self.new.count }
    {
        for list in self.count..lists {
            self.free.push_reserved(list);
        }
        self.count = lists;
    }

    /// The names in order, each with its marks and the number of its list. Takes no memory.
    pub fn entries(&self) -> &[(Text, (M, usize))]
        ensures entries { result.now ≡ self.now.entries }
        ensures sorted { Sorted self.now.entries }
        ensures parted { Parted (lists_of self.now.entries) self.now.free self.now.count }
    {
        self.names.entries()
    }

    /// How many lists there are. Takes no memory.
    pub fn count(&self) -> usize
        ensures { result ≡ self.now.count }
    {
        self.count
    }

    /// How many more names there are lists for. Takes no memory.
    pub fn free(&self) -> usize
        ensures { result ≡ length self.now.free }
    {
        self.free.len()
    }

    /// The marks of a name and its list. Takes no memory.
    pub fn get(&self, name: &Text) -> Option<&(M, usize)>
        ensures { option_copied result ≡ find name.now self.now.entries }
    {
        self.names.get(name)
    }

    /// Gives a name that isn't there a free list, and answers it. Takes no memory.
    pub fn put(&mut self, name: Text, marks: M) -> usize
        requires new { find name self.old.entries ≡ None }
        requires free { 0 < length self.old.free }
        ensures entries { self.new.entries ≡ put name (marks, result) self.old.entries }
        ensures free { self.old.free ≡ self.new.free ++ result ∷ [] }
        ensures count { self.new.count ≡ self.old.count }
        ensures fresh { times result (lists_of self.old.entries) ≡ 0 }
    {
        match self.free.pop() {
            Some(list) => {
                self.names.put(name, (marks, list));
                list
            }
            None => unreachable!(),
        }
    }

    /// Takes a name out, whose list is free then; none where it isn't there. Takes no memory.
    pub fn take(&mut self, name: &Text) -> Option<(Text, (M, usize))>
        ensures entries { self.new.entries ≡ out name.now self.old.entries }
        ensures some { IfSome result (λ entry. (entry.0 ≡ name.now) × (find name.now self.old.entries ≡ Some entry.1) × (self.new.free ≡ self.old.free ++ entry.1.1 ∷ [])) }
        ensures gone { find name.now self.new.entries ≡ None }
        ensures none { IfNone result ((find name.now self.old.entries ≡ None) × (self.new.free ≡ self.old.free)) }
        ensures count { self.new.count ≡ self.old.count }
    {
        let taken = self.names.take(name)?;
        self.free.push_reserved(taken.1.1);
        Some(taken)
    }

    /// Takes the name at an index out, whose list is free then. Takes no memory.
    pub fn take_at(&mut self, index: usize) -> (Text, (M, usize))
        requires { index < length self.old.entries }
        ensures entries { self.new.entries ≡ remove self.old.entries index }
        ensures entry { result ≡ slice_index_or self.old.entries index result }
        ensures free { self.new.free ≡ self.old.free ++ result.1.1 ∷ [] }
        ensures count { self.new.count ≡ self.old.count }
    {
        let taken = self.names.take_at(index);
        let list = taken.1.1;
        self.free.push_reserved(list);
        taken
    }
}
