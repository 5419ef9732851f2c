//! The map.
ghost use Rattle.std.specs.Prelude.{◌≡◌, ◌+◌, ◌<◌, ◌≤◌, ℕ, [], length, slice_index_or, None, Some, OnOk, OnSome, IfOk, IfErr, IfSome, IfNone};
ghost use Rattle.std.specs.Ordering.{nat_cmp};
ghost use Rattle.std.specs.List.{remove};
ghost use Rattle.std.specs.Option.{option_copied};
ghost use Rattle.std.specs.Cmp.Lexicographic.{slice_cmp};
ghost use Rattle.name_map.specs.Named.{Sorted, find, put, out, IsPlace, IsGap};

use octet_reading::{NoMemory, Text};
use std::alloc::Global;
use std::cmp::Ordering;
use std::marker::Model;

/// A map whose keys are names, in the order of their octets. Looking up costs the logarithm of how many there are;
/// putting in and taking out move those behind.
#[derive(Debug, Drop)]
pub struct NameMap<T> {
    entries: Vec<(Text, T)>,
}

impl<T> Model for NameMap<T> {
    ghost use Rattle.std.specs.Prelude.{◌-◌};
    ghost use Rattle.std.specs.Vec.{vec_len, vec_capacity};
    ghost use Rattle.name_map.specs.Named.{Named, Sorted, named_code};

    ghost Value = { Named T };

    ghost coded = { named_code T.code };

    ghost view = { λ m. record { entries = m.entries.items; room = vec_capacity m.entries - vec_len m.entries } };

    ghost invariant = { λ m. Sorted m.entries.items };
}

impl<T> NameMap<T> {
    /// An empty map.
    pub fn new(alloc: Global) -> NameMap<T>
        ensures { result.entries ≡ [] }
    {
        NameMap {
            entries: Vec::new(alloc),
        }
    }

    /// Makes room for so many more names. Nothing else changes.
    pub fn reserve(&mut self, more: usize) -> Result<(), NoMemory>
        ensures entries { self.new.entries ≡ self.old.entries }
        ensures ok { OnOk result (more ≤ self.new.room) }
        ensures room { self.old.room ≤ self.new.room }
    {
        self.entries.reserve(more)?;
        Ok(())
    }

    /// The names and what they stand for, in order. Takes no memory.
    pub fn entries(&self) -> &[(Text, T)]
        ensures entries { result.now ≡ self.now.entries }
        ensures sorted { Sorted self.now.entries }
    {
        self.entries.as_slice()
    }

    /// Where a name is, or where it would go.
    fn search(&self, name: &Text) -> Result<usize, usize>
        ensures found { IfOk result (IsPlace name.now self.now.entries) }
        ensures gap { IfErr result (IsGap name.now self.now.entries) }
    {
        self.entries.binary_search_by(
            |entry: &(Text, T)| -> Ordering
                ensures { result ≡ slice_cmp nat_cmp entry.now.0 name.entry.now }
            { entry.0.cmp(name) },
        )
    }

    /// What a name stands for. Takes no memory.
    pub fn get(&self, name: &Text) -> Option<&T>
        ensures { option_copied result ≡ find name.now self.now.entries }
    {
        match self.search(name) {
            Ok(place) => Some(&self.entries[place].1),
            Err(_) => None,
        }
    }

    /// Puts a name in that isn't there. Takes no memory.
    pub fn put(&mut self, name: Text, value: T)
        requires new { find name self.old.entries ≡ None }
        requires room { 0 < self.old.room }
        ensures entries { self.new.entries ≡ put name value self.old.entries }
        ensures room { self.new.room + 1 ≡ self.old.room }
    {
        match self.search(&name) {
            Ok(_) => unreachable!(),
            Err(place) => match self.entries.insert(place, (name, value)) {
                Ok(()) => (),
                Err(_) => unreachable!(),
            },
        }
    }

    /// Takes a name out; none where it isn't there. Takes no memory.
    pub fn take(&mut self, name: &Text) -> Option<(Text, T)>
        ensures entries { self.new.entries ≡ out name.now self.old.entries }
        ensures some { IfSome result (λ entry. (entry.0 ≡ name.now) × (find name.now self.old.entries ≡ Some entry.1)) }
        ensures none { IfNone result (find name.now self.old.entries ≡ None) }
        ensures gone { find name.now self.new.entries ≡ None }
        ensures room { OnSome result (self.new.room ≡ self.old.room + 1) }
        ensures kept { IfNone result (self.new.room ≡ self.old.room) }
    {
        match self.search(name) {
            Ok(place) => Some(self.entries.remove(place)),
            Err(_) => None,
        }
    }

    /// Takes the name at an index out; they are counted from 0, in order. Takes no memory.
    pub fn take_at(&mut self, index: usize) -> (Text, T)
        requires { index < length self.old.entries }
        ensures entries { self.new.entries ≡ remove self.old.entries index }
        ensures entry { result ≡ slice_index_or self.old.entries index result }
        ensures room { self.new.room ≡ self.old.room + 1 }
    {
        self.entries.remove(index)
    }
}
