//! The map.
ghost use Rattle.std.specs.Prelude.{◌≡◌, ◌+◌, ◌<◌, ◌≤◌, [], length, None, Some, OnOk, IsOk, OnSome, IfSome, IfNone};
ghost use Rattle.std.specs.List.Sorted.{IsStrictlySortedBy};
ghost use Rattle.std.specs.Option.{option_copied};
ghost use Rattle.std.specs.Ordering.{is_lt, is_le};
ghost use Rattle.std.specs.declared.cmp.Ordering.TheVariants.{Equal};
ghost use Rattle.sorted_map.specs.Cuts.{before, within};
ghost use Rattle.sorted_map.specs.Map.{by_key, from_key, find, put, out, index_of, value_at, with_value};

use octet_reading::NoMemory;
use std::alloc::Global;
use std::marker::Model;

/// A map whose keys are in their order. Looking up costs the logarithm of how many there are; putting in and taking out
/// move those behind.
#[derive(Debug, Drop)]
pub struct SortedMap<K: Ord, T> {
    entries: Vec<(K, T)>,
}

impl<K: Ord, T> Model for SortedMap<K, T> {
    ghost use Rattle.std.specs.Prelude.{◌-◌};
    ghost use Rattle.std.specs.Vec.{vec_len, vec_capacity};
    ghost use Rattle.std.specs.List.Sorted.{IsStrictlySortedBy};
    ghost use Rattle.sorted_map.specs.Map.{Mapped, by_key, mapped_code};

    ghost Value = { Mapped K T };

    ghost coded = { mapped_code K.code T.code };

    ghost view = { λ m. record { entries = m.entries.items; room = vec_capacity m.entries - vec_len m.entries } };

    ghost invariant = { λ m. IsStrictlySortedBy (by_key K.cmp) m.entries.items };
}

/// How many entries come before a key, and how many with it.
fn part<K: Ord, T>(entries: &[(K, T)], key: &K) -> (usize, usize)
    requires { IsStrictlySortedBy (by_key K.cmp) entries.now }
    ensures before { result.0 ≡ length (before (from_key K.cmp key.now) entries.now) }
    ensures bound { result.1 ≤ length entries.now }
    ensures within { result.1 ≡ result.0 + length (within (from_key K.cmp key.now) entries.now) }
{
    let low = entries.partition_point(
        |entry: &(K, T)| -> bool
            ensures { result ≡ is_lt (from_key K.cmp key.entry.now entry.now) }
        { entry.0.cmp(key).is_lt() },
    );
    let high = entries.partition_point(
        |entry: &(K, T)| -> bool
            ensures { result ≡ is_le (from_key K.cmp key.entry.now entry.now) }
        { entry.0.cmp(key).is_le() },
    );
    (low, high)
}

impl<K: Ord, T> SortedMap<K, T> {
    /// An empty map. Takes no memory.
    pub fn new(alloc: Global) -> SortedMap<K, T>
        ensures { result.entries ≡ [] }
    {
        SortedMap {
            entries: Vec::new(alloc),
        }
    }

    /// Makes room for so many more keys. Nothing else changes.
    pub fn reserve(&mut self, more: usize) -> Result<(), NoMemory>
        ensures entries { self.new.entries ≡ self.old.entries }
        ensures ok { OnOk result (more ≤ self.new.room) }
        ensures room { self.old.room ≤ self.new.room }
        ensures ready { more ≤ self.old.room → IsOk result }
    {
        self.entries.reserve(more)?;
        Ok(())
    }

    /// The keys and what they stand for, in order. Takes no memory.
    pub fn entries(&self) -> &[(K, T)]
        ensures entries { result.now ≡ self.now.entries }
        ensures sorted { IsStrictlySortedBy (by_key K.cmp) self.now.entries }
    {
        self.entries.as_slice()
    }

    /// The index of a key, counted from 0. Takes no memory.
    pub fn index_of(&self, key: &K) -> Option<usize>
        ensures index { IfSome result (λ i. i ≡ length (before (from_key K.cmp key.now) self.now.entries)) }
        ensures some { IfSome result (λ i. (i < length self.now.entries) × (value_at self.now.entries i ≡ find K.cmp key.now self.now.entries)) }
        ensures written { IfSome result (λ i. (value : T) → find K.cmp key.now (with_value self.now.entries i value) ≡ Some value) }
        ensures none { IfNone result (find K.cmp key.now self.now.entries ≡ None) }
    {
        let (low, high) = part(self.entries.as_slice(), key);
        if low < high {
            return Some(low);
        }
        None
    }

    /// What a key stands for. Takes no memory.
    pub fn get(&self, key: &K) -> Option<&T>
        ensures { option_copied result ≡ find K.cmp key.now self.now.entries }
    {
        let (low, high) = part(self.entries.as_slice(), key);
        if low < high {
            return Some(&self.entries[low].1);
        }
        None
    }

    ghost use Rattle.std.specs.Borrow.{sem};
    ghost use Rattle.sorted_map.specs.Lending.{lends_value};

    /// What the key at an index stands for, for writing. Takes no memory.
    pub fn value_mut(&mut self, index: usize) -> &mut T
        requires { index < length self.old.entries }
        ensures* writes_back { sem 𝓛 (lends_value K.row T.row K.Ord self.entry index result) }
        ensures value { value_at self.old.entries index ≡ Some result.now }
    {
        &mut self.entries[index].1
    }

    /// Puts a key in that isn't there. The index that it has then. Takes no memory.
    pub fn put(&mut self, key: K, value: T) -> usize
        requires new { find K.cmp key self.old.entries ≡ None }
        requires room { 0 < self.old.room }
        ensures entries { self.new.entries ≡ put K.cmp key value self.old.entries }
        ensures index { result ≡ index_of K.cmp key self.old.entries }
        ensures bound { result ≤ length self.old.entries }
        ensures len { length self.new.entries ≡ length self.old.entries + 1 }
        ensures room { self.new.room + 1 ≡ self.old.room }
    {
        let (low, _) = part(self.entries.as_slice(), &key);
        match self.entries.insert(low, (key, value)) {
            Ok(()) => (),
            Err(_) => unreachable!(),
        }
        low
    }

    /// Takes a key out; none where it isn't there. Takes no memory.
    pub fn take(&mut self, key: &K) -> Option<(K, T)>
        ensures entries { self.new.entries ≡ out K.cmp key.now self.old.entries }
        ensures some { IfSome result (λ entry. (K.cmp entry.0 key.now ≡ Equal) × (find K.cmp key.now self.old.entries ≡ Some entry.1)) }
        ensures none { IfNone result (find K.cmp key.now self.old.entries ≡ None) }
        ensures gone { find K.cmp key.now self.new.entries ≡ None }
        ensures len { OnSome result (length self.new.entries + 1 ≡ length self.old.entries) }
        ensures room { self.old.room ≤ self.new.room }
    {
        let (low, high) = part(self.entries.as_slice(), key);
        if low == high {
            return None;
        }
        Some(self.entries.remove(low))
    }
}
