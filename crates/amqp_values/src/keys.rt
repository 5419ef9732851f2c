//! Which keys of a map came before.
ghost use Rattle.std.specs.Prelude.{◌≡◌, ◌≤◌, ◌<◌, ◌||◌, ℕ, [], ◌∷◌, ◌++◌, List, length, not, IfOk, OnOk};
ghost use Rattle.std.specs.BTreeMap.{is_at};
ghost use Rattle.std.specs.Cmp.Lexicographic.{slice_cmp};
ghost use Rattle.std.specs.Ordering.{nat_cmp};
ghost use Rattle.amqp_values.specs.declared.value.Value.{Value};
ghost use Rattle.amqp_values.specs.Values.{has_key, has_text, SeesAll, SeesLong};

use crate::value::{Pair, Value};
use octet_reading::{NoMemory, Text};
use std::alloc::Global;
use std::collections::BTreeSet;

/// So many keys are compared one by one, which takes no memory; of more a set is kept.
const FEW: usize = 64;

/// Whether a key stands in pairs.
fn has_key(pairs: &[Pair<Value>], key: &Text) -> bool
    ensures { result ≡ has_key pairs.now key.now }
{
    pairs.iter().any(|pair| pair.key == *key)
}

/// Notes a key, and tells whether it wasn't noted before.
fn add_key(alloc: Global, seen: &mut BTreeSet<Text>, key: &Text) -> Result<bool, NoMemory>
    ensures new { IfOk result (λ new. new ≡ not (has_text seen.old.keys key.now)) }
    ensures added { OnOk result ((q : List ℕ) → has_text seen.new.keys q ≡ (is_at (slice_cmp nat_cmp key.now) q || has_text seen.old.keys q)) }
{
    Ok(seen.insert(key.copied(alloc)?)?)
}

/// Notes the keys of pairs.
fn add_all(alloc: Global, seen: &mut BTreeSet<Text>, pairs: &[Pair<Value>]) -> Result<(), NoMemory>
    ensures { seen.old.keys ≡ [] → OnOk result (SeesAll seen.new.keys pairs.now) }
{
    for pair in pairs {
        add_key(alloc, seen, &pair.key)?;
    }
    Ok(())
}

/// Notes the keys of pairs where they are just too many to be compared.
fn catch_up(
    alloc: Global,
    seen: &mut BTreeSet<Text>,
    before: &[Pair<Value>],
) -> Result<(), NoMemory>
    requires { 64 ≤ length before.now }
    ensures { SeesLong seen.old.keys before.now → OnOk result (SeesAll seen.new.keys before.now) }
{
    if before.len() > FEW {
        return Ok(());
    }
    add_all(alloc, seen, before)
}

/// Whether a key doesn't stand in the pairs before it; it is noted where there are many.
pub(crate) fn is_new_key(
    alloc: Global,
    seen: &mut BTreeSet<Text>,
    before: &[Pair<Value>],
    key: &Text,
) -> Result<bool, NoMemory>
    ensures new { SeesLong seen.old.keys before.now → IfOk result (λ new. new ≡ not (has_key before.now key.now)) }
    ensures sees { SeesLong seen.old.keys before.now → OnOk result ((value : Value) → SeesLong seen.new.keys (before.now ++ record { key = key.now; value = value } ∷ [])) }
{
    if before.len() < FEW {
        return Ok(!has_key(before, key));
    }
    catch_up(alloc, seen, before)?;
    add_key(alloc, seen, key)
}
