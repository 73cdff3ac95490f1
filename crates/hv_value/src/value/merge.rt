//! How the pairs of a map are found: in the order of their keys, and of one key the last.
ghost use Rattle.std.specs.Prelude.{◌≡◌, IfOk, IfErr, OnOk, IsTrue, []};
ghost use Rattle.std.specs.BTreeMap.{insert_entry};
ghost use Rattle.std.specs.List.Sorted.{IsStrictlySortedBy};
ghost use Rattle.std.specs.Map.{keys_of};
ghost use Rattle.hv_value.specs.Places.{IsPlace};
ghost use Rattle.hv_value.specs.Tree.{put_all, key_cmp};
ghost use Rattle.hv_value.specs.View.{entries};
ghost use Rattle.hv_value.specs.declared.value.ValueError.TheVariants.{NoMemory};

use super::{Value, ValueError};
use crate::text::Text;
use std::cmp::Ordering;
use std::collections::BTreeMap;

/// Up to so many pairs in no order are put one by one into a list, and more into a tree.
const FEW: usize = 16;

/// Where a key belongs among pairs.
pub(crate) enum Place {
    /// The pair there has it.
    At(usize),
    /// The first pair above it stands there, or none does.
    Before(usize),
}

/// The order of bytes. In short keys a plain loop finds it sooner than `str::cmp`.
fn compare(a: &[u8], b: &[u8]) -> Ordering
    ensures { result ≡ key_cmp a.now b.now }
{
    let least = a.len().min(b.len());
    for i in 0..least {
        if a[i] < b[i] {
            return Ordering::Less;
        }
        if a[i] > b[i] {
            return Ordering::Greater;
        }
    }
    if a.len() < b.len() {
        return Ordering::Less;
    }
    if a.len() > b.len() {
        return Ordering::Greater;
    }
    Ordering::Equal
}

fn compare_keys(a: &Text, b: &Text) -> Ordering
    ensures { result ≡ key_cmp a.now b.now }
{
    compare(a.as_str().as_bytes(), b.as_str().as_bytes())
}

fn is_below(a: &Text, b: &Text) -> bool
    ensures { IsTrue result → key_cmp a.now b.now ≡ Ordering.Less }
{
    matches!(compare_keys(a, b), Ordering::Less)
}

fn are_in_order(pairs: &[(Text, Value)]) -> bool
    ensures { IsTrue result → IsStrictlySortedBy key_cmp (keys_of pairs.now) }
{
    for i in 1..pairs.len() {
        if !is_below(&pairs[i - 1].0, &pairs[i].0) {
            return false;
        }
    }
    true
}

fn place_of(pairs: &[(Text, Value)], key: &Text) -> Place
    ensures { IsPlace pairs.now key.now result }
{
    for i in 0..pairs.len() {
        match compare_keys(key, &pairs[i].0) {
            Ordering::Less => return Place::Before(i),
            Ordering::Equal => return Place::At(i),
            Ordering::Greater => (),
        }
    }
    Place::Before(pairs.len())
}

fn put(pairs: &mut Vec<(Text, Value)>, key: Text, value: Value) -> Result<(), ValueError>
    ensures ok { OnOk result (pairs.new.items ≡ insert_entry key_cmp pairs.old.items key value) }
    ensures memory { IfErr result (λ e. e ≡ NoMemory) }
{
    match place_of(pairs, &key) {
        Place::At(i) => pairs[i].1 = value,
        Place::Before(i) => pairs.insert(i, (key, value))?,
    }
    Ok(())
}

fn merged_few(pairs: Vec<(Text, Value)>) -> Result<Vec<(Text, Value)>, ValueError>
    ensures ok { IfOk result (λ found. entries found.items ≡ put_all [] (entries pairs.items)) }
    ensures memory { IfErr result (λ e. e ≡ NoMemory) }
{
    let mut found = Vec::with_capacity(*pairs.allocator(), pairs.len())?;
    for (key, value) in pairs {
        put(&mut found, key, value)?;
    }
    Ok(found)
}

#[inline(never)]
fn merged_many(pairs: Vec<(Text, Value)>) -> Result<Vec<(Text, Value)>, ValueError>
    ensures ok { IfOk result (λ found. entries found.items ≡ put_all [] (entries pairs.items)) }
    ensures memory { IfErr result (λ e. e ≡ NoMemory) }
{
    let alloc = *pairs.allocator();
    let mut map = BTreeMap::new(alloc);
    for (key, value) in pairs {
        drop(map.insert(key, value)?);
    }
    Ok(map.into_iter().collect(alloc)?)
}

/// The pairs of the map of these pairs. Pairs that are in order already are kept as they are.
pub(super) fn merged(pairs: Vec<(Text, Value)>) -> Result<Vec<(Text, Value)>, ValueError>
    ensures ok { IfOk result (λ found. entries found.items ≡ put_all [] (entries pairs.items)) }
    ensures memory { IfErr result (λ e. e ≡ NoMemory) }
{
    if are_in_order(&pairs) {
        return Ok(pairs);
    }
    if pairs.len() <= FEW {
        return merged_few(pairs);
    }
    merged_many(pairs)
}
