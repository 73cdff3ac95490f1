//! Values, their lists and maps.
ghost use Rattle.std.specs.Prelude.{◌≡◌, ◌≤◌, ◌↔◌, ℕ, List, IfOk, IfErr, [], ◌+◌};
ghost use Rattle.std.specs.Map.{keys_of};
ghost use Rattle.std.specs.List.Sorted.{IsStrictlySortedBy};
ghost use Rattle.hv_value.specs.Tree.{depth, depth_of_all, depth_of_values, put_all, key_cmp, map_of, value_at, last_of, trees, map, pairs, pairs as pairs_in};
ghost use Rattle.hv_value.specs.Order.{IsInOrder, AllInOrder, PairsInOrder};
ghost use Rattle.hv_value.specs.Image.{base64, image, images, entry_images};
ghost use Rattle.hv_value.specs.Same.{same_tree, same_trees, same_pairs};
ghost use Rattle.hv_value.specs.View.{tree, trees_of, entries};
ghost use Rattle.hv_value.specs.declared.value.ValueError.TheVariants.{TooDeep, NoMemory};

mod merge;

use crate::byte_string::Blob;
use crate::laws::map_keys_are_in_order;
use crate::text::Text;
use crate::whole::Whole;
use base64::engine::general_purpose::STANDARD;
use merge::merged;
use std::alloc::{AllocError, AllocFailed, Global};
use std::marker::Model;
use thiserror::Error;

/// How deep lists and maps of a value nest at most.
pub const MOST_LEVELS: u32 = 64;

/// An argument, an item or a result of a hub call (HubProtocol.md of ASP.NET
/// Core), of those with no fraction. Lists and maps nest at most 64 deep in
/// every value, and each of its maps has its keys in byte order.
///
/// `Bytes` come from MessagePack alone; JSON holds them as base64.
#[cycle(value)]
#[derive(Drop)]
pub enum Value {
    Null,
    Bool(bool),
    Int(Whole),
    Text(Text),
    Bytes(Blob),
    List(Items),
    Map(Entries),
}

/// A list of values, each at most 63 deep.
#[cycle(value)]
#[derive(Drop)]
pub struct Items {
    values: Vec<Value>,
    depth: u32,
}

/// Pairs with distinct keys, in byte order of the keys' UTF-8, with values at
/// most 63 deep. They are made by [`Value::map_from`].
#[cycle(value)]
#[derive(Drop)]
pub struct Entries {
    pairs: Vec<(Text, Value)>,
    depth: u32,
}

/// Why no value was made. What was passed is dropped.
#[derive(Clone, Copy, Debug, Drop, PartialEq, Eq, Error)]
pub enum ValueError {
    /// It would nest deeper than 64.
    #[error("a value nests deeper than 64 levels")]
    TooDeep,
    #[error("out of memory")]
    NoMemory,
}

impl Model for Items {
    ghost use Rattle.std.specs.Prelude.{List, ◌≡◌, ◌≤◌};
    ghost use Rattle.hv_value.specs.Tree.{Tree, trees, depth_of_all};
    ghost use Rattle.hv_value.specs.Stored.{trees_code};
    ghost use Rattle.hv_value.specs.Order.{AllInOrder};

    ghost Value = { List Tree };

    ghost coded = { trees_code };

    ghost use Rattle.hv_value.specs.View.{trees_of};

    ghost view = { λ a. trees_of a.values.items };

    ghost invariant = { λ a. (a.depth ≡ depth_of_all (trees_of a.values.items))
        × (a.depth ≤ 63)
        × AllInOrder (trees (trees_of a.values.items)) };

    ghost size = { depth_of_all };

    ghost use Rattle.std.proofs.Common.{arith};
    ghost use Rattle.hv_value.specs.Falls.{items_fall};

    ghost size_decreases = { λ a h. omega (arith, items_fall a.values.items) };
}

impl Model for Entries {
    ghost use Rattle.std.specs.Prelude.{List, ◌≡◌, ◌≤◌};
    ghost use Rattle.std.specs.Map.{keys_of};
    ghost use Rattle.std.specs.List.Sorted.{IsStrictlySortedBy};
    ghost use Rattle.hv_value.specs.Tree.{Pair, pairs as pairs_in, depth_of_values, key_cmp};
    ghost use Rattle.hv_value.specs.Stored.{pairs_code};
    ghost use Rattle.hv_value.specs.Order.{PairsInOrder};

    ghost Value = { List Pair };

    ghost coded = { pairs_code };

    ghost use Rattle.hv_value.specs.View.{entries};

    ghost view = { λ a. entries a.pairs.items };

    ghost invariant = { λ a. (a.depth ≡ depth_of_values (entries a.pairs.items))
        × (a.depth ≤ 63)
        × IsStrictlySortedBy key_cmp (keys_of (entries a.pairs.items))
        × PairsInOrder (pairs_in (entries a.pairs.items)) };

    ghost size = { depth_of_values };

    ghost use Rattle.std.proofs.Common.{arith};
    ghost use Rattle.hv_value.specs.Falls.{entries_fall};

    ghost size_decreases = { λ a h. omega (arith, entries_fall a.pairs.items) };
}

impl Value {
    /// How deep lists and maps nest: one that is empty has depth 1, and a value
    /// that is neither has depth 0. It is stored, and takes no recursion.
    pub fn depth(&self) -> u32
        ensures exact { result ≡ depth (tree self.now) }
        ensures bound { result ≤ 64 }
        // As the bound, this holds of every value.
        ensures in_order { IsInOrder (tree self.now) }
    {
        match self {
            Value::List(items) => 1 + items.depth(),
            Value::Map(entries) => 1 + entries.depth(),
            _ => 0,
        }
    }

    /// A copy. It takes no `alloc`: its parts keep theirs.
    #[cycle(copy)]
    pub fn copy(&self) -> Result<Value, AllocError>
        ensures { IfOk result (λ v. tree v ≡ tree self.now) }
    {
        match self {
            Value::Null => Ok(Value::Null),
            Value::Bool(b) => Ok(Value::Bool(*b)),
            Value::Int(n) => Ok(Value::Int(*n)),
            Value::Text(text) => Ok(Value::Text(text.copy()?)),
            Value::Bytes(bytes) => Ok(Value::Bytes(bytes.copy()?)),
            Value::List(items) => Ok(Value::List(items.copy()?)),
            Value::Map(entries) => Ok(Value::Map(entries.copy()?)),
        }
    }

    /// The value as JSON holds it: each of its `Bytes` becomes the `Text` of
    /// their standard base64 with padding (RFC 4648, section 4).
    #[cycle(image)]
    pub fn json_image(&self) -> Result<Value, AllocError>
        ensures { IfOk result (λ v. tree v ≡ image (tree self.now)) }
    {
        match self {
            Value::Null => Ok(Value::Null),
            Value::Bool(b) => Ok(Value::Bool(*b)),
            Value::Int(n) => Ok(Value::Int(*n)),
            Value::Text(text) => Ok(Value::Text(text.copy()?)),
            Value::Bytes(bytes) => Ok(Value::Text(base64_of(bytes)?)),
            Value::List(items) => Ok(Value::List(items.image()?)),
            Value::Map(entries) => Ok(Value::Map(entries.image()?)),
        }
    }

    /// The map of these pairs, in which the last pair of a key counts. It is
    /// `TooDeep` also where a later pair would have replaced the value that is.
    /// After an error the pairs are dropped.
    pub fn map_from(pairs: Vec<(Text, Value)>) -> Result<Value, ValueError>
        ensures ok { IfOk result (λ v. tree v ≡ map_of (entries pairs.items)) }
        ensures last { IfOk result
            (λ v. (key : List ℕ) → value_at key (tree v) ≡ last_of key (entries pairs.items)) }
        ensures shallow { IfOk result
            (λ v. depth (tree v) ≤ depth_of_values (entries pairs.items) + 1) }
        ensures deep { (result ≡ Err TooDeep) ↔ (depth_of_values (entries pairs.items) ≡ 64) }
    {
        if deepest_pair(&pairs) >= MOST_LEVELS {
            return Err(ValueError::TooDeep);
        }
        Ok(Value::Map(Entries::of(pairs)?))
    }
}

fn deepest(values: &[Value]) -> u32
    ensures exact { result ≡ depth_of_all (trees_of values.now) }
    ensures bound { result ≤ 64 }
    ensures in_order { AllInOrder (trees (trees_of values.now)) }
{
    let mut deepest = 0;
    for value in values {
        deepest = deepest.max(value.depth());
    }
    deepest
}

fn deepest_pair(pairs: &[(Text, Value)]) -> u32
    ensures exact { result ≡ depth_of_values (entries pairs.now) }
    ensures bound { result ≤ 64 }
    ensures in_order { PairsInOrder (pairs_in (entries pairs.now)) }
{
    let mut deepest = 0;
    for (_, value) in pairs {
        deepest = deepest.max(value.depth());
    }
    deepest
}

impl Items {
    fn depth(&self) -> u32
        ensures exact { result ≡ depth_of_all self.now }
        ensures bound { result ≤ 63 }
        ensures in_order { AllInOrder (trees self.now) }
    {
        self.depth
    }

    /// The list of these values. It takes no memory, and after `TooDeep` the
    /// values are dropped.
    pub fn of(values: Vec<Value>) -> Result<Items, ValueError>
        ensures ok { IfOk result (λ items. items ≡ trees_of values.items) }
        ensures deep { (result ≡ Err TooDeep) ↔ (depth_of_all (trees_of values.items) ≡ 64) }
        ensures only { IfErr result (λ e. e ≡ TooDeep) }
    {
        let depth = deepest(&values);
        if depth >= MOST_LEVELS {
            return Err(ValueError::TooDeep);
        }
        Ok(Items { values, depth })
    }

    pub fn values(&self) -> &[Value]
        ensures values { trees_of result.now ≡ self.now }
        ensures shallow { depth_of_all self.now ≤ 63 }
        ensures in_order { AllInOrder (trees self.now) }
    {
        self.values.as_slice()
    }

    /// The values themselves, which takes no memory.
    pub fn into_values(self) -> Vec<Value>
        ensures values { trees_of result.items ≡ self }
        ensures shallow { depth_of_all self ≤ 63 }
    {
        self.values
    }

    #[cycle(copy)]
    pub fn copy(&self) -> Result<Items, AllocError>
        ensures { IfOk result (λ items. items ≡ self.now) }
    {
        let mut values = Vec::with_capacity(*self.values.allocator(), self.values.len())?;
        for value in &self.values {
            values.push(value.copy()?)?;
        }
        Ok(Items {
            values,
            depth: self.depth,
        })
    }

    #[cycle(image)]
    fn image(&self) -> Result<Items, AllocError>
        ensures { IfOk result (λ items. items ≡ images self.now) }
    {
        let mut values = Vec::with_capacity(*self.values.allocator(), self.values.len())?;
        for value in &self.values {
            values.push(value.json_image()?)?;
        }
        Ok(Items {
            values,
            depth: self.depth,
        })
    }
}

#[tactic(auto, unfolding(crate::specs::Image::base64))]
fn base64_of(bytes: &Blob) -> Result<Text, AllocError>
    ensures { IfOk result (λ t. t ≡ base64 bytes.now) }
{
    Ok(Text::from_string(STANDARD.encode(bytes.alloc(), bytes.bytes())?))
}

impl Entries {
    fn depth(&self) -> u32
        ensures exact { result ≡ depth_of_values self.now }
        ensures bound { result ≤ 63 }
        ensures in_order { IsInOrder (map (pairs self.now)) }
    {
        self.depth
    }

    fn of(pairs: Vec<(Text, Value)>) -> Result<Entries, ValueError>
        requires { depth_of_values (entries pairs.items) ≤ 63 }
        ensures ok { IfOk result (λ es. es ≡ put_all [] (entries pairs.items)) }
        ensures shallow { IfOk result
            (λ es. depth_of_values es ≤ depth_of_values (entries pairs.items)) }
        ensures memory { IfErr result (λ e. e ≡ NoMemory) }
    {
        map_keys_are_in_order();
        let pairs = merged(pairs)?;
        let depth = deepest_pair(&pairs);
        Ok(Entries { pairs, depth })
    }

    pub fn pairs(&self) -> &[(Text, Value)]
        ensures pairs { entries result.now ≡ self.now }
        ensures shallow { depth_of_values self.now ≤ 63 }
        ensures in_order { IsStrictlySortedBy key_cmp (keys_of self.now) }
    {
        self.pairs.as_slice()
    }

    /// The pairs themselves, which takes no memory.
    pub fn into_pairs(self) -> Vec<(Text, Value)>
        ensures pairs { entries result.items ≡ self }
        ensures shallow { depth_of_values self ≤ 63 }
        ensures in_order { IsStrictlySortedBy key_cmp (keys_of self) }
    {
        self.pairs
    }

    #[cycle(copy)]
    pub fn copy(&self) -> Result<Entries, AllocError>
        ensures { IfOk result (λ es. es ≡ self.now) }
    {
        let mut pairs = Vec::with_capacity(*self.pairs.allocator(), self.pairs.len())?;
        for (key, value) in &self.pairs {
            pairs.push((key.copy()?, value.copy()?))?;
        }
        Ok(Entries {
            pairs,
            depth: self.depth,
        })
    }

    #[cycle(image)]
    fn image(&self) -> Result<Entries, AllocError>
        ensures { IfOk result (λ es. es ≡ entry_images self.now) }
    {
        let mut pairs = Vec::with_capacity(*self.pairs.allocator(), self.pairs.len())?;
        for (key, value) in &self.pairs {
            pairs.push((key.copy()?, value.json_image()?))?;
        }
        Ok(Entries {
            pairs,
            depth: self.depth,
        })
    }
}

impl From<AllocError> for ValueError {
    ghost from_gives = { λ _ e. e ≡ NoMemory };

    fn from(_e: AllocError) -> ValueError {
        ValueError::NoMemory
    }
}

impl<T: Drop> From<AllocFailed<T>> for ValueError {
    ghost from_gives = { λ _ e. e ≡ NoMemory };

    fn from(_e: AllocFailed<T>) -> ValueError {
        ValueError::NoMemory
    }
}

impl PartialEq for Value {
    ghost use Rattle.std.specs.Cmp.{partial_equiv_from_equiv, on_equiv};
    ghost use Rattle.hv_value.specs.View.{tree};
    ghost use Rattle.hv_value.specs.Same.{same_tree};
    ghost use Rattle.hv_value.specs.SameLaws.{same_tree_equiv};

    ghost eq = { λ a b. same_tree (tree a) (tree b) };

    ghost laws = { partial_equiv_from_equiv (on_equiv tree same_tree_equiv) };

    fn eq(&self, other: &Value) -> bool {
        same(self, other)
    }
}

impl Eq for Value {
    ghost use Rattle.std.specs.Cmp.{on_equiv};
    ghost use Rattle.hv_value.specs.View.{tree};
    ghost use Rattle.hv_value.specs.SameLaws.{same_tree_equiv};

    ghost laws = { on_equiv tree same_tree_equiv };
}

impl PartialEq for Items {
    ghost use Rattle.std.specs.Cmp.{partial_equiv_from_equiv, on_equiv};
    ghost use Rattle.hv_value.specs.Tree.{trees};
    ghost use Rattle.hv_value.specs.Same.{same_trees};
    ghost use Rattle.hv_value.specs.SameLaws.{same_trees_equiv};

    ghost eq = { λ a b. same_trees (trees a) (trees b) };

    ghost laws = { partial_equiv_from_equiv (on_equiv trees same_trees_equiv) };

    fn eq(&self, other: &Items) -> bool {
        same_all(&self.values, &other.values)
    }
}

impl Eq for Items {
    ghost use Rattle.std.specs.Cmp.{on_equiv};
    ghost use Rattle.hv_value.specs.Tree.{trees};
    ghost use Rattle.hv_value.specs.SameLaws.{same_trees_equiv};

    ghost laws = { on_equiv trees same_trees_equiv };
}

impl PartialEq for Entries {
    ghost use Rattle.std.specs.Cmp.{partial_equiv_from_equiv, on_equiv};
    ghost use Rattle.hv_value.specs.Tree.{pairs};
    ghost use Rattle.hv_value.specs.Same.{same_pairs};
    ghost use Rattle.hv_value.specs.SameLaws.{same_pairs_equiv};

    ghost eq = { λ a b. same_pairs (pairs a) (pairs b) };

    ghost laws = { partial_equiv_from_equiv (on_equiv pairs same_pairs_equiv) };

    fn eq(&self, other: &Entries) -> bool {
        same_members(&self.pairs, &other.pairs)
    }
}

impl Eq for Entries {
    ghost use Rattle.std.specs.Cmp.{on_equiv};
    ghost use Rattle.hv_value.specs.Tree.{pairs};
    ghost use Rattle.hv_value.specs.SameLaws.{same_pairs_equiv};

    ghost laws = { on_equiv pairs same_pairs_equiv };
}

#[cycle(same)]
fn same(a: &Value, b: &Value) -> bool
    ensures { result ≡ same_tree (tree a.now) (tree b.now) }
{
    match (a, b) {
        (Value::Null, Value::Null) => true,
        (Value::Bool(x), Value::Bool(y)) => x == y,
        (Value::Int(x), Value::Int(y)) => x == y,
        (Value::Text(x), Value::Text(y)) => x == y,
        (Value::Bytes(x), Value::Bytes(y)) => x.bytes() == y.bytes(),
        (Value::List(x), Value::List(y)) => same_all(&x.values, &y.values),
        (Value::Map(x), Value::Map(y)) => same_members(&x.pairs, &y.pairs),
        _ => false,
    }
}

#[cycle(same)]
fn same_all(a: &[Value], b: &[Value]) -> bool
    ensures { result ≡ same_trees (trees (trees_of a.now)) (trees (trees_of b.now)) }
{
    if a.len() != b.len() {
        return false;
    }
    for i in 0..a.len() {
        if !same(&a[i], &b[i]) {
            return false;
        }
    }
    true
}

#[cycle(same)]
fn same_members(a: &[(Text, Value)], b: &[(Text, Value)]) -> bool
    ensures { result ≡ same_pairs (pairs (entries a.now)) (pairs (entries b.now)) }
{
    if a.len() != b.len() {
        return false;
    }
    for i in 0..a.len() {
        let (x, y) = (&a[i], &b[i]);
        if x.0 != y.0 {
            return false;
        }
        if !same(&x.1, &y.1) {
            return false;
        }
    }
    true
}
