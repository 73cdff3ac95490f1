//! Bytes that need not be UTF-8, under one type. Crates above give it the names by which they speak of such bytes.
ghost use Rattle.std.specs.Prelude.{◌≡◌, ◌==◌, Some, refl, IfOk};
ghost use Rattle.std.specs.Cmp.Lexicographic.{pointwise, slice_cmp, nat_list_eq_equiv, nat_list_cmp_total, texts_po, texts_ties};
ghost use Rattle.std.specs.Cmp.{partial_equiv_from_equiv};
ghost use Rattle.std.specs.Ordering.{nat_cmp};

use std::alloc::{AllocError, Global};
use std::cmp::Ordering;
use std::marker::Model;

/// Bytes, seen as their list. They are ordered byte by byte, and a first part comes before the whole.
#[derive(Drop)]
pub struct ByteString {
    bytes: Vec<u8>,
}

/// The bytes of a value.
pub type Blob = ByteString;

impl Model for ByteString {
    ghost use Rattle.std.specs.Prelude.{List, ℕ};

    ghost Value = { List ℕ };

    ghost view = { λ b. b.bytes.items };
}

impl ByteString {
    /// A copy of the bytes.
    pub fn of(alloc: Global, bytes: &[u8]) -> Result<ByteString, AllocError>
        ensures { IfOk result (λ b. b ≡ bytes.now) }
    {
        Ok(ByteString {
            bytes: Vec::from_slice(alloc, bytes)?,
        })
    }

    /// The bytes themselves, without a copy.
    pub fn from_vec(bytes: Vec<u8>) -> ByteString
        ensures { result ≡ bytes.items }
    {
        ByteString { bytes }
    }

    pub fn bytes(&self) -> &[u8]
        ensures { result.now ≡ self.now }
    {
        self.bytes.as_slice()
    }

    /// The bytes, without a copy.
    pub fn into_vec(self) -> Vec<u8>
        ensures { result.items ≡ self }
    {
        self.bytes
    }

    pub(crate) fn alloc(&self) -> Global {
        *self.bytes.allocator()
    }

    /// A copy. It takes no `alloc`: the bytes keep theirs.
    pub fn copy(&self) -> Result<ByteString, AllocError>
        ensures { IfOk result (λ b. b ≡ self.now) }
    {
        Ok(ByteString {
            bytes: self.bytes.clone()?,
        })
    }
}

impl PartialEq for ByteString {
    ghost eq = { λ a b. pointwise (λ x y. x == y) a b };

    ghost laws = { partial_equiv_from_equiv nat_list_eq_equiv };

    fn eq(&self, other: &ByteString) -> bool {
        self.bytes == other.bytes
    }
}

impl Eq for ByteString {
    ghost laws = { nat_list_eq_equiv };
}

impl PartialOrd for ByteString {
    ghost partial_cmp = { λ a b. Some (slice_cmp nat_cmp a b) };

    ghost laws = { texts_po };

    fn partial_cmp(&self, other: &ByteString) -> Option<Ordering> {
        Some(self.cmp(other))
    }
}

impl Ord for ByteString {
    ghost cmp = { λ a b. slice_cmp nat_cmp a b };

    ghost total = { nat_list_cmp_total };

    ghost matches_partial_cmp = { λ x y. refl };

    ghost matches_eq = { λ x y. texts_ties x y };

    fn cmp(&self, other: &ByteString) -> Ordering {
        self.bytes.cmp(&other.bytes)
    }
}
