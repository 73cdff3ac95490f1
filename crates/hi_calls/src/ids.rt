//! Ids: a prefix and a number in decimal digits.

ghost use Rattle.std.specs.Prelude.{◌≡◌, ◌≤◌, ◌+◌, ℕ, IfOk, IfSome, IfNone};
ghost use Rattle.hd_calls.specs.Numbers.{most_numbers};
ghost use Rattle.hi_calls.specs.Numbering.{id_with, ids_after};

use crate::owners::upload_number;
use hd_calls::MOST_NUMBERS;
use hv_value::{Text, Texts};
use itoa::Buffer;
use std::alloc::{AllocError, Global};

/// How one side's ids are written and read.
#[derive(Drop)]
pub struct Ids {
    prefix: Text,
}

impl Ids {
    pub(crate) fn with_prefix(prefix: Text) -> Ids
        ensures { result.prefix ≡ prefix }
    {
        Ids { prefix }
    }

    /// The id of a number.
    pub(crate) fn id(&self, alloc: Global, number: u64) -> Result<Text, AllocError>
        ensures { number ≤ most_numbers → IfOk result (λ id. id ≡ id_with self.now.prefix number) }
    {
        let mut digits = Buffer::new();
        let mut text = String::from_str(alloc, self.prefix.as_str())?;
        text.push_str(digits.format(number))?;
        Text::of(alloc, text.as_str())
    }

    /// The ids of so many numbers after this one.
    pub(crate) fn after(&self, alloc: Global, number: u64, count: u32) -> Result<Texts, AllocError>
        requires { number + count ≤ most_numbers }
        ensures { IfOk result (λ ids. ids ≡ ids_after self.now.prefix number count) }
    {
        let mut ids = Vec::with_capacity(alloc, count as usize)?;
        for which in 0..count {
            ids.push(self.id(alloc, upload_number(number, which))?)?;
        }
        Ok(Texts::of(ids))
    }

    /// The number whose id this is, which takes no memory.
    pub(crate) fn number(&self, id: &Text) -> Option<u64>
        ensures found { IfSome result (λ n. id_with self.now.prefix n ≡ id.now) }
        ensures within { IfSome result (λ n. n ≤ most_numbers) }
        ensures none { IfNone result ((n : ℕ) → n ≤ most_numbers → id_with self.now.prefix n ≡ id.now → ⊥) }
    {
        let written = id.as_str().strip_prefix(self.prefix.as_str())?;
        let number = written.parse::<u64>().ok()?;
        if number > MOST_NUMBERS {
            return None;
        }
        let mut digits = Buffer::new();
        if digits.format(number) != written {
            return None;
        }
        Some(number)
    }
}
