//! What is left to read of a slice of bytes. It does not know what the bytes spell.
ghost use Rattle.std.specs.Prelude.{◌≡◌, ◌≤◌, ◌-◌, length, drop};
ghost use Rattle.hv_pack.specs.Cut.{Gives, cut};

use crate::error::PackError;

/// The bytes that are left, and how many the whole slice has. A place counts from the start of the slice.
#[derive(Drop)]
pub struct Input<'a> {
    pub rest: &'a [u8],
    pub end: usize,
    ghost fits: { length rest.now ≤ end },
}

impl<'a> Input<'a> {
    /// What is left from the place `at` on.
    pub fn new(bytes: &'a [u8], at: usize) -> Input<'a>
        requires { at ≤ length bytes.now }
        ensures rest { result.rest.now ≡ drop at bytes.now }
        ensures end { result.end ≡ length bytes.now }
    {
        Input {
            rest: &bytes[at..],
            end: bytes.len(),
        }
    }

    /// The place of the next byte.
    pub fn place(&self) -> usize
        ensures { result ≡ self.now.end - length self.now.rest.now }
    {
        self.end - self.rest.len()
    }

    /// The next `len` bytes, which the marker at the place `at` wants.
    pub fn cut(&mut self, at: usize, len: usize) -> Result<&'a [u8], PackError>
        ensures read { Gives (λ t. (t.now, self.new.rest.now)) result (cut at len self.old.rest.now) }
        ensures end { self.new.end ≡ self.old.end }
    {
        let rest = self.rest;
        if rest.len() < len {
            return Err(PackError::Short { at });
        }
        let (front, rest) = rest.split_at(len);
        self.rest = rest;
        Ok(front)
    }

    /// The next `N` bytes, which the marker at the place `at` wants.
    pub fn array<const N: usize>(&mut self, at: usize) -> Result<[u8; N], PackError>
        ensures read { Gives (λ t. (t, self.new.rest.now)) result (cut at N self.old.rest.now) }
        ensures end { self.new.end ≡ self.old.end }
    {
        let Some((front, rest)) = self.rest.split_first_chunk::<N>() else {
            return Err(PackError::Short { at });
        };
        self.rest = rest;
        Ok(*front)
    }
}
