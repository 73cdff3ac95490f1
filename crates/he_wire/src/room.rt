//! Appends to a buffer in the memory that it has.
ghost use Rattle.std.specs.Prelude.{◌≡◌, ◌+◌, ◌≤◌, ◌++◌, length, vec_len, vec_capacity};
ghost use Rattle.std.specs.Fmt.{decimal};

use itoa::Buffer;

/// A number of 64 bits has at most this many digits.
pub(crate) const MOST_DIGITS: usize = 20;

/// Appends these bytes.
pub(crate) fn put(bytes: &[u8], out: &mut Vec<u8>)
    requires { vec_len out.old + length bytes.now ≤ vec_capacity out.old }
    ensures items { out.new.items ≡ out.old.items ++ bytes.now }
    ensures len { vec_len out.new ≡ vec_len out.old + length bytes.now }
    ensures capacity { vec_capacity out.old ≤ vec_capacity out.new }
{
    out.extend_from_slice(bytes).unwrap();
}

/// Appends the digits of the number.
pub(crate) fn put_digits(number: u64, out: &mut Vec<u8>)
    requires { vec_len out.old + MOST_DIGITS ≤ vec_capacity out.old }
    ensures items { out.new.items ≡ out.old.items ++ decimal number }
    ensures len { vec_len out.new ≤ vec_len out.old + MOST_DIGITS }
    ensures capacity { vec_capacity out.old ≤ vec_capacity out.new }
{
    let mut digits = Buffer::new();
    put(digits.format(number).as_bytes(), out);
}
