//! Buffers of bytes whose front is dropped. One that is empty keeps little memory.

ghost use Rattle.std.specs.Prelude.{◌≡◌, ◌≤◌, [], length, drop, vec_capacity};
ghost use Rattle.hw_socket.specs.Buffers.{IsLean};

/// An empty buffer reserves at most this many bytes.
pub const MOST_RESERVED: usize = 4_096;

/// Drops the first `count` bytes. Where these are all, as they are most often, none is moved.
pub fn drop_first(bytes: &mut Vec<u8>, count: usize)
    requires { count ≤ length bytes.old.items }
    ensures dropped { bytes.new.items ≡ drop count bytes.old.items }
    ensures lean { IsLean bytes.new.items (vec_capacity bytes.new) }
{
    if count == bytes.len() {
        empty(bytes);
    } else if count > 0 {
        bytes.drain(..count);
    }
}

/// Drops all bytes. What is reserved for more than [`MOST_RESERVED`] is given back.
pub fn empty(bytes: &mut Vec<u8>)
    ensures empty { bytes.new.items ≡ [] }
    ensures reserved { vec_capacity bytes.new ≤ MOST_RESERVED }
{
    if bytes.capacity() > MOST_RESERVED {
        *bytes = Vec::new(*bytes.allocator());
    } else {
        bytes.clear();
    }
}

/// Gives back what an empty buffer reserves for more than [`MOST_RESERVED`].
pub fn trim(bytes: &mut Vec<u8>)
    ensures unchanged { bytes.new.items ≡ bytes.old.items }
    ensures lean { IsLean bytes.new.items (vec_capacity bytes.new) }
{
    if bytes.is_empty() {
        empty(bytes);
    }
}
