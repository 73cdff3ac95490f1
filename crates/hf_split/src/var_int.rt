//! Lengths as bytes: reads a VarInt at the front of bytes, and writes the shortest.

ghost use Rattle.std.specs.Prelude.{◌≡◌, ◌+◌, ◌<◌, ◌≤◌, ◌++◌, vec_len, vec_capacity};
ghost use Rattle.hf_split.specs.VarInts.{shortest, var_int_bound};
ghost use Rattle.hf_split.specs.Nexts.{IsLengthAt};

/// The greatest number of bytes in a VarInt.
pub const LONGEST_VAR_INT: usize = 5;

/// What bytes that should begin with a VarInt begin with.
#[derive(Clone, Copy)]
pub(crate) enum Prefix {
    /// The front of one.
    Open,
    Whole { size: usize, number: u64 },
    /// `LONGEST_VAR_INT` bytes that all say that more follow.
    Endless,
}

/// Reads a number of 7 bits a byte, the lowest first, in which each byte but the last has its top bit set
/// (HubProtocol.md, "MessagePack (MsgPack) encoding").
pub(crate) fn read_prefix(bytes: &[u8]) -> Prefix
    ensures { IsLengthAt bytes.now result }
{
    let mut number = 0u64;
    let mut weight = 1u64;
    for size in 0..LONGEST_VAR_INT {
        let Some(byte) = bytes.get(size) else {
            return Prefix::Open;
        };
        number += u64::from(*byte % 128) * weight;
        if *byte < 128 {
            return Prefix::Whole {
                size: size + 1,
                number,
            };
        }
        weight *= 128;
    }
    Prefix::Endless
}

/// Appends the shortest VarInt of the number, in the memory that is there.
pub(crate) fn put_shortest(number: usize, out: &mut Vec<u8>)
    requires short { number < var_int_bound }
    requires room { vec_len out.old + LONGEST_VAR_INT ≤ vec_capacity out.old }
    ensures items { out.new.items ≡ out.old.items ++ shortest number }
    ensures len { vec_len out.new ≤ vec_len out.old + LONGEST_VAR_INT }
    ensures capacity { vec_capacity out.old ≤ vec_capacity out.new }
{
    let mut rest = number;
    while rest >= 128 {
        out.push((rest % 128) as u8 + 128).unwrap();
        rest /= 128;
    }
    out.push(rest as u8).unwrap();
}
