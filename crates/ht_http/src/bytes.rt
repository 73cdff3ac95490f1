//! Bytes as a script spells them, and as a report shows them.

ghost use Rattle.std.specs.Prelude.{◌<◌};

use std::alloc::{AllocError, Global};

/// No more bytes of a body are shown.
const MOST_SHOWN: usize = 64;

fn digit(byte: u8) -> u8
    ensures { result < 16 }
{
    match byte {
        b'0'..=b'9' => byte - b'0',
        b'a'..=b'f' => byte - b'a' + 10,
        _ => 0,
    }
}

/// The bytes that the text spells.
pub fn spelled(alloc: Global, text: &str) -> Result<Vec<u8>, AllocError> {
    let mut bytes = Vec::new(alloc);
    let mut rest = text.as_bytes();
    loop {
        match rest {
            [] => return Ok(bytes),
            [b'\\', b'x', high, low, more @ ..] => {
                bytes.push(digit(*high) * 16 + digit(*low))?;
                rest = more;
            }
            [b'\\', b'r', more @ ..] => {
                bytes.push(b'\r')?;
                rest = more;
            }
            [b'\\', b'n', more @ ..] => {
                bytes.push(b'\n')?;
                rest = more;
            }
            [b'\\', b'\\', more @ ..] => {
                bytes.push(b'\\')?;
                rest = more;
            }
            [byte, more @ ..] => {
                bytes.push(*byte)?;
                rest = more;
            }
        }
    }
}

fn show_byte(byte: u8, text: &mut String) -> Result<(), AllocError> {
    match byte {
        b'\\' => text.push_str("\\\\"),
        b'\r' => text.push_str("\\r"),
        b'\n' => text.push_str("\\n"),
        b' '..=b'~' => text.push(char::from(byte)),
        _ => {
            text.push_str("\\x")?;
            text.push(hex_digit(byte / 16))?;
            text.push(hex_digit(byte % 16))
        }
    }
}

fn hex_digit(value: u8) -> char {
    match value {
        0..=9 => char::from(b'0' + value),
        10..=15 => char::from(b'a' + (value - 10)),
        _ => '?',
    }
}

/// The bytes as a report shows them.
pub fn shown(alloc: Global, bytes: &[u8]) -> Result<String, AllocError> {
    let mut text = String::new(alloc);
    for byte in bytes {
        show_byte(*byte, &mut text)?;
    }
    Ok(text)
}

/// The same of the first bytes of a body.
pub fn shown_front(alloc: Global, bytes: &[u8]) -> Result<String, AllocError> {
    shown(alloc, &bytes[..bytes.len().min(MOST_SHOWN)])
}
