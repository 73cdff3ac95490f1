//! What one conversation of a door and a dialer is to be. Four numbers are drawn of each, in this order:
//!
//! - k, of which the kind is k modulo 8: at 0 the door responds, at 1 it declines the upgrade that is asked for, at 2 the dialer ends the lane as
//!   soon as it asked, at 3 and 4 the door ends the WebSocket after the last echo, and else the dialer ends it after some of the echoes.
//! - m: the dialer sends 1 + m modulo 8 messages.
//! - c: the dialer ends the WebSocket after c modulo one more than that many echoes. Where c is even, it sends a message only once the one before
//!   was echoed, and else all at once.
//! - s, by which the messages are so long: that of the number n has 16 bytes and then x, with y = s + 7919 n, modulo 126 if y modulo 4 is 0, modulo
//!   1,000 if it is 1, modulo 300 and 3,900 more if it is 2, and else modulo 70,000: x is y divided by 4, modulo that.
//!
//! A message begins with the number of its conversation and its own as eight bytes each, highest first, and each further byte is their sum.

use crate::draws::Draws;
use std::alloc::{AllocError, Global};

/// How many bytes a message begins with.
const FRONT: usize = 16;

#[derive(Clone, Copy, PartialEq, Eq)]
pub enum Kind {
    Responds,
    Declines,
    Dropped,
    EndedByDoor,
    EndedByDialer,
}

/// A conversation.
#[derive(Clone, Copy)]
pub struct Plan {
    pub number: u64,
    pub kind: Kind,
    /// How many messages the dialer sends.
    pub messages: u64,
    /// After how many echoes the WebSocket is ended.
    pub echoes: u64,
    /// All messages are sent at once.
    pub at_once: bool,
    sizes: u64,
}

fn kind_of(draw: u64) -> Kind {
    match draw % 8 {
        0 => Kind::Responds,
        1 => Kind::Declines,
        2 => Kind::Dropped,
        3 => Kind::EndedByDoor,
        4 => Kind::EndedByDoor,
        _ => Kind::EndedByDialer,
    }
}

impl Plan {
    /// The next one.
    pub fn draw(draws: &mut Draws, number: u64) -> Plan {
        let kind = kind_of(draws.next());
        let messages = 1 + draws.next() % 8;
        let cut = draws.next();
        let echoes = if kind == Kind::EndedByDialer {
            cut % (messages + 1)
        } else {
            messages
        };
        Plan {
            number,
            kind,
            messages,
            echoes,
            at_once: cut % 2 == 1,
            sizes: draws.next(),
        }
    }

    /// How many bytes a message has after its front.
    fn size(&self, message: u64) -> usize {
        let y = self.sizes.wrapping_add(message.wrapping_mul(7_919));
        let x = y / 4;
        let size = match y % 4 {
            0 => x % 126,
            1 => x % 1_000,
            2 => 3_900 + x % 300,
            _ => x % 70_000,
        };
        size as usize
    }

    /// A message of the dialer.
    pub fn message(&self, alloc: Global, message: u64) -> Result<Vec<u8>, AllocError> {
        let mut bytes = Vec::new(alloc);
        bytes.extend_from_slice(&self.number.to_be_bytes())?;
        bytes.extend_from_slice(&message.to_be_bytes())?;
        let size = FRONT.saturating_add(self.size(message));
        bytes.resize(size, sum_of(self.number, message))?;
        Ok(bytes)
    }
}

fn sum_of(number: u64, message: u64) -> u8 {
    (number.wrapping_add(message) % 256) as u8
}

/// Whether this is the message of this number of that conversation, of whatever length.
pub fn is_message(bytes: &[u8], number: u64, message: u64) -> bool {
    let Some((conversation, rest)) = bytes.split_first_chunk::<8>() else {
        return false;
    };
    let Some((place, rest)) = rest.split_first_chunk::<8>() else {
        return false;
    };
    let sum = sum_of(number, message);
    *conversation == number.to_be_bytes()
        && *place == message.to_be_bytes()
        && rest.iter().all(|byte| *byte == sum)
}
