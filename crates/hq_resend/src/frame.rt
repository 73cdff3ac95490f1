//! A frame: the bytes of one message with its framing, which several owners share.

ghost use Rattle.std.specs.Prelude.{◌≡◌, IfOk};

use std::alloc::{AllocError, Global};
use std::marker::Model;
use std::rc::RcSlice;

/// The bytes of one message with its framing. Owners made by `share` have the same bytes in memory.
#[derive(Drop)]
pub struct Frame {
    bytes: RcSlice<u8>,
}

impl Model for Frame {
    ghost use Rattle.std.specs.Prelude.{ℕ, List};
    ghost use Rattle.std.specs.Rc.{rc_slice_items};

    ghost Value = { List ℕ };

    ghost view = { λ frame. rc_slice_items frame.bytes };
}

impl Frame {
    /// A frame with a copy of these bytes. It fails if it is out of memory.
    pub fn of(alloc: Global, bytes: &[u8]) -> Result<Frame, AllocError>
        ensures { IfOk result (λ frame. frame ≡ bytes.now) }
    {
        Ok(Frame {
            bytes: RcSlice::from_slice(alloc, bytes)?,
        })
    }

    /// The bytes, with their framing.
    pub fn bytes(&self) -> &[u8]
        ensures { result.now ≡ self.now }
    {
        self.bytes.as_slice()
    }

    /// Another owner of the same bytes, of which none is copied. It fails if there are as many owners as can be counted.
    pub fn share(&self) -> Result<Frame, AllocError>
        ensures { IfOk result (λ frame. frame ≡ self.now) }
    {
        Ok(Frame {
            bytes: self.bytes.clone()?,
        })
    }
}
