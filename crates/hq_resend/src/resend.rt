//! The resend buffer: the frames that an end may have to say again, in a ring whose memory is taken at the start.
//!
//! A frame that is written and not kept stays in the ring until `written_is_done` or the next push, since it may be lent;
//! it isn't held any more.

ghost use Rattle.std.specs.Prelude.{◌≡◌, ◌↔◌, ◌+◌, ◌<◌, ◌≤◌, suc, max, ℕ, List, [], ◌∷◌, length, Some, option_map, slice_get, IsTrue, IsNone, IfSome, IfOk, IfErr, OnOk, OnErr, OnSome};
ghost use Rattle.std.specs.Borrow.{sem};
ghost use Rattle.hd_delivery.specs.Numbers.{most_messages};
ghost use Rattle.hd_delivery.specs.Bounds.{most_size};
ghost use Rattle.hq_resend.specs.Buffers.{IsWithin, HasRoom, IsPushFault, held_bytes, at_start, after_push, after_ack, next_frame, after_writing, after_next, after_rewind};
ghost use Rattle.hq_resend.specs.ResendEvents.{ResendEvent, Pushed, Acked, Wrote, Rewound, Stands};
ghost use Rattle.hq_resend.specs.Lending.{EndsAs};

use crate::frame::Frame;
use crate::refusals::{Beyond, PushError};
use crate::ring::{bytes_after_writing, drop_counted, drop_first, dropped};
use circular_buffer::HeapCircularBuffer;
use hd_delivery::{Limits, MOST_MESSAGES};
use std::alloc::{AllocError, Global};
use std::marker::Model;

/// The frames of an end, numbered from 1 in the order in which they are pushed. A buffer that *keeps* holds a frame until
/// the other end has it; one that doesn't, until the frame is written.
///
/// Each call takes the same time whatever is held, but `ack`, `written_is_done` and `push`, which take time for each frame
/// that they drop. `start` takes all memory.
#[derive(Drop)]
pub struct Resend {
    limits: Limits,
    keeps: bool,
    sent: u64,
    acked: u64,
    written: u64,
    furthest: u64,
    // how many frames were pushed and are gone from the ring
    gone: u64,
    // the bytes of the frames held
    bytes: usize,
    ring: HeapCircularBuffer<Frame>,
}

impl Model for Resend {
    ghost use Rattle.hq_resend.specs.Buffers.{Buffer};

    ghost Value = { Buffer };

    ghost use Rattle.hq_resend.specs.Rings.{IsRing, buffer_of};

    ghost view = { buffer_of };

    ghost invariant = { IsRing };
}

impl Resend {
    /// A buffer that holds nothing, with memory for all frames that may be held. It fails if it is out of memory.
    pub fn start(alloc: Global, limits: Limits, keeps: bool) -> Result<Resend, AllocError>
        ensures begun { IfOk result (λ resend. resend ≡ at_start limits keeps) }
        ensures stands { IfOk result (Stands []) }
    {
        Ok(Resend {
            limits,
            keeps,
            sent: 0,
            acked: 0,
            written: 0,
            furthest: 0,
            gone: 0,
            bytes: 0,
            ring: HeapCircularBuffer::with_capacity(alloc, limits.count())?,
        })
    }

    /// Sets whether frames are kept, before any is pushed.
    pub fn keep(&mut self, keeps: bool)
        requires { self.old.sent ≡ 0 }
        ensures set { self.new ≡ record self.old { keeps = keeps } }
        ensures stands { (h : List ResendEvent) → Stands h self.old → Stands h self.new }
    {
        self.keeps = keeps;
    }

    /// Takes a frame and answers its number. It fails if there is no room for the frame, else if `MOST_MESSAGES` were
    /// pushed; then the frame is handed back and nothing is changed.
    pub fn push(&mut self, frame: Frame) -> Result<u64, (PushError, Frame)>
        requires { length frame ≤ most_size self.old.limits }
        ensures ok { IfOk result (λ number. (number ≡ suc self.old.sent) × HasRoom self.old (length frame) ×
            (self.old.sent < most_messages) × (self.new ≡ after_push self.old frame)) }
        ensures err { IfErr result (λ refused. IsPushFault self.old (length frame) refused.0 ×
            (refused.1 ≡ frame) × (self.new ≡ self.old)) }
        ensures stands { OnOk result ((h : List ResendEvent) →
            Stands h self.old → Stands (Pushed frame ∷ h) self.new) }
    {
        let gone = dropped(self.keeps, self.acked, self.written);
        drop_first(&mut self.ring, gone - self.gone);
        self.gone = gone;
        let (held, size) = (self.ring.len(), frame.bytes().len());
        if held >= self.limits.count() || size > self.limits.bytes() - self.bytes {
            let bytes = self.bytes;
            return Err((PushError::Full { held, bytes, size }, frame));
        }
        if self.sent >= MOST_MESSAGES {
            return Err((PushError::Exhausted, frame));
        }
        let _ = self.ring.push_back(frame);
        self.bytes += size;
        self.sent += 1;
        Ok(self.sent)
    }

    /// The other end has the frames up to this number, which aren't kept any more. A number that isn't above an earlier one
    /// has no effect. It fails, and changes nothing, exactly if `upto` is above [`Resend::most_written`].
    pub fn ack(&mut self, upto: u64) -> Result<(), Beyond>
        ensures ok { OnOk result ((upto ≤ self.old.furthest) × (self.new ≡ after_ack self.old upto)) }
        ensures err { IfErr result (λ beyond. (self.old.furthest < upto) ×
            (beyond ≡ record { got = upto; most = self.old.furthest }) × (self.new ≡ self.old)) }
        ensures stands { OnOk result ((h : List ResendEvent) →
            Stands h self.old → Stands (Acked upto ∷ h) self.new) }
    {
        if upto > self.furthest {
            return Err(Beyond {
                got: upto,
                most: self.furthest,
            });
        }
        if upto <= self.acked {
            return Ok(());
        }
        if !self.keeps {
            self.acked = upto;
            return Ok(());
        }
        self.bytes = drop_counted(&mut self.ring, upto - self.acked, self.bytes);
        self.gone = upto;
        self.acked = upto;
        self.written = self.written.max(upto);
        Ok(())
    }

    /// Lends the next frame that isn't written on this link, with its number, and counts it as written.
    pub fn next_unwritten(&mut self) -> Option<(u64, &[u8])>
        ensures* after { sem 𝓛 (EndsAs self.entry (λ resend. resend ≡ after_next self.old)) }
        ensures none { IsNone result ↔ (self.old.written ≡ self.old.sent) }
        ensures number { IfSome result (λ next. next.0 ≡ suc self.old.written) }
        ensures frame { option_map (λ next. next.1.now) result ≡ next_frame self.old }
        ensures stands { OnSome result ((h : List ResendEvent) →
            Stands h self.old → Stands (Wrote ∷ h) (after_next self.old)) }
    {
        if self.written >= self.sent {
            return None;
        }
        let place = (self.written - self.gone) as usize;
        self.bytes = bytes_after_writing(&self.ring, place, self.keeps, self.bytes);
        self.written += 1;
        self.furthest = self.furthest.max(self.written);
        match self.ring.get(place) {
            Some(frame) => Some((self.written, frame.bytes())),
            None => None,
        }
    }

    /// Whether `next_unwritten` would lend a frame.
    pub fn has_unwritten(&self) -> bool
        ensures { IsTrue result ↔ (self.now.written < self.now.sent) }
    {
        self.written < self.sent
    }

    /// The number of the next frame that is written on this link, which may be still to come.
    pub fn next_number(&self) -> u64
        ensures { result ≡ suc self.now.written }
    {
        self.written + 1
    }

    /// A new link begins, which is to carry all frames that are kept.
    pub fn rewind(&mut self)
        ensures rewound { self.new ≡ after_rewind self.old }
        ensures stands { (h : List ResendEvent) → Stands h self.old → Stands (Rewound ∷ h) self.new }
    {
        self.written = dropped(self.keeps, self.acked, self.written);
    }

    /// Drops the frames that are written and not kept. What is held stays.
    pub fn written_is_done(&mut self)
        ensures { self.new ≡ self.old }
    {
        let gone = dropped(self.keeps, self.acked, self.written);
        drop_first(&mut self.ring, gone - self.gone);
        self.gone = gone;
    }

    /// The greatest Ack and 1: in a buffer that keeps, the number of the first frame held, which may be still to come.
    pub fn first_held(&self) -> u64
        ensures { result ≡ suc self.now.acked }
    {
        self.acked + 1
    }

    /// How many frames are held.
    pub fn held(&self) -> usize
        ensures value { result ≡ length self.now.held }
        ensures within { result ≤ self.now.limits.count }
    {
        let gone = dropped(self.keeps, self.acked, self.written);
        (self.sent - gone) as usize
    }

    /// The bytes of the frames held.
    pub fn held_bytes(&self) -> usize
        ensures value { result ≡ held_bytes self.now }
        ensures within { result ≤ self.now.limits.bytes }
    {
        self.bytes
    }

    /// Whether a frame of this size is neither too many nor too large.
    pub fn has_room(&self, size: usize) -> bool
        ensures { IsTrue result ↔ HasRoom self.now size }
    {
        self.held() < self.limits.count() && size <= self.limits.bytes() - self.bytes
    }

    /// How many frames were pushed, which is the number of the latest.
    pub fn count_sent(&self) -> u64
        ensures value { result ≡ self.now.sent }
        ensures within { result ≤ most_messages }
    {
        self.sent
    }

    /// The greatest number that was ever written, or 0.
    pub fn most_written(&self) -> u64
        ensures value { result ≡ self.now.furthest }
        ensures within { result ≤ self.now.sent }
    {
        self.furthest
    }

    /// The limits of what is held.
    pub fn limits(&self) -> Limits
        ensures { result ≡ self.now.limits }
    {
        self.limits
    }

    /// What is true of each buffer.
    pub(crate) fn shows_its_bounds(&self)
        ensures { IsWithin self.now }
    {
        let _ = &self.limits;
    }
}
