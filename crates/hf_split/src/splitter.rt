//! The splitter: it holds the bytes of a stream that were fed and not passed, and lends the frame that they begin with.
//!
//! Each byte is looked at once for a separator: what the bytes held begin with is kept, and found again only if bytes
//! were added to a part of a frame, or a frame was passed.

ghost use Rattle.std.specs.Prelude.{◌≡◌, ◌+◌, ◌-◌, ◌<◌, ◌≤◌, ℕ, List, [], ◌∷◌, ◌++◌, length, take, drop, IfSome, IfNone, IfOk, IfErr, OnErr, vec_len, vec_capacity};
ghost use Rattle.hf_split.specs.Cuts.{Spelled, Framings, BeginsWith, IsFaulty, IsWaiting, Cuts};
ghost use Rattle.hf_split.specs.Held.{Stands, IsFaultOf, IsInStep, IsNext, room_for, at_start, taken_by_feed, after_feed, after_pass};

use crate::framing::Framing;
use crate::next::{Next, next_after, next_of};
use crate::var_int::LONGEST_VAR_INT;
use std::alloc::{AllocError, Global};
use std::error::Error;
use std::fmt;
use std::marker::Model;

/// The greatest limit of a frame's length, in bytes: 16 MiB.
pub const GREATEST_LIMIT: usize = 16_777_216;

/// A stream that goes on with no frame. `Display` is its word in a report, without the place.
#[derive(Clone, Copy, Debug, PartialEq, Eq)]
pub enum SplitFault {
    /// The frame that begins at this place is longer than the limit: its first `most + 1` bytes hold no separator, or
    /// its length says so. The place is the number of bytes of the stream before it, or 2^64-1 if that is more.
    TooLong { at: u64 },
    /// No length begins at this place, but `Framing::Length` wants one: five bytes have their top bit set.
    BadLength { at: u64 },
}

impl fmt::Display for SplitFault {
    ghost use Rattle.std.specs.Prelude.{Some};
    ghost use Rattle.hf_split.specs.Words.{fault_words};

    ghost output = { λ fault. Some (fault_words fault) };

    fn fmt<W: fmt::Write>(&self, f: &mut fmt::Formatter<W>) -> fmt::Result {
        match self {
            SplitFault::TooLong { .. } => f.write_str("TooLong"),
            SplitFault::BadLength { .. } => f.write_str("BadLength"),
        }
    }
}

impl Error for SplitFault {}

/// Cuts a stream into frames. It holds the bytes that were fed and not passed, at most `most + LONGEST_VAR_INT` of
/// them, in memory that is reserved at the start.
///
/// Feed it a piece, then lend and pass frames until `frame` waits, and feed it what is left of the piece:
///
/// ```text
/// while !left.is_empty() {
///     let count = splitter.feed(left);
///     left = &left[count..];
///     while let Some((place, frame)) = splitter.frame()? {
///         ..
///         splitter.pass();
///     }
/// }
/// ```
///
/// After `frame` gave a fault it gives the same fault, and `feed` takes nothing, until `reset` or `reframe`.
#[derive(Drop)]
pub struct Splitter {
    framing: Framing,
    most: usize,
    place: u64,
    buffer: Vec<u8>,
    // where the bytes held begin in the buffer
    start: usize,
    // what they begin with
    next: Next,
}

impl Model for Splitter {
    ghost use Rattle.std.specs.Prelude.{drop, vec_capacity};
    ghost use Rattle.hf_split.specs.Held.{Held};
    ghost use Rattle.hf_split.specs.Nexts.{IsBuffer};

    ghost Value = { Held };

    ghost view = { λ s. record { framing = s.framing; most = s.most; place = s.place; bytes = drop s.start s.buffer.items } };

    ghost invariant = { λ s. IsBuffer s.framing s.most s.start (vec_capacity s.buffer) s.buffer.items s.next };
}

/// Reserves the room of a splitter with this limit, and no more.
fn reserve_room(alloc: Global, most: usize) -> Result<Vec<u8>, AllocError>
    requires { most ≤ GREATEST_LIMIT }
    ensures empty { IfOk result (λ buffer. buffer.items ≡ []) }
    ensures reserved { IfOk result (λ buffer. vec_capacity buffer ≡ room_for most) }
{
    Vec::with_capacity(alloc, most + LONGEST_VAR_INT)
}

/// Drops the first `count` bytes, in the memory that is there.
fn drop_front(buffer: &mut Vec<u8>, count: usize)
    requires { count ≤ vec_len buffer.old }
    ensures items { buffer.new.items ≡ drop count buffer.old.items }
    ensures capacity { vec_capacity buffer.new ≡ vec_capacity buffer.old }
{
    let rest = buffer.len() - count;
    buffer.copy_within(count.., 0);
    buffer.truncate(rest);
}

/// Drops what was passed if the buffer is longer than `longest` or no more is held than was passed, and answers where
/// the bytes held begin then.
fn make_room(buffer: &mut Vec<u8>, start: usize, longest: usize) -> usize
    requires inside { start ≤ vec_len buffer.old }
    requires room { vec_len buffer.old - start ≤ longest }
    ensures inside { result ≤ vec_len buffer.new }
    ensures bytes { drop result buffer.new.items ≡ drop start buffer.old.items }
    ensures room { vec_len buffer.new ≤ longest }
    ensures capacity { vec_capacity buffer.new ≡ vec_capacity buffer.old }
{
    if buffer.len() <= longest && start < buffer.len() - start {
        return start;
    }
    drop_front(buffer, start);
    0
}

impl Splitter {
    /// A splitter at the beginning of a stream. `most` is the greatest length of a frame in bytes, without its
    /// framing. It reserves `most + LONGEST_VAR_INT` bytes, and takes no memory after that. It fails if it is out of
    /// memory.
    pub fn start(alloc: Global, framing: Framing, most: usize) -> Result<Splitter, AllocError>
        requires positive { 1 ≤ most }
        requires limit { most ≤ GREATEST_LIMIT }
        ensures empty { IfOk result (λ splitter. splitter ≡ at_start framing most) }
        ensures stands { IfOk result (λ splitter. (framings : Framings) → Stands framings splitter [] []) }
    {
        Ok(Splitter {
            framing,
            most,
            place: 0,
            buffer: reserve_room(alloc, most)?,
            start: 0,
            next: Next::Waiting,
        })
    }

    /// Takes the first bytes of the piece, and answers how many: as many as there is room for, and none after a fault.
    pub fn feed(&mut self, piece: &[u8]) -> usize
        ensures within { result ≤ length piece.now }
        ensures refused { IsFaulty self.old.framing self.old.most self.old.bytes → result ≡ 0 }
        ensures count { (IsFaulty self.old.framing self.old.most self.old.bytes → ⊥) → result ≡ taken_by_feed self.old (length piece.now) }
        ensures fed { self.new ≡ after_feed self.old (take result piece.now) }
        ensures room { length self.new.bytes ≤ room_for self.new.most }

        // The stream is longer by what was taken.
        ensures stands { (framings : Framings) (stream : List ℕ) (passed : List Spelled) →
            Stands framings self.old stream passed → Stands framings self.new (stream ++ take result piece.now) passed }
    {
        if self.next.is_fault() {
            return 0;
        }
        let held = self.buffer.len() - self.start;
        let count = piece.len().min(self.most + LONGEST_VAR_INT - held);
        self.start = make_room(
            &mut self.buffer,
            self.start,
            self.most + LONGEST_VAR_INT - count,
        );
        self.buffer.extend_from_slice(&piece[..count]).unwrap();
        self.next = next_after(
            self.framing,
            self.most,
            self.next,
            held,
            &self.buffer[self.start..],
        );
        count
    }

    /// Lends the next frame, without its framing, and its place: the number of bytes of the stream before the frame as
    /// it is spelled there, or 2^64-1 if that is more. `None` waits for more bytes.
    pub fn frame(&self) -> Result<Option<(u64, &[u8])>, SplitFault>
        ensures lent { IfOk result (λ next. IfSome next (λ found. (found.0 ≡ self.now.place) × ((spelling : List ℕ) ×
            BeginsWith self.now.framing self.now.most self.now.bytes (record { spelling = spelling; frame = found.1.now })))) }
        ensures waiting { IfOk result (λ next. IfNone next (IsWaiting self.now.framing self.now.most self.now.bytes)) }
        ensures fault { IfErr result (IsFaultOf self.now) }

        // A full buffer gives a frame or a fault.
        ensures not_full { IfOk result (λ next. IfNone next (length self.now.bytes < room_for self.now.most)) }

        // Of the whole stream: the frame is the next of it, or what is held is its rest.
        ensures next_of_stream { IfOk result (λ next. IfSome next (λ found. (framings : Framings) (stream : List ℕ) (passed : List Spelled) →
            Stands framings self.now stream passed → IsInStep framings self.now passed →
            (spelling : List ℕ) × IsNext framings self.now.most stream passed found.0 (record { spelling = spelling; frame = found.1.now }))) }
        ensures rest_of_stream { IfOk result (λ next. IfNone next ((framings : Framings) (stream : List ℕ) (passed : List Spelled) →
            Stands framings self.now stream passed → IsInStep framings self.now passed → Cuts framings self.now.most stream passed self.now.bytes)) }
        ensures fault_of_stream { OnErr result ((framings : Framings) (stream : List ℕ) (passed : List Spelled) →
            Stands framings self.now stream passed → IsInStep framings self.now passed → Cuts framings self.now.most stream passed self.now.bytes) }
    {
        match self.next {
            Next::Waiting => Ok(None),
            Next::Frame { from, to, .. } => Ok(Some((
                self.place,
                &self.buffer[self.start + from..self.start + to],
            ))),
            Next::TooLong => Err(SplitFault::TooLong { at: self.place }),
            Next::BadLength => Err(SplitFault::BadLength { at: self.place }),
        }
    }

    /// Moves past the frame that `frame` lends.
    pub fn pass(&mut self)
        requires { (item : Spelled) × BeginsWith self.old.framing self.old.most self.old.bytes item }
        ensures past { (item : Spelled) → BeginsWith self.old.framing self.old.most self.old.bytes item → self.new ≡ after_pass self.old item }
        ensures shorter { length self.new.bytes < length self.old.bytes }
        ensures stands { (framings : Framings) (stream : List ℕ) (passed : List Spelled) (item : Spelled) →
            Stands framings self.old stream passed → IsInStep framings self.old passed →
            BeginsWith self.old.framing self.old.most self.old.bytes item → Stands framings self.new stream (passed ++ item ∷ []) }
    {
        if let Next::Frame { past, .. } = self.next {
            self.start += past;
            self.place = self.place.saturating_add(past as u64);
            self.next = next_of(self.framing, self.most, &self.buffer[self.start..]);
        }
    }

    /// Reads what follows in this framing. The bytes held stay, and so may begin a fault or end one.
    pub fn reframe(&mut self, framing: Framing)
        ensures reframed { self.new ≡ record self.old { framing = framing } }
        ensures stands { (framings : Framings) (stream : List ℕ) (passed : List Spelled) →
            Stands framings self.old stream passed → Stands framings self.new stream passed }
    {
        self.framing = framing;
        self.next = next_of(framing, self.most, &self.buffer[self.start..]);
    }

    /// The place of the first byte held: the number of bytes of the stream before it, or 2^64-1 if that is more.
    pub fn place(&self) -> u64
        ensures { result ≡ self.now.place }
    {
        self.place
    }

    /// How many bytes are held: those that were fed since the start or the last reset and not passed.
    pub fn held(&self) -> usize
        ensures { result ≡ length self.now.bytes }
    {
        self.buffer.len() - self.start
    }

    /// Drops what is held, and begins a new stream, in this framing and with the same limit.
    pub fn reset(&mut self, framing: Framing)
        ensures empty { self.new ≡ at_start framing self.old.most }
        ensures stands { (framings : Framings) → Stands framings self.new [] [] }
    {
        self.framing = framing;
        self.buffer.clear();
        self.start = 0;
        self.place = 0;
        self.next = Next::Waiting;
    }
}
