//! Counts the frames of an input, and tells where one is too long.

ghost use Rattle.std.specs.Prelude.{◌≡◌, ◌<◌, ℕ, List, ◌++◌, length, Some, IfOk, IfErr, OnOk};
ghost use Rattle.hf_split.specs.Cuts.{IsWaiting};
ghost use Rattle.hf_split.specs.Held.{IsFaultOf, room_for};
ghost use Rattle.split_bench.specs.Counts.{IsCounted, IsOutcome};

use hf_split::{Framing, SplitFault, Splitter, too_long_begins_none};
use std::alloc::Global;
use std::io::{self, ErrorKind, Read};

/// The greatest length of a frame, in bytes.
const MOST: usize = 32_768;

/// How many bytes are read at a time, at most.
const PIECE: usize = 4_096;

/// How many frames were passed, and the sum of their lengths in bytes.
#[derive(Drop)]
pub struct Tally {
    pub frames: u64,
    pub bytes: u64,
}

/// What an input holds.
#[derive(Drop)]
pub enum Outcome {
    /// These frames, and then a rest that begins with none and may be empty.
    Whole(Tally),
    /// A frame that is longer than the limit, at this place.
    TooLong(u64),
}

/// Passes each whole frame and adds it to the tally.
fn add_frames(splitter: &mut Splitter, tally: &mut Tally) -> Result<(), SplitFault>
    ensures waiting { OnOk result (IsWaiting splitter.new.framing splitter.new.most splitter.new.bytes) }
    ensures room { OnOk result (length splitter.new.bytes < room_for splitter.new.most) }
    ensures fault { IfErr result (IsFaultOf splitter.new) }
    ensures framing { splitter.new.framing ≡ splitter.old.framing }
    ensures counted { (most : ℕ) (stream : List ℕ) → IsCounted most splitter.old tally.old stream → IsCounted most splitter.new tally.new stream }
{
    while let Some((_, frame)) = splitter.frame()? {
        tally.frames = tally.frames.saturating_add(1);
        tally.bytes = tally.bytes.saturating_add(frame.len() as u64);
        splitter.pass();
    }
    Ok(())
}

/// Feeds the whole piece, and passes each frame that it makes whole. After an error a front of the piece is fed.
fn add_piece(splitter: &mut Splitter, tally: &mut Tally, piece: &[u8]) -> Result<(), SplitFault>
    ensures waiting { OnOk result (IsWaiting splitter.new.framing splitter.new.most splitter.new.bytes) }
    ensures fault { IfErr result (IsFaultOf splitter.new) }
    ensures framing { splitter.new.framing ≡ splitter.old.framing }
    ensures counted { (most : ℕ) (stream : List ℕ) → IsCounted most splitter.old tally.old stream →
        OnOk result (IsCounted most splitter.new tally.new (stream ++ piece.now)) }
    ensures counted_front { (most : ℕ) (stream : List ℕ) → IsCounted most splitter.old tally.old stream →
        (front rest : List ℕ) × (piece.now ≡ front ++ rest) × IsCounted most splitter.new tally.new (stream ++ front) }
{
    let mut left = piece;
    add_frames(splitter, tally)?;
    while !left.is_empty() {
        let fed = splitter.feed(left);
        left = &left[fed..];
        add_frames(splitter, tally)?;
    }
    Ok(())
}

/// Reads to the end, or to a frame that is too long. An error is the input's own, or says that it is out
/// of memory, or is `FileTooLarge` at an input that goes on after 2^64-1 reads.
pub fn count<R: Read>(alloc: Global, input: &mut R) -> io::Result<Outcome>
    ensures { (bytes : List ℕ) → R.remaining input.old ≡ Some bytes → IfOk result (IsOutcome MOST bytes) }
{
    let mut splitter = Splitter::start(alloc, Framing::Record, MOST)?;
    let mut tally = Tally {
        frames: 0,
        bytes: 0,
    };
    let mut piece = [0u8; PIECE];
    for _ in 0..u64::MAX {
        let size = input.read(&mut piece)?;
        match add_piece(&mut splitter, &mut tally, &piece[..size]) {
            Ok(()) => {}
            Err(SplitFault::TooLong { at }) => {
                // The law that what is not read yet makes no frame of these bytes either.
                too_long_begins_none();
                return Ok(Outcome::TooLong(at));
            }
            Err(SplitFault::BadLength { .. }) => unreachable!(),
        }
        if size == 0 {
            return Ok(Outcome::Whole(tally));
        }
    }
    Err(io::Error::from(ErrorKind::FileTooLarge))
}
