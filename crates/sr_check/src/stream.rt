//! A stream that is followed piece by piece: what its frames are written as goes out once for each piece.
ghost use Rattle.std.specs.Prelude.{◌≡◌, ◌≢◌, ◌<◌, ◌≤◌, ◌+◌, ◌^◌, ℕ, List, [], ◌++◌, length, take, Option, IfErr, OnOk, OnErr, Err, codes};
ghost use Rattle.std.specs.Io.KnownBytes.{Appends, IsAtEnd};
ghost use Rattle.hd_facts.specs.Counts.{CountsFailure, one_more};
ghost use Rattle.hf_split.specs.Held.{at_start};
ghost use Rattle.sr_check.specs.Output.{framing, last_text};
ghost use Rattle.sr_check.specs.Stream.{IsDone, IsAllSoFar, IsTouchedByBytesAlone, ReadsNoFurther, most_bytes, most_frame};
ghost use Rattle.sr_check.specs.Going.{IsReader, IsResting, IsSoFar, IsWholeSoFar, IsLastPut, Ends, EndsAt, EndsInput, with_output_buffer};
ghost use Rattle.hd_facts.specs.Writes.{Writes, WritesOfRead};

use crate::laws::faults_last;
use crate::output_buffer::{OutputBuffer, put_frame, put_last, put_refusal};
use crate::task::{Stop, Task};
use hf_split::Splitter;
use hm_codec::FrameWhy;
use hw_io::{Failed, Sink, Source};
use itoa::Buffer;
use std::alloc::Global;

/// The greatest length of a frame in bytes, without its framing.
pub(crate) const MOST_FRAME: usize = 32768;

/// The most bytes of a stream that are followed: 2^40.
const MOST_BYTES: usize = 1099511627776;

/// The most bytes that are read at a time.
const MOST_PIECE: usize = 4096;

/// Writes what stands on the desk, which is then empty. Where nothing stands there the output isn't touched.
fn put<K: Sink>(out: &mut K, output_buffer: &mut OutputBuffer) -> Result<(), Stop>
    ensures ok { OnOk result (Appends (K.holds out.old) (K.holds out.new) output_buffer.old.text.items) }
    ensures err { OnErr result ((n : ℕ) × Appends (K.holds out.old) (K.holds out.new) (take n output_buffer.old.text.items)) }
    ensures fault { IfErr result (λ e. e ≡ Stop.WriteFault) }
    ensures counted { CountsFailure (K.faults out.old) (K.faults out.new) result }
    ensures untouched { output_buffer.old.text.items ≡ [] → out.new ≡ out.old }
    ensures touched { OnOk result (IsTouchedByBytesAlone K.holds out.old out.new) }
    ensures empty { output_buffer.new.text.items ≡ [] }
{
    if output_buffer.text.is_empty() {
        return Ok(());
    }
    let put = out.put(&output_buffer.text);
    output_buffer.text.clear();
    match put {
        Ok(()) => Ok(()),
        Err(Failed) => Err(Stop::WriteFault),
    }
}

/// Ends the task at a place, for what these words say, and answers how.
fn write_last<K: Sink>(
    task: Task,
    at: u64,
    first: &[u8],
    words: &[u8],
    output_buffer: &mut OutputBuffer,
    out: &mut K,
) -> Stop
    requires { output_buffer.old.text.items ≡ [] }
    ensures last { IsLastPut result (last_text task at (first.now ++ words.now)) (K.holds out.old) (K.holds out.new) }
    ensures read { result ≢ Stop.ReadFault }
    ensures fault { result ≡ Stop.WriteFault → K.faults out.new ≡ one_more (K.faults out.old) }
    ensures unfailed { result ≢ Stop.WriteFault → K.faults out.new ≡ K.faults out.old }
    ensures touched { result ≢ Stop.WriteFault → IsTouchedByBytesAlone K.holds out.old out.new }
{
    if put_last(task, at, first, words, output_buffer).is_err() {
        return Stop::NoMemory;
    }
    match put(out, output_buffer) {
        Ok(()) => Stop::Refused,
        Err(_) => Stop::WriteFault,
    }
}

/// Puts on the desk what is written of each whole frame that the splitter holds. `Err` is how the task ends.
fn put_frames(
    alloc: Global,
    task: Task,
    splitter: &mut Splitter,
    output_buffer: &mut OutputBuffer,
) -> Result<(), Stop>
    requires { IsReader task splitter.old }
    ensures resting { OnOk result (IsResting task splitter.new) }
    ensures so_far { (stream : List ℕ) (before now : Option (List ℕ)) → IsSoFar task splitter.old stream before (with_output_buffer now output_buffer.old.text.items) →
        OnOk result (IsSoFar task splitter.new stream before (with_output_buffer now output_buffer.new.text.items)) }
    ensures ended { IfErr result (λ stop. (stream : List ℕ) (before now : Option (List ℕ)) →
        IsSoFar task splitter.old stream before (with_output_buffer now output_buffer.old.text.items) → Ends task stop stream before (with_output_buffer now output_buffer.new.text.items)) }
    ensures no_fault { result ≢ Err Stop.WriteFault }
{
    faults_last();
    loop {
        match splitter.frame() {
            Ok(Some((at, frame))) => put_frame(alloc, task, at, frame, output_buffer)?,
            Ok(None) => return Ok(()),
            Err(fault) => {
                let why = FrameWhy::Split(fault);
                return Err(put_refusal(alloc, task, splitter.place(), why, output_buffer));
            }
        }
        splitter.pass();
    }
}

/// Feeds a piece, and puts on the desk what is written of each frame that it makes whole.
fn put_piece(
    alloc: Global,
    task: Task,
    splitter: &mut Splitter,
    piece: &[u8],
    output_buffer: &mut OutputBuffer,
) -> Result<(), Stop>
    requires { IsResting task splitter.old }
    ensures resting { OnOk result (IsResting task splitter.new) }
    ensures so_far { (stream : List ℕ) (before now : Option (List ℕ)) → length (stream ++ piece.now) < 2 ^ 64 →
        IsSoFar task splitter.old stream before (with_output_buffer now output_buffer.old.text.items) →
        OnOk result (IsSoFar task splitter.new (stream ++ piece.now) before (with_output_buffer now output_buffer.new.text.items)) }
    ensures ended { IfErr result (λ stop. (stream : List ℕ) (before now : Option (List ℕ)) → length (stream ++ piece.now) < 2 ^ 64 →
        IsSoFar task splitter.old stream before (with_output_buffer now output_buffer.old.text.items) →
        Ends task stop (stream ++ piece.now) before (with_output_buffer now output_buffer.new.text.items)) }
    ensures no_fault { result ≢ Err Stop.WriteFault }
{
    faults_last();
    let mut at = 0;
    while at < piece.len() {
        at += splitter.feed(&piece[at..]);
        put_frames(alloc, task, splitter, output_buffer)?;
    }
    Ok(())
}

/// Feeds a piece, and writes what is written of each frame that it makes whole, all in one go.
fn write_piece<K: Sink>(
    alloc: Global,
    task: Task,
    splitter: &mut Splitter,
    piece: &[u8],
    output_buffer: &mut OutputBuffer,
    out: &mut K,
) -> Result<(), Stop>
    requires resting { IsResting task splitter.old }
    requires empty { output_buffer.old.text.items ≡ [] }
    ensures resting { OnOk result (IsResting task splitter.new) }
    ensures so_far { (stream : List ℕ) (before : Option (List ℕ)) → length (stream ++ piece.now) < 2 ^ 64 →
        IsSoFar task splitter.old stream before (K.holds out.old) → OnOk result (IsSoFar task splitter.new (stream ++ piece.now) before (K.holds out.new)) }
    ensures ended { IfErr result (λ stop. (stream : List ℕ) (before : Option (List ℕ)) → length (stream ++ piece.now) < 2 ^ 64 →
        IsSoFar task splitter.old stream before (K.holds out.old) → Ends task stop (stream ++ piece.now) before (K.holds out.new)) }
    ensures fault { result ≡ Err Stop.WriteFault → K.faults out.new ≡ one_more (K.faults out.old) }
    ensures unfailed { result ≢ Err Stop.WriteFault → K.faults out.new ≡ K.faults out.old }
    ensures touched { result ≢ Err Stop.WriteFault → IsTouchedByBytesAlone K.holds out.old out.new }
    ensures empty { output_buffer.new.text.items ≡ [] }
{
    let end = put_piece(alloc, task, splitter, piece, output_buffer);
    put(out, output_buffer)?;
    end
}

/// Ends the task where the input ends: it is done where nothing is left.
fn write_rest<K: Sink>(
    task: Task,
    splitter: &Splitter,
    output_buffer: &mut OutputBuffer,
    out: &mut K,
) -> Result<(), Stop>
    requires resting { IsResting task splitter.now }
    requires empty { output_buffer.old.text.items ≡ [] }
    ensures whole { OnOk result ((stream : List ℕ) (before : Option (List ℕ)) →
        IsSoFar task splitter.now stream before (K.holds out.old) → IsWholeSoFar task stream before (K.holds out.new)) }
    ensures ended { IfErr result (λ stop. (stream : List ℕ) (before : Option (List ℕ)) → length stream ≤ most_bytes →
        IsSoFar task splitter.now stream before (K.holds out.old) → EndsAt task stop stream before (K.holds out.new)) }
    ensures read { result ≢ Err Stop.ReadFault }
    ensures fault { result ≡ Err Stop.WriteFault → K.faults out.new ≡ one_more (K.faults out.old) }
    ensures unfailed { result ≢ Err Stop.WriteFault → K.faults out.new ≡ K.faults out.old }
    ensures touched { result ≢ Err Stop.WriteFault → IsTouchedByBytesAlone K.holds out.old out.new }
{
    let held = splitter.held();
    if held == 0 {
        return Ok(());
    }
    let mut digits = Buffer::new();
    let words = digits.format(held).as_bytes();
    Err(write_last(
        task,
        splitter.place(),
        b"unfinished ",
        words,
        output_buffer,
        out,
    ))
}

/// Follows the input piece by piece to its end.
pub(crate) fn follow<S: Source, K: Sink>(
    alloc: Global,
    task: Task,
    splitter: &mut Splitter,
    input: &mut S,
    out: &mut K,
) -> Result<(), Stop>
    requires { splitter.old ≡ at_start (framing task) most_frame }
    ensures done { OnOk result (IsAtEnd (S.left input.new) × Writes (IsDone task) (S.left input.old) (K.holds out.old) (K.holds out.new)) }
    ensures ended { IfErr result (λ stop. (stop ≢ Stop.ReadFault) → EndsInput task stop (S.left input.old) (K.holds out.old) (K.holds out.new)) }
    ensures read_fault { result ≡ Err Stop.ReadFault → (S.faults input.new ≡ one_more (S.faults input.old))
        × WritesOfRead (IsAllSoFar task) (S.left input.old) (S.left input.new) (K.holds out.old) (K.holds out.new) }
    ensures write_fault { result ≡ Err Stop.WriteFault → K.faults out.new ≡ one_more (K.faults out.old) }
    ensures no_further { ReadsNoFurther task (S.left input.old) (S.left input.new) }
    ensures source_unfailed { result ≢ Err Stop.ReadFault → S.faults input.new ≡ S.faults input.old }
    ensures sink_unfailed { result ≢ Err Stop.WriteFault → K.faults out.new ≡ K.faults out.old }
    ensures touched { result ≢ Err Stop.WriteFault → IsTouchedByBytesAlone K.holds out.old out.new }
{
    faults_last();
    let mut piece = [0u8; MOST_PIECE];
    let mut left = MOST_BYTES;
    let mut output_buffer = OutputBuffer::new(alloc);
    loop {
        let count = match input.take(&mut piece) {
            Ok(0) => return write_rest(task, splitter, &mut output_buffer, out),
            Ok(count) => count,
            Err(Failed) => return Err(Stop::ReadFault),
        };
        if count > left {
            write_piece(
                alloc,
                task,
                splitter,
                &piece[..left],
                &mut output_buffer,
                out,
            )?;
            let at = splitter.place();
            return Err(write_last(task, at, b"", b"limit", &mut output_buffer, out));
        }
        write_piece(
            alloc,
            task,
            splitter,
            &piece[..count],
            &mut output_buffer,
            out,
        )?;
        left -= count;
    }
}
