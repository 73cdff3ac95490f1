//! What is written of one frame, as text that gathers on a desk until a piece of the input is dealt with.
ghost use Rattle.std.specs.Prelude.{◌≡◌, ◌++◌, ℕ, List, [], OnOk, OnErr, IfErr, codes};
ghost use Rattle.std.specs.Fmt.{decimal, signed_decimal};
ghost use Rattle.hm_message.specs.Message.{Fits};
ghost use Rattle.hm_codec.specs.Frames.{frame_of};
ghost use Rattle.hm_codec.specs.Words.{why_words};
ghost use Rattle.sr_check.specs.Output.{line_at, message_text, unknown_text, last_text, IsWritten};
ghost use Rattle.sr_check.specs.Going.{IsRefusal, EndsOnDesk};
ghost use Rattle.hm_message.specs.declared.message.Codec.TheVariants as codec;

use crate::task::{Stop, Task};
use hm_codec::{FrameError, FrameWhy, read_message_in, write_message_in};
use hm_json::write_message as write_json;
use hm_message::{Message, Read};
use itoa::Buffer;
use json::Scratch;
use std::alloc::{AllocError, Global};

/// The memory that the frames of a stream share.
#[derive(Drop)]
pub(crate) struct OutputBuffer {
    /// What is to be written next, in whole lines or frames.
    pub(crate) text: Vec<u8>,
    /// A line or a frame that is being made. What it holds counts for nothing.
    body: Vec<u8>,
    /// What the reader of JSON keeps from frame to frame.
    scratch: Scratch,
}

impl OutputBuffer {
    /// An empty desk.
    pub(crate) fn new(alloc: Global) -> OutputBuffer
        ensures { result.text.items ≡ [] }
    {
        OutputBuffer {
            text: Vec::new(alloc),
            body: Vec::new(alloc),
            scratch: Scratch::new(alloc),
        }
    }
}

/// Begins a line with a place.
fn begin_line(at: u64, line: &mut Vec<u8>) -> Result<(), AllocError>
    ensures { OnOk result (line.new.items ≡ decimal at ++ codes " ") }
{
    line.clear();
    line.extend_from_slice(Buffer::new().format(at).as_bytes())?;
    line.push(b' ')?;
    Ok(())
}

/// Puts a line on the desk: a place, and what is said of what stands there.
fn put_line(
    at: u64,
    first: &[u8],
    words: &[u8],
    output_buffer: &mut OutputBuffer,
) -> Result<(), AllocError>
    ensures ok { OnOk result (output_buffer.new.text.items ≡ output_buffer.old.text.items ++ line_at at (first.now ++ words.now)) }
    ensures err { OnErr result (output_buffer.new.text.items ≡ output_buffer.old.text.items) }
{
    begin_line(at, &mut output_buffer.body)?;
    output_buffer.body.extend_from_slice(first)?;
    output_buffer.body.extend_from_slice(words)?;
    output_buffer.body.push(b'\n')?;
    output_buffer.text.extend_from_slice(&output_buffer.body)?;
    Ok(())
}

fn put_message_line(
    alloc: Global,
    at: u64,
    message: &Message,
    output_buffer: &mut OutputBuffer,
) -> Result<(), AllocError>
    requires { Fits message.now }
    ensures ok { OnOk result (output_buffer.new.text.items ≡ output_buffer.old.text.items ++ line_at at (codes "message " ++ frame_of codec.Json message.now)) }
    ensures err { OnErr result (output_buffer.new.text.items ≡ output_buffer.old.text.items) }
{
    begin_line(at, &mut output_buffer.body)?;
    output_buffer.body.extend_from_slice(b"message ")?;
    write_json(alloc, message, &mut output_buffer.body)?;
    output_buffer.body.push(b'\n')?;
    output_buffer.text.extend_from_slice(&output_buffer.body)?;
    Ok(())
}

fn put_message(
    alloc: Global,
    task: Task,
    at: u64,
    message: &Message,
    output_buffer: &mut OutputBuffer,
) -> Result<(), AllocError>
    requires { Fits message.now }
    ensures ok { OnOk result (output_buffer.new.text.items ≡ output_buffer.old.text.items ++ message_text task at message.now) }
    ensures err { OnErr result (output_buffer.new.text.items ≡ output_buffer.old.text.items) }
{
    match task {
        Task::Check { .. } => put_message_line(alloc, at, message, output_buffer),
        Task::Convert { to, .. } => write_message_in(
            alloc,
            to,
            message,
            &mut output_buffer.body,
            &mut output_buffer.text,
        ),
    }
}

fn put_unknown(
    task: Task,
    at: u64,
    kind: i128,
    output_buffer: &mut OutputBuffer,
) -> Result<(), AllocError>
    ensures ok { OnOk result (output_buffer.new.text.items ≡ output_buffer.old.text.items ++ unknown_text task at kind) }
    ensures err { OnErr result (output_buffer.new.text.items ≡ output_buffer.old.text.items) }
{
    match task {
        Task::Check { .. } => {
            let mut digits = Buffer::new();
            put_line(
                at,
                b"unknown ",
                digits.format(kind).as_bytes(),
                output_buffer,
            )
        }
        Task::Convert { .. } => Ok(()),
    }
}

/// Puts what is written last where the stream can't be followed further.
pub(crate) fn put_last(
    task: Task,
    at: u64,
    first: &[u8],
    words: &[u8],
    output_buffer: &mut OutputBuffer,
) -> Result<(), AllocError>
    ensures ok { OnOk result (output_buffer.new.text.items ≡ output_buffer.old.text.items ++ last_text task at (first.now ++ words.now)) }
    ensures err { OnErr result (output_buffer.new.text.items ≡ output_buffer.old.text.items) }
{
    match task {
        Task::Check { .. } => put_line(at, first, words, output_buffer),
        Task::Convert { .. } => Ok(()),
    }
}

/// Puts what is written of a refusal, and answers how the task ends.
pub(crate) fn put_refusal(
    alloc: Global,
    task: Task,
    at: u64,
    why: FrameWhy,
    output_buffer: &mut OutputBuffer,
) -> Stop
    ensures { EndsOnDesk result (λ text. text ≡ last_text task at (codes "refused " ++ why_words why)) output_buffer.old.text.items output_buffer.new.text.items }
{
    let Ok(words) = format!(in alloc; "{why}") else {
        return Stop::NoMemory;
    };
    match put_last(task, at, b"refused ", words.as_bytes(), output_buffer) {
        Ok(()) => Stop::Refused,
        Err(_) => Stop::NoMemory,
    }
}

/// Puts what is written of a frame, whole or not at all. `Err` is how the task ends.
pub(crate) fn put_frame(
    alloc: Global,
    task: Task,
    at: u64,
    frame: &[u8],
    output_buffer: &mut OutputBuffer,
) -> Result<(), Stop>
    ensures good { OnOk result ((text : List ℕ) × IsWritten task at frame.now text × (output_buffer.new.text.items ≡ output_buffer.old.text.items ++ text)) }
    ensures ended { IfErr result (λ stop. EndsOnDesk stop (IsRefusal task at frame.now) output_buffer.old.text.items output_buffer.new.text.items) }
{
    match read_message_in(alloc, task.codec(), &mut output_buffer.scratch, frame) {
        Ok(Read::Message(message)) => {
            put_message(alloc, task, at, &message, output_buffer)?;
            Ok(())
        }
        Ok(Read::Unknown(kind)) => {
            put_unknown(task, at, kind, output_buffer)?;
            Ok(())
        }
        Err(FrameError::Refused(why)) => Err(put_refusal(alloc, task, at, why, output_buffer)),
        Err(FrameError::NoMemory) => Err(Stop::NoMemory),
    }
}
