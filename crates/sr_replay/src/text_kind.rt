//! The two texts that are told of a run: the report, for its reader, and the trace, by which each step can be judged. A call here tells one
//! thing that an end did, in the text of its kind, and appends nothing if that text doesn't tell it. It doesn't know ends.

ghost use Rattle.std.specs.Prelude.{◌≡◌, ◌<◌, ◌++◌, ℕ, suc, false, List, OnOk, codes, length, if◌then◌else◌};
ghost use Rattle.std.specs.Fmt.{decimal};
ghost use Rattle.hex.specs.Hex.{encode_lower};
ghost use Rattle.hm_message.specs.declared.message.Codec.{Codec};
ghost use Rattle.hm_message.specs.Message.{Fits};
ghost use Rattle.hm_codec.specs.Frames.{said_again};
ghost use Rattle.hm_json.specs.Frame.{frame_of};
ghost use Rattle.hd_delivery.specs.declared.vocabulary.Reason.TheVariants as reason;
ghost use Rattle.hd_delivery.specs.Frames.{LinkFrame};
ghost use Rattle.hd_delivery.specs.Histories as of;
ghost use Rattle.hd_delivery.specs.Histories.{Attached, Closed, Detached, Failed, Fault, HasFit, Lent, Sent, Silenced, Ticked, Took, codec_of, processed_messages, sent_messages};
ghost use Rattle.hd_delivery.specs.Bytes.{Wire, ByteStep, Bytes, Does, bare_steps, in_frames};
ghost use Rattle.he_end.specs.Words.{attach_words, next_words, send_words};
ghost use Rattle.sr_notation.specs.Words.{got_words, line_at};
ghost use Rattle.sr_lines.specs.Lines.{fault_words};
ghost use Rattle.sr_replay.specs.Runs.{Makes, Refuses};
ghost use Rattle.sr_replay.specs.Told.{told_text, Tells};

use hd_delivery::{Got, Side, fed_is_unseen};
use he_end::{AttachError, NextError, SendError};
use hm_json::{frame_is_of_image, write_message};
use hm_message::Message;
use sr_lines::{
    push_fault, push_got, push_refused_attach, push_refused_send, push_sent, push_silent,
};
use sr_notation::{letter, push_got_words};
use std::alloc::{AllocError, Global};

/// Which text is told of a run.
#[derive(Clone, Copy)]
pub(crate) enum TextKind {
    /// What was sent and taken, what was refused, faults and silences.
    Report,
    /// Each step of both ends, and nothing else.
    Trace,
}

impl TextKind {
    /// An end of this side took a link.
    pub(crate) fn push_attached(
        self,
        alloc: Global,
        told: &mut Vec<u8>,
        side: Side,
        link: u64,
    ) -> Result<(), AllocError>
        ensures { OnOk result ((now : ℕ) → Tells self side told.old.items told.new.items (Makes (Does (Attached link now)))) }
    {
        match self {
            TextKind::Report => Ok(()),
            TextKind::Trace => push_number(alloc, told, side, "attach", link),
        }
    }

    /// An end of this side didn't take a link.
    pub(crate) fn push_refused_attach(
        self,
        alloc: Global,
        told: &mut Vec<u8>,
        side: Side,
        why: &AttachError,
    ) -> Result<(), AllocError>
        ensures { OnOk result (Tells self side told.old.items told.new.items (Refuses (attach_words why.now))) }
    {
        match self {
            TextKind::Report => push_refused_attach(alloc, told, side, why),
            TextKind::Trace => Ok(()),
        }
    }

    /// An end of this side lost its link.
    pub(crate) fn push_detached(
        self,
        alloc: Global,
        told: &mut Vec<u8>,
        side: Side,
    ) -> Result<(), AllocError>
        ensures { OnOk result ((now : ℕ) → Tells self side told.old.items told.new.items (Makes (Does (Detached now)))) }
    {
        match self {
            TextKind::Report => Ok(()),
            TextKind::Trace => push_word(alloc, told, side, "detach"),
        }
    }

    /// An end of this side was closed, since nothing is left to do.
    pub(crate) fn push_closed(
        self,
        alloc: Global,
        told: &mut Vec<u8>,
        side: Side,
    ) -> Result<(), AllocError>
        ensures { OnOk result (Tells self side told.old.items told.new.items (Makes (Does (Closed reason.Done false)))) }
    {
        match self {
            TextKind::Report => Ok(()),
            TextKind::Trace => push_word(alloc, told, side, "close"),
        }
    }

    /// A moment came at an end of this side. It may be a silence.
    pub(crate) fn push_ticked(
        self,
        alloc: Global,
        told: &mut Vec<u8>,
        side: Side,
        silent: bool,
        now: u64,
    ) -> Result<(), AllocError>
        ensures { OnOk result (Tells self side told.old.items told.new.items (Makes (Does (if silent then Silenced now else Ticked now)))) }
    {
        match self {
            TextKind::Report => {
                if silent {
                    return push_silent(told, side);
                }
                Ok(())
            }
            TextKind::Trace => push_number(alloc, told, side, "tick", now),
        }
    }

    /// An end of this side sent a message, with this number.
    pub(crate) fn push_sent(
        self,
        alloc: Global,
        told: &mut Vec<u8>,
        side: Side,
        number: u64,
        message: &Message,
    ) -> Result<(), AllocError>
        requires { Fits message.now }
        ensures { OnOk result ((wire : Wire) (c : of.Config) (h : List ByteStep) (codec : Codec) → c.side ≡ side →
            number ≡ suc (length (sent_messages (bare_steps h))) →
            told.new.items ≡ told.old.items ++ told_text self wire c h (Makes (Does (Sent (said_again codec message.now))))) }
    {
        frame_is_of_image();
        match self {
            TextKind::Report => push_sent(alloc, told, side, number),
            TextKind::Trace => push_message(alloc, told, side, message),
        }
    }

    /// An end of this side didn't send a message.
    pub(crate) fn push_refused_send(
        self,
        alloc: Global,
        told: &mut Vec<u8>,
        side: Side,
        why: &SendError,
    ) -> Result<(), AllocError>
        ensures { OnOk result (Tells self side told.old.items told.new.items (Refuses (send_words why.now))) }
    {
        match self {
            TextKind::Report => push_refused_send(alloc, told, side, why),
            TextKind::Trace => Ok(()),
        }
    }

    /// An end of this side said a frame, which has these bytes.
    pub(crate) fn push_lent(
        self,
        alloc: Global,
        told: &mut Vec<u8>,
        side: Side,
        bytes: &[u8],
    ) -> Result<(), AllocError>
        ensures { OnOk result ((wire : Wire) (c : of.Config) (h : List ByteStep) (f : LinkFrame) → c.side ≡ side →
            bytes.now ≡ wire.spell (codec_of c (in_frames wire c h)) f →
            told.new.items ≡ told.old.items ++ told_text self wire c h (Makes (Does (Lent f)))) }
    {
        match self {
            TextKind::Report => Ok(()),
            TextKind::Trace => push_bytes(alloc, told, side, "lent", bytes),
        }
    }

    /// An end of this side was fed these bytes.
    pub(crate) fn push_fed(
        self,
        alloc: Global,
        told: &mut Vec<u8>,
        side: Side,
        piece: &[u8],
    ) -> Result<(), AllocError>
        requires { 0 < length piece.now }
        ensures { OnOk result (Tells self side told.old.items told.new.items (Makes (Bytes piece.now))) }
    {
        match self {
            TextKind::Report => Ok(()),
            TextKind::Trace => push_bytes(alloc, told, side, "fed", piece),
        }
    }

    /// An end of this side took a frame, which gave this. A message has this number.
    pub(crate) fn push_took(
        self,
        alloc: Global,
        told: &mut Vec<u8>,
        side: Side,
        number: u64,
        got: &Got,
    ) -> Result<(), AllocError>
        requires { HasFit got.now }
        ensures { OnOk result ((wire : Wire) (c : of.Config) (h : List ByteStep) → c.side ≡ side →
            got_words number got.now ≡ got_words (suc (length (processed_messages (in_frames wire c h)))) got.now →
            told.new.items ≡ told.old.items ++ told_text self wire c h (Makes (Does (Took got.now)))) }
    {
        fed_is_unseen();
        match self {
            TextKind::Report => push_got(alloc, told, side, number, got),
            TextKind::Trace => push_taken(alloc, told, side, number, got),
        }
    }

    /// An end of this side was closed by a frame that can't be taken.
    pub(crate) fn push_failed(
        self,
        alloc: Global,
        told: &mut Vec<u8>,
        side: Side,
        why: &NextError,
    ) -> Result<(), AllocError>
        ensures { OnOk result ((wire : Wire) (c : of.Config) (h : List ByteStep) (fault : Fault) → c.side ≡ side →
            next_words why.now ≡ fault_words fault →
            told.new.items ≡ told.old.items ++ told_text self wire c h (Makes (Does (Failed fault)))) }
    {
        match self {
            TextKind::Report => push_fault(alloc, told, side, why),
            TextKind::Trace => Ok(()),
        }
    }
}

// ---- lines of a trace

/// Appends a line of one word.
fn push_word(alloc: Global, trace: &mut Vec<u8>, side: Side, word: &str) -> Result<(), AllocError>
    ensures { OnOk result (trace.new.items ≡ trace.old.items ++ line_at side word.now) }
{
    let letter = letter(side);
    let line = format!(in alloc; "{letter} {word}\n")?;
    trace.extend_from_slice(line.as_bytes())
}

/// Appends a line of a word and a number.
fn push_number(
    alloc: Global,
    trace: &mut Vec<u8>,
    side: Side,
    word: &str,
    number: u64,
) -> Result<(), AllocError>
    ensures { OnOk result (trace.new.items ≡ trace.old.items ++ line_at side (word.now ++ (codes " " ++ decimal number))) }
{
    let letter = letter(side);
    let line = format!(in alloc; "{letter} {word} {number}\n")?;
    trace.extend_from_slice(line.as_bytes())
}

/// Appends a line of a word and bytes in hexadecimal.
fn push_bytes(
    alloc: Global,
    trace: &mut Vec<u8>,
    side: Side,
    word: &str,
    bytes: &[u8],
) -> Result<(), AllocError>
    ensures { OnOk result (trace.new.items ≡ trace.old.items ++ line_at side (word.now ++ (codes " " ++ encode_lower bytes.now))) }
{
    let letter = letter(side);
    let digits = hex::encode(alloc, bytes)?;
    let line = format!(in alloc; "{letter} {word} {digits}\n")?;
    trace.extend_from_slice(line.as_bytes())
}

/// Appends the line of a message that was sent, as JSON.
fn push_message(
    alloc: Global,
    trace: &mut Vec<u8>,
    side: Side,
    message: &Message,
) -> Result<(), AllocError>
    requires { Fits message.now }
    ensures { OnOk result (trace.new.items ≡ trace.old.items ++ line_at side (codes "sent " ++ frame_of message.now)) }
{
    trace.extend_from_slice(letter(side).as_bytes())?;
    trace.extend_from_slice(b" sent ")?;
    write_message(alloc, message, trace)?;
    trace.push(b'\n')?;
    Ok(())
}

/// Appends the line of what a frame gave. A message has this number.
fn push_taken(
    alloc: Global,
    trace: &mut Vec<u8>,
    side: Side,
    number: u64,
    got: &Got,
) -> Result<(), AllocError>
    requires { HasFit got.now }
    ensures { OnOk result (trace.new.items ≡ trace.old.items ++ line_at side (codes "took " ++ got_words number got.now)) }
{
    trace.extend_from_slice(letter(side).as_bytes())?;
    trace.extend_from_slice(b" took ")?;
    push_got_words(alloc, trace, number, got)?;
    trace.push(b'\n')?;
    Ok(())
}
