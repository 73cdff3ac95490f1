//! The lines of what an end does, and of how it stands.

ghost use Rattle.std.specs.Prelude.{◌≡◌, ◌++◌, OnOk, codes};
ghost use Rattle.std.specs.Fmt.{decimal};
ghost use Rattle.hd_delivery.specs.Histories.{HasFit};
ghost use Rattle.he_end.specs.Words.{attach_words, next_words, send_words};
ghost use Rattle.sr_notation.specs.Words.{got_words, line_at};
ghost use Rattle.sr_lines.specs.Lines.{side_word, standing_line, state_word};

use hd_delivery::{Got, Side, State};
use he_end::{AttachError, NextError, SendError};
use sr_notation::{letter, push_got_words};
use std::alloc::{AllocError, Global};

/// The name of a side.
fn name(side: Side) -> &'static str
    ensures { result.now ≡ side_word side }
{
    match side {
        Side::Client => "client",
        Side::Server => "server",
    }
}

fn state_word(state: State) -> &'static str
    ensures { result.now ≡ state_word state }
{
    match state {
        State::Opening => "Opening",
        State::Ready => "Ready",
        State::Away => "Away",
        State::Closed => "Closed",
    }
}

/// Appends the line of a message that was sent with this number.
pub fn push_sent(
    alloc: Global,
    report: &mut Vec<u8>,
    side: Side,
    number: u64,
) -> Result<(), AllocError>
    ensures { OnOk result (report.new.items ≡ report.old.items ++ line_at side (codes "sent " ++ decimal number)) }
{
    let letter = letter(side);
    let line = format!(in alloc; "{letter} sent {number}\n")?;
    report.extend_from_slice(line.as_bytes())
}

/// Appends the line of a message that wasn't sent.
pub fn push_refused_send(
    alloc: Global,
    report: &mut Vec<u8>,
    side: Side,
    why: &SendError,
) -> Result<(), AllocError>
    ensures { OnOk result (report.new.items ≡ report.old.items ++ line_at side (codes "refused " ++ send_words why.now)) }
{
    let letter = letter(side);
    let line = format!(in alloc; "{letter} refused {why}\n")?;
    report.extend_from_slice(line.as_bytes())
}

/// Appends the line of a link that wasn't taken.
pub fn push_refused_attach(
    alloc: Global,
    report: &mut Vec<u8>,
    side: Side,
    why: &AttachError,
) -> Result<(), AllocError>
    ensures { OnOk result (report.new.items ≡ report.old.items ++ line_at side (codes "refused " ++ attach_words why.now)) }
{
    let letter = letter(side);
    let line = format!(in alloc; "{letter} refused {why}\n")?;
    report.extend_from_slice(line.as_bytes())
}

/// Appends the line of a silence.
pub fn push_silent(report: &mut Vec<u8>, side: Side) -> Result<(), AllocError>
    ensures { OnOk result (report.new.items ≡ report.old.items ++ line_at side (codes "silent")) }
{
    let line: &[u8] = match side {
        Side::Client => b"c silent\n",
        Side::Server => b"s silent\n",
    };
    report.extend_from_slice(line)
}

/// Appends the line of a fault.
pub fn push_fault(
    alloc: Global,
    report: &mut Vec<u8>,
    side: Side,
    fault: &NextError,
) -> Result<(), AllocError>
    ensures { OnOk result (report.new.items ≡ report.old.items ++ line_at side (codes "fault " ++ next_words fault.now)) }
{
    let letter = letter(side);
    let line = format!(in alloc; "{letter} fault {fault}\n")?;
    report.extend_from_slice(line.as_bytes())
}

/// Appends the line of what a frame gave. A message has this number.
pub fn push_got(
    alloc: Global,
    report: &mut Vec<u8>,
    side: Side,
    number: u64,
    got: &Got,
) -> Result<(), AllocError>
    requires { HasFit got.now }
    ensures { OnOk result (report.new.items ≡ report.old.items ++ line_at side (got_words number got.now)) }
{
    report.extend_from_slice(letter(side).as_bytes())?;
    report.push(b' ')?;
    push_got_words(alloc, report, number, got)?;
    report.push(b'\n')?;
    Ok(())
}

/// Appends the line of how an end stands: its state, and how many messages it sent, processed and holds.
pub fn push_standing(
    alloc: Global,
    report: &mut Vec<u8>,
    side: Side,
    state: State,
    sent: u64,
    processed: u64,
    held: usize,
) -> Result<(), AllocError>
    ensures { OnOk result (report.new.items ≡ report.old.items ++ standing_line side state sent processed held) }
{
    let name = name(side);
    let state = state_word(state);
    let line = format!(in alloc; "{name} {state} sent {sent} processed {processed} held {held}\n")?;
    report.extend_from_slice(line.as_bytes())
}
