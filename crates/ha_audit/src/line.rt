//! The grammar of one line of a trace after its first: the step that it tells, if any. It doesn't know other lines.

ghost use Rattle.std.specs.Prelude.{◌≡◌, ◌≢◌, ◌++◌, ◌∷◌, [], ℕ, List, IfOk, IfSome, IfNone};
ghost use Rattle.hex.specs.Hex.{IsBytes, encode_lower};
ghost use Rattle.hm_message.specs.declared.message.Message.{Message};
ghost use Rattle.hm_json.specs.Frame.{frame_of};
ghost use Rattle.hd_trace.specs.declared.trace.ToldStep.{ToldStep};
ghost use Rattle.hd_trace.specs.declared.trace.TraceLine.{TraceLine};
ghost use Rattle.ha_audit.specs.Grammar.{AreWords, HasLine, HasText, IsOneLine, line_words, piece_words, step_words};

use hd_delivery::Side;
use hd_trace::{ToldStep, TraceLine};
use hex::FromHexError;
use hm_json::{Refusal, one_meaning, read_message_in, write_message};
use hm_message::{Message, Read};
use hv_value::{Blob, Text};
use json::Scratch;
use sr_notation::parse_number;
use std::alloc::{AllocError, Global};

/// The first line of these bytes, without its end, and what comes after it; or `None` if no line ends in them.
pub(crate) fn split_line(bytes: &[u8]) -> Option<(&[u8], &[u8])>
    ensures found { IfSome result (λ parts. IsOneLine parts.0.now × (bytes.now ≡ parts.0.now ++ 10 ∷ parts.1.now)) }
    ensures none { IfNone result (IsOneLine bytes.now) }
{
    for (i, byte) in bytes.iter().enumerate() {
        if *byte == b'\n' {
            return Some((&bytes[..i], &bytes[i + 1..]));
        }
    }
    None
}

/// The bytes that these digits spell in lower case, or `None` if they spell none.
fn parse_bytes(alloc: Global, digits: &[u8]) -> Result<Option<Blob>, AllocError>
    ensures found { IfOk result (λ r. IfSome r (λ bytes. (digits.now ≡ encode_lower bytes) × IsBytes bytes × (bytes ≢ []))) }
    ensures none { IfOk result (λ r. IfNone r ((bytes : List ℕ) → IsBytes bytes → bytes ≢ [] → digits.now ≡ encode_lower bytes → ⊥)) }
{
    if digits.is_empty() {
        return Ok(None);
    }
    let bytes = match hex::decode(alloc, digits) {
        Ok(bytes) => bytes,
        Err(FromHexError::OutOfMemory) => return Err(AllocError),
        Err(FromHexError::OddLength) => return Ok(None),
        Err(FromHexError::InvalidStringLength) => return Ok(None),
        Err(FromHexError::InvalidHexCharacter { .. }) => return Ok(None),
    };
    // `decode` takes capitals too.
    let spelled = hex::encode(alloc, bytes.as_slice())?;
    if spelled.as_bytes() == digits {
        Ok(Some(Blob::from_vec(bytes)))
    } else {
        Ok(None)
    }
}

/// The bytes that were fed, which may be none.
fn parse_piece(alloc: Global, words: &[u8]) -> Result<Option<Blob>, AllocError>
    ensures found { IfOk result (λ r. IfSome r (λ piece. (words.now ≡ piece_words piece) × IsBytes piece)) }
    ensures none { IfOk result (λ r. IfNone r ((piece : List ℕ) → IsBytes piece → words.now ≡ piece_words piece → ⊥)) }
{
    if words == b"-".as_slice() {
        return Ok(Some(Blob::from_vec(Vec::new(alloc))));
    }
    match parse_bytes(alloc, words)? {
        Some(piece) => Ok(Some(piece)),
        None => Ok(None),
    }
}

/// The message that this frame says, if it is one that is sent, and the frame is as it is written.
fn parse_message(
    alloc: Global,
    scratch: &mut Scratch,
    frame: &[u8],
) -> Result<Option<Message>, AllocError>
    ensures found { IfOk result (λ r. IfSome r (λ m. (frame.now ≡ frame_of m) × HasText m)) }
    ensures none { IfOk result (λ r. IfNone r ((m : Message) → HasText m → frame.now ≡ frame_of m → ⊥)) }
{
    one_meaning();
    let message = match read_message_in(alloc, scratch, frame) {
        Ok(Read::Message(message)) => message,
        Ok(Read::Unknown(_)) => return Ok(None),
        Err(Refusal::NoMemory) => return Err(AllocError),
        Err(_) => return Ok(None),
    };
    if !message.is_sequenced() {
        return Ok(None);
    }
    let mut written = Vec::new(alloc);
    write_message(alloc, &message, &mut written)?;
    if written.as_slice() == frame {
        Ok(Some(message))
    } else {
        Ok(None)
    }
}

/// The words that tell what was taken, if there are any.
fn parse_told(alloc: Global, words: &[u8]) -> Result<Option<Text>, AllocError>
    requires { IsOneLine words.now }
    ensures found { IfOk result (λ r. IfSome r (λ told. (words.now ≡ told) × AreWords told)) }
    ensures none { IfOk result (λ r. IfNone r (AreWords words.now → ⊥)) }
{
    if words.is_empty() {
        return Ok(None);
    }
    let Ok(words) = str::from_utf8(words) else {
        return Ok(None);
    };
    Ok(Some(Text::of(alloc, words)?))
}

/// The step that these words tell, which stand after the letter of an end.
fn parse_step(
    alloc: Global,
    scratch: &mut Scratch,
    words: &[u8],
) -> Result<Option<ToldStep>, AllocError>
    requires { IsOneLine words.now }
    ensures found { IfOk result (λ r. IfSome r (λ step. (words.now ≡ step_words step) × HasLine step)) }
    ensures none { IfOk result (λ r. IfNone r ((step : ToldStep) → HasLine step → words.now ≡ step_words step → ⊥)) }
{
    if words == b"detach".as_slice() {
        return Ok(Some(ToldStep::Detach));
    }
    if words == b"close".as_slice() {
        return Ok(Some(ToldStep::Close));
    }
    if let Some(link) = words.strip_prefix(b"attach ") {
        return Ok(parse_number(alloc, link)?.map(ToldStep::Attach));
    }
    if let Some(piece) = words.strip_prefix(b"fed ") {
        return Ok(parse_piece(alloc, piece)?.map(ToldStep::Feed));
    }
    if let Some(frame) = words.strip_prefix(b"lent ") {
        return Ok(parse_bytes(alloc, frame)?.map(ToldStep::Lend));
    }
    if let Some(frame) = words.strip_prefix(b"sent ") {
        return Ok(parse_message(alloc, scratch, frame)?.map(ToldStep::Send));
    }
    if let Some(told) = words.strip_prefix(b"took ") {
        return Ok(parse_told(alloc, told)?.map(ToldStep::Take));
    }
    if let Some(now) = words.strip_prefix(b"tick ") {
        return Ok(parse_number(alloc, now)?.map(ToldStep::Tick));
    }
    Ok(None)
}

/// The step that a line tells, given without its end, and whose it is.
pub(crate) fn parse_line(
    alloc: Global,
    scratch: &mut Scratch,
    line: &[u8],
) -> Result<Option<TraceLine>, AllocError>
    requires { IsOneLine line.now }
    ensures found { IfOk result (λ r. IfSome r (λ told. (line.now ≡ line_words told) × HasLine told.step)) }
    ensures none { IfOk result (λ r. IfNone r ((told : TraceLine) → HasLine told.step → line.now ≡ line_words told → ⊥)) }
{
    if let Some(words) = line.strip_prefix(b"c ") {
        return match parse_step(alloc, scratch, words)? {
            Some(step) => Ok(Some(TraceLine {
                side: Side::Client,
                step,
            })),
            None => Ok(None),
        };
    }
    if let Some(words) = line.strip_prefix(b"s ") {
        return match parse_step(alloc, scratch, words)? {
            Some(step) => Ok(Some(TraceLine {
                side: Side::Server,
                step,
            })),
            None => Ok(None),
        };
    }
    Ok(None)
}
