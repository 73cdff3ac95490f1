//! Why a call of a method is refused. Its job then ends with the refusal's text at its first turn.

ghost use Rattle.std.specs.Prelude.{◌≡◌};
ghost use Rattle.hub_calc.specs.Refusals.{refusal_text};
ghost use Rattle.hub_calc.specs.Refusals.{wrong_kind as wrong_kind_of};

use hd_calls::CallKind;
use std::error::Error;
use std::fmt;

/// Why a call of a method is refused. They are tested in this order.
#[derive(Clone, Copy, Debug, PartialEq, Eq)]
pub enum Refusal {
    /// The hub has no method that the target names.
    UnknownMethod,
    /// A Stream calls a method that gives no items.
    NotAStream,
    /// A Call or a Notify calls a method that gives items.
    AStream,
    /// The method takes other arguments, or has another number of uploads.
    WrongArguments,
}

impl Refusal {
    /// The error with which the call ends.
    pub fn text(self) -> &'static str
        ensures { result.now ≡ refusal_text self }
    {
        match self {
            Refusal::UnknownMethod => "Unknown method.",
            Refusal::NotAStream => "Not a stream.",
            Refusal::AStream => "A stream.",
            Refusal::WrongArguments => "Wrong arguments.",
        }
    }
}

impl fmt::Display for Refusal {
    ghost use Rattle.std.specs.Prelude.{Some};
    ghost use Rattle.hub_calc.specs.Refusals.{refusal_text};

    ghost output = { λ refusal. Some (refusal_text refusal) };

    fn fmt<W: fmt::Write>(&self, f: &mut fmt::Formatter<W>) -> fmt::Result {
        f.write_str(self.text())
    }
}

impl Error for Refusal {}

/// What is wrong with the kind of a call. `is_stream` says whether its method gives items.
pub fn wrong_kind(is_stream: bool, kind: CallKind) -> Option<Refusal>
    ensures { result ≡ wrong_kind_of is_stream kind }
{
    match (is_stream, kind) {
        (false, CallKind::Stream) => Some(Refusal::NotAStream),
        (true, CallKind::Call) => Some(Refusal::AStream),
        (true, CallKind::Notify) => Some(Refusal::AStream),
        (false, CallKind::Call) => None,
        (false, CallKind::Notify) => None,
        (true, CallKind::Stream) => None,
    }
}
