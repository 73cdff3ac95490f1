//! What one turn of a lane hears.

ghost use Rattle.std.specs.Prelude.{◌≡◌};
ghost use Rattle.hw_net.specs.Input.{is_nothing, is_upgraded};

use hw_lanes::{Refusal, Request, Vec8};

#[derive(Drop)]
pub enum Input {
    /// Nothing that is whole.
    Nothing,
    Request(Request),
    /// What came is no request, and is to be answered with this.
    Refused(Refusal),
    /// The response to what was asked.
    Response { status: u16, body: Vec8 },
    /// The response accepts the upgrade that was asked for.
    Upgraded,
    /// A message of a WebSocket.
    Message(Vec8),
    /// The wire ended or failed, bytes that were read are lost, or what came is no response, or accepts another upgrade.
    Broken,
    /// The WebSocket is gone: its other side closed it or broke its rules, or a text to send was none.
    Gone,
}

/// Whether nothing was heard.
pub fn is_nothing(input: &Input) -> bool
    ensures { result ≡ is_nothing input.now }
{
    match input {
        Input::Nothing => true,
        Input::Request(_) => false,
        Input::Refused(_) => false,
        Input::Response { .. } => false,
        Input::Upgraded => false,
        Input::Message(_) => false,
        Input::Broken => false,
        Input::Gone => false,
    }
}

/// Whether an upgrade was accepted.
pub fn is_upgraded(input: &Input) -> bool
    ensures { result ≡ is_upgraded input.now }
{
    match input {
        Input::Nothing => false,
        Input::Request(_) => false,
        Input::Refused(_) => false,
        Input::Response { .. } => false,
        Input::Upgraded => true,
        Input::Message(_) => false,
        Input::Broken => false,
        Input::Gone => false,
    }
}
