//! What a lane speaks, and how far it is.

use crate::http_state::HttpState;
use crate::response_state::ResponseState;
use crate::websocket_state::WebSocketState;

/// What a lane speaks.
#[derive(Drop)]
pub enum Protocol {
    /// Requests come, and replies go out.
    Http(HttpState),
    /// It asked, and its response comes.
    Response(ResponseState),
    /// Messages come and go.
    Socket(WebSocketState),
}

/// How far a lane is.
#[derive(Clone, Copy, PartialEq, Eq)]
pub enum Stage {
    /// It is heard, and spoken to.
    Live,
    /// Its wire was shut, which is still to be heard as its loss.
    Lost,
    /// It is heard no more. Once what waits is written, its wire is shut.
    Closing,
    /// Its wire was shut, and there is no more to it.
    Over,
}
