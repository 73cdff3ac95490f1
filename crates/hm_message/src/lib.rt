//! The messages of the hub protocol (HubProtocol.md of ASP.NET Core), whatever encoding carries
//! them, and what every encoding of them asks of a value.
//!
//! [`Message`] has a variant for each of the nine, and [`Read`] is what a frame says: a message, or
//! the number of a type that no message has. Whoever reads matches on both, and whoever writes asks
//! first whether the message nests too deep for a frame:
//!
//! ```text
//! match read {
//!     Read::Message(Message::Invocation { id, target, arguments, .. }) => ..,
//!     Read::Message(Message::Completion { id, ending, .. }) => ..,
//!     Read::Message(_) => ..,
//!     Read::Unknown(number) => ..,                   // passed over, not refused
//! }
//! if message.fits() { write_message(alloc, &message, out)?; }    // of `hm_json` or `hm_pack`
//! ```
//!
//! A codec makes the parts of a message from values by `into_text`, `into_items`, `into_texts` and
//! `into_headers`, which take the value, or by `text_in` and the like, which copy.
//!
//! Proved: a copy is the message itself; `fits` says whether its frame nests at most 64 deep in
//! either encoding; the types have the numbers 1 to 9, each its own ([`kinds_have_numbers`]); what
//! JSON makes of a message, in which bytes become text, is its own image ([`image_is_its_image`]).
//!
//! The crate doesn't know how a message is spelled, who says it, nor what answers it.
#![tactic(auto)]

mod fields;
mod headers;
mod kind;
mod laws;
mod message;

pub use fields::{
    headers_in, into_headers, into_items, into_text, into_texts, number_in, text_in, texts_in,
};
pub use headers::Headers;
pub use kind::Kind;
pub use laws::{
    image_is_its_image, kinds_have_numbers, message_image_is_as_deep, values_are_trees,
};
pub use message::{Codec, Ending, Field, Message, Read};
