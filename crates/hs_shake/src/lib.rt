//! The handshake of the hub protocol: the first frame in each direction of a connection's first link (HubProtocol.md of ASP.NET Core, "Overview").
//! It is JSON and ends with the record separator whatever codec is asked for, and a frame is read here without that separator.
//!
//! A client writes a request and reads the response; a server reads the request and answers it:
//!
//! ```text
//! write_request(&Shake { codec, version }, &mut out)?;   // the client
//! match read_request(alloc, frame) {                     // the server
//!     Ok(shake) => write_response(None, &mut out)?,
//!     Err(ShakeError::NoMemory) => { .. }
//!     Err(fault) => write_response(Some(&fault), &mut out)?,
//! }
//! read_response(alloc, frame)?;                          // the client
//! ```
//!
//! [`response`] lends what [`write_response`] appends. `NoMemory` is not answered.
//!
//! Proved: what is read is what the frame asks for or says, and each refusal is the first that holds
//! ([`one_request_meaning`], [`one_response_meaning`]); what is written is read as what it was written for
//! ([`requests_are_read`], [`response_is_read`], [`refusals_are_read`]). It does not know links, sockets, nor who has to say what.
#![tactic(auto)]

mod laws;
mod reading;
mod shake;
mod writing;

pub use laws::{
    numbers_are_named, one_request_meaning, one_response_meaning, refusals_are_read,
    requests_are_read, response_is_read, texts_are_plain, texts_are_short,
};
pub use reading::{read_request, read_response};
pub use shake::{HIGHEST_VERSION, Shake, ShakeError};
pub use writing::{MOST_HANDSHAKE, response, write_request, write_response};
