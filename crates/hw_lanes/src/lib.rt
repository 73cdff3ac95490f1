//! The words for what goes through lanes and doors: bytes that need not be UTF-8, requests and their replies.
//!
//! A lane turns the bytes of one connection into these, a door hands them on, and a server answers them. [`query_value`] reads the
//! query of a request. The crate doesn't know how a request is spelled, nor who hears it.
#![tactic(auto)]

mod bytes;
mod http;
mod query;

pub use bytes::{Text8, Vec8};
pub use http::{BodyKind, Method, Refusal, Reply, ReplyField, Request};
pub use query::query_value;
