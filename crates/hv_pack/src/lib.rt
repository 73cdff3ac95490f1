//! Values in MessagePack: any spelling of a value is read, and the shortest is written (the MessagePack specification).
//!
//! - Reading: [`read_value`] gives the value at a place and the place after it, or the first refusal with its place.
//! - Writing: [`write_value`] appends a value's shortest spelling. Whoever has the parts of a list or a map and no [`Value`]
//!   of it puts its head and then its parts: [`put_list_head`], [`put_map_head`], [`put_nil`], [`put_bool`], [`put_number`],
//!   [`put_text`], [`put_value`], [`put_values`]. After an error he takes back what he put, by `out.truncate(held)`.
//! - Laws for the proofs of other crates, as [`one_reading`]: bytes spell at most one value, or are refused for one reason.
//!
//! It does not know messages, frames or JSON.
//!
//! [`Value`]: hv_value::Value
#![tactic(auto)]

mod error;
mod input;
mod laws;
mod marker;
mod reading;
mod writing;

pub use error::PackError;
pub use laws::{
    is_spelled_or_refused, one_reading, one_refusal, shortest_is_shortest, shortest_reads_back,
    spelled_is_not_refused,
};
pub use reading::read_value;
pub use writing::{
    put_bool, put_list_head, put_map_head, put_nil, put_number, put_text, put_value, put_values,
    write_value,
};
