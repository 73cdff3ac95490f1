//! Values as JSON text (RFC 8259), as `serde_json` reads and writes it. It doesn't know messages, nor streams.
//!
//! Whoever reads many texts keeps a scratch, and reads each of them by
//! `read_value_in(alloc, &mut scratch, bytes)`; [`write_value`] appends to what `out` holds. To write
//! values among tokens of one's own there are [`put_value`] and [`put_items`].
//!
//! Whoever wants an object's members alone, and no map of them, reads them one by one:
//!
//! ```text
//! let mut reader = open_object(&mut scratch, bytes)?;      // after an error `read_value_in` says what the bytes are
//! while let Some((name, value)) = next_member(alloc, &mut reader)? { .. }
//! ```
//!
//! Proved: what is read is what `serde_json` reads in the bytes, and each refusal is the first of the
//! reasons that hold; members that are read one by one are those of what is read, of one name the last;
//! what is written is the value's compact text, which is read again as its image.
#![tactic(auto)]

mod laws;
mod number;
mod object;
mod one_pass;
mod reading;
mod writing;

pub use laws::{
    printed_is_text, reading_takes_no_memory, text_has_no_control, text_is_of_image,
    text_is_read_again, written_is_read_again,
};
pub use object::{next_member, open_object};
pub use one_pass::Fallback;
pub use reading::{JsonError, read_value, read_value_in};
pub use writing::{put_items, put_value, write_value};
