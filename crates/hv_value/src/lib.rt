//! Values: what a hub's arguments, items and results are. They are trees of numbers, texts, bytes, lists
//! and maps, which nest at most [`MOST_LEVELS`] deep. They don't know how they are written, in JSON or in MessagePack.
//!
//! Lists are made by [`Items::of`] and maps by [`Value::map_from`], which sorts the pairs; both say why there is no
//! value. Contracts see a value as its `tree`, a text and bytes as lists of bytes.
//!
//! Proved: each value nests no deeper than that, each of its maps has distinct keys in byte order, of the pairs
//! with one key the last counts, and two values are equal if their trees are the same.
#![tactic(auto)]

mod byte_string;
mod laws;
mod sorted_set;
mod text;
mod value;
mod whole;

pub use byte_string::{Blob, ByteString};
pub use laws::{
    depth_of_one_more_item, depth_of_one_more_pair, image_is_as_deep, image_is_its_own,
    last_pair_counts, map_has_the_keys, map_keys_are_in_order, no_item_is_deeper,
    no_pair_is_deeper, pairs_in_order_are_their_map,
};
pub use sorted_set::SortedSet;
pub use text::{Text, Texts};
pub use value::{Entries, Items, MOST_LEVELS, Value, ValueError};
pub use whole::Whole;
