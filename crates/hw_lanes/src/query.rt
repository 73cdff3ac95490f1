//! Queries of targets. A name and a value are bytes, so that two that aren't UTF-8 are equal only if all their bytes are.
ghost use Rattle.std.specs.Prelude.{◌≡◌, IfOk, map};
ghost use Rattle.form_urlencoded.specs.Form.{decode, plus_to_space};
ghost use Rattle.hw_lanes.specs.Query.{query_value_of};

use crate::bytes::Text8;
use form_urlencoded::raw_pairs;
use percent_encoding::percent_decode;
use std::alloc::{AllocError, Global};

/// The value that the query, a target's bytes after its first `?`, gives to the name, decoded; of pairs with one name the
/// first counts. A `+` is a space and `%XX` a byte, and a `%` without two hexadecimal digits stays as it is (URL Standard,
/// section 5.1). An empty piece between two `&` is no pair. It fails if it is out of memory.
pub fn query_value(alloc: Global, query: &[u8], name: &[u8]) -> Result<Option<Text8>, AllocError>
    ensures { IfOk result (λ value. value ≡ query_value_of query.now name.now) }
{
    for (key, value) in raw_pairs(query) {
        if decoded(alloc, key)?.as_slice() == name {
            return Ok(Some(Text8::from_vec(decoded(alloc, value)?)));
        }
    }
    Ok(None)
}

/// The bytes, with a space for each `+`.
fn spaced(alloc: Global, piece: &[u8]) -> Result<Vec<u8>, AllocError>
    ensures { IfOk result (λ bytes. bytes.items ≡ map plus_to_space piece.now) }
{
    piece
        .iter()
        .map(|&b| if b == b'+' { b' ' } else { b })
        .collect(alloc)
}

/// What a name or a value stands for.
fn decoded(alloc: Global, piece: &[u8]) -> Result<Vec<u8>, AllocError>
    ensures { IfOk result (λ bytes. bytes.items ≡ decode piece.now) }
{
    let spaced = spaced(alloc, piece)?;
    let mut bytes = Vec::new(alloc);
    percent_decode(&spaced).append_to(&mut bytes)?;
    Ok(bytes)
}
