//! An object that is read member by member, for whoever looks for members of known names: no name is copied, and no map
//! is made. Whatever the quick reading doubts is left to [`read_value_in`](crate::read_value_in).
ghost use Rattle.std.specs.Prelude.{◌≡◌, ◌∷◌, ◌++◌, ◌<◌, [], ℕ, List, length, Ok, IfOk, IfSome, IfNone};
ghost use Rattle.json.specs.Token.{Token as SpecToken};
ghost use Rattle.hv_value.specs.Tree.{Pair, map_of};
ghost use Rattle.hv_value.specs.View.{tree};
ghost use Rattle.hv_json.specs.Reading.{reading};
ghost use Rattle.hv_json.specs.Members.{Opens, HasRead};

use crate::one_pass::{Fallback, quick};
use hv_value::{MOST_LEVELS, Value, map_keys_are_in_order, pairs_in_order_are_their_map};
use json::{Reader, Scratch, Token};
use std::alloc::Global;

/// The reader of the object that the text is: it is at what follows the opening bracket.
pub fn open_object<'a>(scratch: &'a mut Scratch, bytes: &'a [u8]) -> Result<Reader<'a>, Fallback>
    ensures opened { IfOk result (λ reader. Opens bytes.now reader) }
    ensures unread { IfOk result (λ reader. HasRead reader reader []) }
{
    let Ok(text) = simdutf8::basic::from_utf8(bytes) else {
        return Err(Fallback::Other);
    };
    let mut reader = Reader::new(text, scratch)?;
    let token = reader.next().ok_or(Fallback::Other)?;
    match token {
        Token::BeginObject => Ok(reader),
        _ => Err(Fallback::Other),
    }
}

/// The next member of the object, its name and its value, or `None` where the object and the text end.
pub fn next_member<'a>(
    alloc: Global,
    reader: &mut Reader<'a>,
) -> Result<Option<(&'a str, Value)>, Fallback>
    ensures shorter { IfOk result (λ next. IfSome next (λ member. length reader.new < length reader.old)) }
    ensures member { IfOk result (λ next. IfSome next (λ member. (all : List SpecToken) (before : List Pair) → HasRead all reader.old before
        → HasRead all reader.new (before ++ (member.0.now, tree member.1) ∷ []))) }
    ensures end { IfOk result (λ next. IfNone next ((bytes : List ℕ) (all : List SpecToken) (members : List Pair) → Opens bytes all
        → HasRead all reader.old members → reading bytes ≡ Ok (map_of members))) }
{
    pairs_in_order_are_their_map();
    map_keys_are_in_order();
    let name = match reader.next_key() {
        Ok(Some(name)) => name,
        Ok(None) => {
            if reader.next().is_some() {
                return Err(Fallback::Other);
            }
            return Ok(None);
        }
        Err(_) => return Err(Fallback::Other),
    };
    let value = quick(alloc, reader, MOST_LEVELS - 1)?;
    Ok(Some((name, value)))
}
