//! Facts about all texts, which proofs of other crates call upon. Each function does nothing: its contract is the law.
ghost use Rattle.hv_json.specs.Laws.{PrintedIsText, ReadingTakesNoMemory, TextHasNoControl, TextIsOfImage, TextIsReadAgain, WrittenIsReadAgain};

use hv_value::pairs_in_order_are_their_map;

/// The text of a value has no control character (RFC 8259, section 7).
pub fn text_has_no_control()
    ensures { TextHasNoControl }
{}

/// What bytes are doesn't depend on memory: of no bytes `reading` is `NoMemory`.
pub fn reading_takes_no_memory()
    ensures { ReadingTakesNoMemory }
{}

/// The tokens that [`put_value`](crate::put_value) appends are printed as the value's text.
pub fn printed_is_text()
    ensures { PrintedIsText }
{}

/// A value has the text of its image.
pub fn text_is_of_image()
    ensures { TextIsOfImage }
{}

/// What the kit's writer printed of a value's tokens is read again as the value's image.
pub fn written_is_read_again()
    ensures { WrittenIsReadAgain }
{
    pairs_in_order_are_their_map();
}

/// The text of a value whose texts are UTF-8 is read again as the value's image.
pub fn text_is_read_again()
    ensures { TextIsReadAgain }
{
    written_is_read_again();
}
