//! What other crates may cite of all messages, types and values: each function does nothing, and its
//! contract is the law.
ghost use Rattle.hm_message.specs.Laws.{ValuesAreTrees, KindsHaveNumbers, ImageIsItsImage, ImageIsAsDeep};

use hv_value::{image_is_as_deep, image_is_its_own};

/// A value and its tree determine each other. It does nothing: its contract is the law.
pub fn values_are_trees()
    ensures { ValuesAreTrees }
{}

/// Each type of messages has a number of its own, from 1 to 9, and every other number is of no type.
/// It does nothing: its contract is the law.
pub fn kinds_have_numbers()
    ensures { KindsHaveNumbers }
{}

/// A message's image, in which each of its bytes is the text of their base64, is its own image. It
/// does nothing: its contract is the law.
pub fn image_is_its_image()
    ensures { ImageIsItsImage }
{
    image_is_its_own();
}

/// A message's image nests as deep as the message. It does nothing: its contract is the law.
pub fn message_image_is_as_deep()
    ensures { ImageIsAsDeep }
{
    image_is_as_deep();
}
