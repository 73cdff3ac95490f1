//! Facts about all values, which proofs of other crates call upon. Each function does nothing: its contract is the law.
ghost use Rattle.hv_value.specs.Laws.{NoItemIsDeeper, NoPairIsDeeper, DepthOfOneMoreItem, DepthOfOneMorePair, PairsInOrderAreTheirMap, MapHasTheKeys, ImageIsItsOwn, ImageIsAsDeep, KeysOfAMapAreInOrder, LastPairCounts};

/// No value of a list is deeper than the deepest of them.
pub fn no_item_is_deeper()
    ensures { NoItemIsDeeper }
{}

/// No value of a pair is deeper than the deepest of them.
pub fn no_pair_is_deeper()
    ensures { NoPairIsDeeper }
{}

/// Values are as deep as the deeper of the last and those before it.
pub fn depth_of_one_more_item()
    ensures { DepthOfOneMoreItem }
{}

/// The values of pairs are as deep as the deeper of the last and those before it.
pub fn depth_of_one_more_pair()
    ensures { DepthOfOneMorePair }
{}

/// Pairs with their keys in order are the pairs of their map.
pub fn pairs_in_order_are_their_map()
    ensures { PairsInOrderAreTheirMap }
{}

/// A map of pairs has their keys.
pub fn map_has_the_keys()
    ensures { MapHasTheKeys }
{}

/// An image is its own image.
pub fn image_is_its_own()
    ensures { ImageIsItsOwn }
{}

/// An image nests as deep as its value.
pub fn image_is_as_deep()
    ensures { ImageIsAsDeep }
{}

/// The keys of a map of pairs are distinct and in byte order.
pub fn map_keys_are_in_order()
    ensures { KeysOfAMapAreInOrder }
{}

/// Of the pairs with one key the last counts in their map.
pub fn last_pair_counts()
    ensures { LastPairCounts }
{}
