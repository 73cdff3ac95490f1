//! A message's headers: pairs of texts whose keys are distinct and in byte order.
ghost use Rattle.std.specs.Prelude.{◌≡◌, ℕ, List, [], IfOk, reverse};
ghost use Rattle.hm_message.specs.Headers.{IsHeaders, header_at};

use hv_value::Text;
use std::alloc::{AllocError, Global};
use std::collections::BTreeMap;
use std::marker::Model;

/// A message's headers, seen as the list of their pairs: the keys are distinct and in byte
/// order. HubProtocol.md, "Headers", gives them no meaning.
#[derive(Drop)]
pub struct Headers {
    pairs: Vec<(Text, Text)>,
}

impl Model for Headers {
    ghost use Rattle.hm_message.specs.Headers.{Header, IsHeaders};
    ghost use Rattle.std.specs.Prelude.{List};

    ghost Value = { List Header };

    ghost view = { λ h. h.pairs.items };

    ghost invariant = { λ h. IsHeaders h.pairs.items };
}

impl Headers {
    /// The headers of these pairs, of which the last of a key counts.
    pub fn of(pairs: Vec<(Text, Text)>) -> Result<Headers, AllocError>
        ensures last { IfOk result
            (λ h. (key : List ℕ) → header_at key h ≡ header_at key (reverse pairs.items)) }
        ensures in_order { IfOk result (λ h. IsHeaders h) }
        ensures unchanged { IfOk result (λ h. IsHeaders pairs.items → h ≡ pairs.items) }
    {
        let alloc = *pairs.allocator();
        let mut map = BTreeMap::new(alloc);
        for (key, value) in pairs {
            drop(map.insert(key, value)?);
        }
        let pairs: Vec<(Text, Text)> = map.into_iter().collect(alloc)?;
        Ok(Headers { pairs })
    }

    /// The headers of pairs that are headers already.
    pub(crate) fn in_order(pairs: Vec<(Text, Text)>) -> Headers
        requires { IsHeaders pairs.items }
        ensures { result ≡ pairs.items }
    {
        Headers { pairs }
    }

    /// No headers, which takes no memory.
    pub fn none(alloc: Global) -> Headers
        ensures { result ≡ [] }
    {
        Headers {
            pairs: Vec::new(alloc),
        }
    }

    pub fn pairs(&self) -> &[(Text, Text)]
        ensures pairs { result.now ≡ self.now }
        ensures in_order { IsHeaders self.now }
    {
        self.pairs.as_slice()
    }

    /// A copy, in the memory that the headers themselves came from.
    pub fn copy(&self) -> Result<Headers, AllocError>
        ensures { IfOk result (λ h. h ≡ self.now) }
    {
        let mut pairs = Vec::with_capacity(*self.pairs.allocator(), self.pairs.len())?;
        for (key, value) in &self.pairs {
            pairs.push((key.copy()?, value.copy()?))?;
        }
        Ok(Headers { pairs })
    }
}

impl PartialEq for Headers {
    ghost use Rattle.std.specs.Cmp.{partial_equiv_from_equiv};
    ghost use Rattle.hm_message.specs.Same.{same_headers, same_headers_equiv};

    ghost eq = { same_headers };

    ghost laws = { partial_equiv_from_equiv same_headers_equiv };

    fn eq(&self, other: &Headers) -> bool {
        self.pairs == other.pairs
    }
}

impl Eq for Headers {
    ghost use Rattle.hm_message.specs.Same.{same_headers_equiv};

    ghost laws = { same_headers_equiv };
}
