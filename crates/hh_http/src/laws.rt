//! What crates above cite of the definitions. No function here does anything: its contract is the law.

ghost use Rattle.std.specs.Prelude.{◌≡◌};
ghost use Rattle.hh_http.specs.Limits.{most_body, most_head, most_headers, switching};

use crate::limits::{MOST_BODY, MOST_HEAD, MOST_HEADERS};
use crate::response::SWITCHING;

/// The constants are the numbers of the definitions.
pub fn limits_are_named()
    ensures head { MOST_HEAD ≡ most_head }
    ensures body { MOST_BODY ≡ most_body }
    ensures headers { MOST_HEADERS ≡ most_headers }
    ensures status { SWITCHING ≡ switching }
{}
