//! A number's text as a whole number, for the quick reading.
ghost use Rattle.std.specs.Prelude.{◌≡◌, ◌==◌, ◌<◌, false, true, length, slice_index, IsTrue, Some, IfSome};
ghost use Rattle.serde_json.specs.Data.{Num, unsigned, negative};
ghost use Rattle.serde_json.specs.Find.{is_float};
ghost use Rattle.serde_json.specs.Read.{number_of, number_from};
ghost use Rattle.hv_value.specs.Tree.{int};
ghost use Rattle.hv_json.specs.Reading.{int_of};

use fast_float::Numeral;
use hv_value::Whole;

fn unsigned(numeral: &Numeral<'_>) -> Option<u64>
    ensures { IfSome result (λ n. number_from false numeral.now ≡ Some (unsigned n)) }
{
    numeral.to_u64()
}

fn negative(numeral: &Numeral<'_>) -> Option<i64>
    ensures { IfSome result (λ n. number_from true numeral.now ≡ Some (negative n)) }
{
    let n = numeral.to_i64(true)?;
    if n < 0 { Some(n) } else { None }
}

fn has_minus(bytes: &[u8]) -> bool
    ensures value { result ≡ (slice_index bytes.now 0 == 45) }
    ensures len { IsTrue result → 0 < length bytes.now }
{
    !bytes.is_empty() && bytes[0] == b'-'
}

/// The number of a token, where it is whole and in range.
pub(crate) fn whole(text: &str) -> Option<Whole>
    ensures { IfSome result (λ n. (x : Num) × (number_of text.now ≡ Some x) × (is_float x ≡ false) × (int_of x ≡ int n)) }
{
    let bytes = text.as_bytes();
    if has_minus(bytes) {
        let n = negative(&Numeral::scan(&bytes[1..]))?;
        return Some(Whole::from(n));
    }
    let n = unsigned(&Numeral::scan(bytes))?;
    Some(Whole::from(n))
}
