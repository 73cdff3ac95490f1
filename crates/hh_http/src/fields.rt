//! What the fields of a head say, over the places that `httparse` found. A field is named without regard to case.
ghost use Rattle.std.specs.Prelude.{◌≡◌, ◌^◌, ◌-◌, ◌≤◌, ◌==◌, ◌↔◌, length, map, min, option_map, reverse, All, IfSome, IfNone, IsTrue, IsFalse};
ghost use Rattle.std.specs.Char.{is_ascii_digit};
ghost use Rattle.std.specs.List.{list_all};
ghost use Rattle.std.specs.Str.Parse.{digits_value};
ghost use Rattle.httparse.specs.Grammar.{skip_ows, trim_ows};
ghost use Rattle.httparse.specs.Spans.{IsHeaderWithin, header_bytes};
ghost use Rattle.http1.specs.Fields.{content_length, elements, elements_named, has_option};
ghost use Rattle.hh_http.specs.Heads.{first_named, is_digits, repeats, agree, lengths, number_of, hosts};

use http1::fields::{ContentLength, KnownFields};
use http1::text::eq_ignore_case;
use httparse::is_space_or_tab;
use httparse::spans::HeaderSpan;

/// The value of the first field of this name.
pub(crate) fn first_named<'a>(
    held: &'a [u8],
    headers: &[HeaderSpan],
    name: &[u8],
) -> Option<&'a [u8]>
    requires { All (IsHeaderWithin (length held.now)) headers.now }
    ensures { option_map (λ v. v.now) result
        ≡ first_named name.now (map (header_bytes held.now) headers.now) }
{
    for header in headers {
        if eq_ignore_case(header.name.of(held), name) {
            return Some(header.value.of(held));
        }
    }
    None
}

fn trim_start(mut text: &[u8]) -> &[u8]
    ensures { result.now ≡ skip_ows text.now }
{
    while let [first, rest @ ..] = text
        && is_space_or_tab(*first)
    {
        text = rest;
    }
    text
}

fn trim_end(mut text: &[u8]) -> &[u8]
    ensures { result.now ≡ reverse (skip_ows (reverse text.now)) }
{
    while let [rest @ .., last] = text
        && is_space_or_tab(*last)
    {
        text = rest;
    }
    text
}

fn trim_ows(text: &[u8]) -> &[u8]
    ensures { result.now ≡ trim_ows text.now }
{
    trim_end(trim_start(text))
}

/// Whether one of the elements of the value, which commas part, is this option in any case.
fn has_option(value: &[u8], option: &[u8]) -> bool
    ensures { result ≡ has_option option.now (elements value.now) }
{
    value
        .split(|&b| b == b',')
        .any(|element| eq_ignore_case(trim_ows(element), option))
}

/// Whether a field of this name lists this option.
pub(crate) fn lists(held: &[u8], headers: &[HeaderSpan], name: &[u8], option: &[u8]) -> bool
    requires { All (IsHeaderWithin (length held.now)) headers.now }
    ensures { result ≡ has_option option.now
        (elements_named name.now (map (header_bytes held.now) headers.now)) }
{
    for header in headers {
        if eq_ignore_case(header.name.of(held), name) && has_option(header.value.of(held), option) {
            return true;
        }
    }
    false
}

fn all_digits(text: &[u8]) -> bool
    ensures { result ≡ list_all is_ascii_digit text.now }
{
    text.iter().all(|b| b.is_ascii_digit())
}

fn is_digits(text: &[u8]) -> bool
    ensures { result ≡ is_digits text.now }
{
    !text.is_empty() && all_digits(text)
}

fn same_bytes(left: &[u8], right: &[u8]) -> bool
    ensures { IsTrue result ↔ (left.now ≡ right.now) }
{
    left == right
}

fn all_zeros(text: &[u8]) -> bool
    ensures { result ≡ list_all (λ b. b == 48) text.now }
{
    text.iter().all(|&b| b == b'0')
}

/// Whether digits say the number that as many or more digits say: those are the same after zeros.
fn is_padded(short: &[u8], long: &[u8]) -> bool
    requires order { length short.now ≤ length long.now }
    requires short { IsTrue (list_all is_ascii_digit short.now) }
    requires long { IsTrue (list_all is_ascii_digit long.now) }
    ensures { IsTrue result ↔ (digits_value 10 short.now ≡ digits_value 10 long.now) }
{
    let (front, rest) = long.split_at(long.len() - short.len());
    same_bytes(rest, short) && all_zeros(front)
}

/// Whether two texts of digits say one number.
fn same_number(left: &[u8], right: &[u8]) -> bool
    requires left { IsTrue (list_all is_ascii_digit left.now) }
    requires right { IsTrue (list_all is_ascii_digit right.now) }
    ensures { IsTrue result ↔ (digits_value 10 left.now ≡ digits_value 10 right.now) }
{
    if left.len() < right.len() {
        is_padded(left, right)
    } else {
        is_padded(right, left)
    }
}

/// Whether the value is digits of the number that these digits say.
fn repeats(first: &[u8], value: &[u8]) -> bool
    requires { IsTrue (list_all is_ascii_digit first.now) }
    ensures { result ≡ repeats first.now value.now }
{
    is_digits(value) && same_number(value, first)
}

/// Whether each value of `Content-Length` says the number that these digits say.
fn all_repeat(held: &[u8], headers: &[HeaderSpan], first: &[u8]) -> bool
    requires spans { All (IsHeaderWithin (length held.now)) headers.now }
    requires digits { IsTrue (list_all is_ascii_digit first.now) }
    ensures { result
        ≡ list_all (repeats first.now) (lengths (map (header_bytes held.now) headers.now)) }
{
    for header in headers {
        if eq_ignore_case(header.name.of(held), b"content-length")
            && !repeats(first, header.value.of(held))
        {
            return false;
        }
    }
    true
}

/// Whether the values of `Content-Length` are digits that all say one number, however great.
fn lengths_agree(held: &[u8], headers: &[HeaderSpan]) -> bool
    requires { All (IsHeaderWithin (length held.now)) headers.now }
    ensures { result ≡ agree (lengths (map (header_bytes held.now) headers.now)) }
{
    match first_named(held, headers, b"content-length") {
        None => true,
        Some(first) => is_digits(first) && all_repeat(held, headers, first),
    }
}

/// What the fields say in sum, found in one pass: their lengths, and up to two `Host`.
pub(crate) fn known_fields(held: &[u8], headers: &[HeaderSpan]) -> KnownFields
    requires { All (IsHeaderWithin (length held.now)) headers.now }
    ensures lengths { result.content_length
        ≡ content_length (lengths (map (header_bytes held.now) headers.now)) }
    ensures hosts { result.hosts ≡ min (hosts (map (header_bytes held.now) headers.now)) 2 }
{
    KnownFields::from_spans(held, headers)
}

/// The length of the body, or `u64::MAX` if it is more, or `None` if the values of `Content-Length` aren't digits of one number.
pub(crate) fn stated_length(
    held: &[u8],
    headers: &[HeaderSpan],
    summed: ContentLength,
) -> Option<u64>
    requires spans { All (IsHeaderWithin (length held.now)) headers.now }
    requires summed { summed ≡ content_length (lengths (map (header_bytes held.now) headers.now)) }
    ensures stated { IfSome result (λ n. n ≡ min
        (number_of (lengths (map (header_bytes held.now) headers.now))) (2 ^ 64 - 1)) }
    ensures agree { IfSome result (λ n.
        IsTrue (agree (lengths (map (header_bytes held.now) headers.now)))) }
    ensures bad { IfNone result (IsFalse (agree (lengths (map (header_bytes held.now) headers.now)))) }
{
    match summed {
        ContentLength::Absent => Some(0),
        ContentLength::Value(n) => Some(n),
        ContentLength::Invalid => lengths_agree(held, headers).then_some(u64::MAX),
    }
}
