//! The table of markers: what the first byte of a value begins, and how many bytes its number, length or count has.
ghost use Rattle.std.specs.Prelude.{◌≡◌};
ghost use Rattle.hv_pack.specs.Marker.{marker_of};

// The first marker of each row of the table ("Formats" of the MessagePack specification, by whose names they go). A row of
// many markers ends before the next one, and what is below the first of them is a number from 0 to 127.
pub const FIX_MAP: u8 = 0x80;

pub const FIX_ARRAY: u8 = 0x90;

pub const FIX_STR: u8 = 0xa0;

pub const NIL: u8 = 0xc0;

pub const NEVER_USED: u8 = 0xc1;

pub const FALSE: u8 = 0xc2;

pub const TRUE: u8 = 0xc3;

pub const BIN_8: u8 = 0xc4;

pub const BIN_16: u8 = 0xc5;

pub const BIN_32: u8 = 0xc6;

pub const EXT: u8 = 0xc7;

pub const FLOAT: u8 = 0xca;

pub const UINT_8: u8 = 0xcc;

pub const UINT_16: u8 = 0xcd;

pub const UINT_32: u8 = 0xce;

pub const UINT_64: u8 = 0xcf;

pub const INT_8: u8 = 0xd0;

pub const INT_16: u8 = 0xd1;

pub const INT_32: u8 = 0xd2;

pub const INT_64: u8 = 0xd3;

pub const FIX_EXT: u8 = 0xd4;

pub const STR_8: u8 = 0xd9;

pub const STR_16: u8 = 0xda;

pub const STR_32: u8 = 0xdb;

pub const ARRAY_16: u8 = 0xdc;

pub const ARRAY_32: u8 = 0xdd;

pub const MAP_16: u8 = 0xde;

pub const MAP_32: u8 = 0xdf;

pub const NEGATIVE_FIX_INT: u8 = 0xe0;

/// How many bytes a number has.
#[derive(Clone, Copy, Debug, PartialEq, Eq)]
pub enum Size {
    One,
    Two,
    Four,
    Eight,
}

/// A length or a count: in the marker, or in the bytes behind it.
#[derive(Clone, Copy, Debug, PartialEq, Eq)]
pub enum Count {
    Here(u8),
    Behind(Size),
}

/// What a marker begins.
#[derive(Clone, Copy, Debug, PartialEq, Eq)]
pub enum Marker {
    Null,
    Bool(bool),
    Small(i8),
    Unsigned(Size),
    Signed(Size),
    Text(Count),
    Bytes(Count),
    List(Count),
    Map(Count),
    Never,
    Fraction,
    Ext,
}

/// The row of a marker.
#[tactic(auto, unfolding(crate::specs::Marker::marker_of))]
pub fn row(b: u8) -> Marker
    ensures { result ≡ marker_of b }
{
    match b {
        0..FIX_MAP => Marker::Small(b as i8),
        FIX_MAP..FIX_ARRAY => Marker::Map(Count::Here(b - FIX_MAP)),
        FIX_ARRAY..FIX_STR => Marker::List(Count::Here(b - FIX_ARRAY)),
        FIX_STR..NIL => Marker::Text(Count::Here(b - FIX_STR)),
        NIL => Marker::Null,
        NEVER_USED => Marker::Never,
        FALSE => Marker::Bool(false),
        TRUE => Marker::Bool(true),
        BIN_8 => Marker::Bytes(Count::Behind(Size::One)),
        BIN_16 => Marker::Bytes(Count::Behind(Size::Two)),
        BIN_32 => Marker::Bytes(Count::Behind(Size::Four)),
        EXT..FLOAT | FIX_EXT..STR_8 => Marker::Ext,
        FLOAT..UINT_8 => Marker::Fraction,
        UINT_8 => Marker::Unsigned(Size::One),
        UINT_16 => Marker::Unsigned(Size::Two),
        UINT_32 => Marker::Unsigned(Size::Four),
        UINT_64 => Marker::Unsigned(Size::Eight),
        INT_8 => Marker::Signed(Size::One),
        INT_16 => Marker::Signed(Size::Two),
        INT_32 => Marker::Signed(Size::Four),
        INT_64 => Marker::Signed(Size::Eight),
        STR_8 => Marker::Text(Count::Behind(Size::One)),
        STR_16 => Marker::Text(Count::Behind(Size::Two)),
        STR_32 => Marker::Text(Count::Behind(Size::Four)),
        ARRAY_16 => Marker::List(Count::Behind(Size::Two)),
        ARRAY_32 => Marker::List(Count::Behind(Size::Four)),
        MAP_16 => Marker::Map(Count::Behind(Size::Two)),
        MAP_32 => Marker::Map(Count::Behind(Size::Four)),
        NEGATIVE_FIX_INT.. => Marker::Small((i16::from(b) - 256) as i8),
    }
}
