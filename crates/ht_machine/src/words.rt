//! The words of a script. A word that is none of what is wanted is refused.

ghost use Rattle.std.specs.Prelude.{IfOk, OnOk, nat_eq};
ghost use Rattle.std.specs.List.{IsDistinct};

use hm_message::Codec;
use ht_kit::{Stop, number};
use std::alloc::Global;

/// `json` or `pack`, or `none`.
pub fn codec(word: &str) -> Result<Option<Codec>, Stop> {
    match word {
        "json" => Ok(Some(Codec::Json)),
        "pack" => Ok(Some(Codec::Pack)),
        "none" => Ok(None),
        _ => Err(Stop::Refused),
    }
}

/// The numbers of connections, each of them once, with a comma between two, or none for `-`.
pub fn conns(alloc: Global, word: &str) -> Result<Vec<u64>, Stop>
    ensures { IfOk result (λ conns. IsDistinct nat_eq conns.items) }
{
    let mut conns = Vec::new(alloc);
    if word == "-" {
        return Ok(conns);
    }
    for part in word.split(',') {
        add(&mut conns, number(part)?)?;
    }
    Ok(conns)
}

/// One more, which is new.
fn add(conns: &mut Vec<u64>, conn: u64) -> Result<(), Stop>
    requires { IsDistinct nat_eq conns.old.items }
    ensures { OnOk result (IsDistinct nat_eq conns.new.items) }
{
    if conns.contains(&conn) {
        return Err(Stop::Refused);
    }
    conns.push(conn)?;
    Ok(())
}
