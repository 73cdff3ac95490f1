//! The reading of a client's script: from its text to what its lines ask for, or to the first line that isn't one of a script. It doesn't
//! know what an order does.

ghost use Rattle.std.specs.Prelude.{◌≡◌, ◌<◌, ◌≤◌, ℕ, true, false, List, [], ◌∷◌, ◌++◌, Some, IsTrue, IfOk, IfErr, IfSome, IfNone, OnOk, length, slice_get};
ghost use Rattle.hd_facts.specs.Unique.{IsTheOne};
ghost use Rattle.hd_client.specs.declared.order.Order.{Order};
ghost use Rattle.sr_script.specs.declared.script.ScriptError.TheVariants.{Line};
ghost use Rattle.sr_client.specs.Grammar.{Adds, Asks, HasFewUploads, Parses, RefusesText};
ghost use Rattle.sr_client.specs.Reading.{HasRead, order_in};

use hd_client::Order;
use hd_delivery::Side;
use sr_script::{Action, ScriptError, is_passed_over, line_end, lines_are_cut, parse_peer_words};
use std::alloc::{AllocError, Global};
use std::marker::Model;

/// The most bytes of a client's script: 1 MiB.
pub const MOST_SCRIPT: usize = 1_048_576;

/// What a client's script asks for.
#[derive(Drop)]
pub struct ClientScript {
    orders: Vec<Order>,
}

impl Model for ClientScript {
    ghost use Rattle.std.specs.Prelude.{ℕ, List};
    ghost use Rattle.hd_client.specs.declared.order.Order.{Order};
    ghost use Rattle.sr_client.specs.Grammar.{Parses};

    ghost Value = { List Order };

    ghost use Rattle.std.specs.Coded.{codes};
    ghost use Rattle.hv_value.specs.Stored.{tree_code};

    ghost coded = { Prim.hlevel (codes, tree_code) };

    ghost view = { λ s. s.orders.items };

    ghost invariant = { λ s. (text : List ℕ) × Parses text s.orders.items };
}

impl ClientScript {
    /// Its orders, in the order of its lines.
    pub fn orders(&self) -> &[Order]
        ensures value { result.now ≡ self.now }
        ensures few { (n : ℕ) (order : Order) → slice_get self.now n ≡ Some order → HasFewUploads order }
    {
        &self.orders
    }
}

/// The script that this text is, or the number of the first line at which it stops being one. A line that goes past the first
/// 1,048,576 bytes is refused.
pub fn parse(alloc: Global, text: &[u8]) -> Result<ClientScript, ScriptError>
    ensures ok { IfOk result (λ script. IsTheOne (Parses text.now) script) }
    ensures refused { IfErr result (λ e. RefusesText e text.now) }
{
    let mut reader = Reader::start(alloc);
    while reader.next(alloc, text)? {}
    Ok(ClientScript {
        orders: reader.orders,
    })
}

/// Where in a text the next line begins, and what the lines before it ask for.
#[derive(Drop)]
struct Reader {
    at: usize,
    // the number of the line that comes next, counted from 1
    number: u64,
    orders: Vec<Order>,
}

impl Reader {
    /// Before the first line of any text.
    fn start(alloc: Global) -> Reader
        ensures { (text : List ℕ) → HasRead result text }
    {
        Reader {
            at: 0,
            number: 1,
            orders: Vec::new(alloc),
        }
    }

    /// Reads the next line of the text, which is the same at each call: false if there was none.
    fn next(&mut self, alloc: Global, text: &[u8]) -> Result<bool, ScriptError>
        requires { HasRead self.old text.now }
        ensures more { IfOk result (λ more. IsTrue more → HasRead self.new text.now) }
        ensures end { IfOk result (λ more. more ≡ false → IsTheOne (Parses text.now) self.new.orders.items) }
        ensures refused { IfErr result (λ e. RefusesText e text.now) }
        ensures moves { IfOk result (λ more. IsTrue more → (self.old.at < self.new.at) × (self.new.at ≤ length text.now)) }
    {
        lines_are_cut();
        if self.at >= text.len() {
            return Ok(false);
        }
        let rest = &text[self.at..];
        let end = line_end(rest);
        let after = self.at + (end + 1).min(rest.len());
        if after > MOST_SCRIPT {
            return Err(ScriptError::Line(self.number));
        }
        self.add(alloc, &rest[..end])?;
        self.at = after;
        self.number += 1;
        Ok(true)
    }

    /// Adds what the line asks for.
    fn add(&mut self, alloc: Global, line: &[u8]) -> Result<(), ScriptError>
        ensures ok { OnOk result ((first : List Order) × (IsTheOne (Adds line.now) first × (self.new.orders.items ≡ self.old.orders.items ++ first))) }
        ensures refused { IfErr result (λ e. (n : ℕ) → e ≡ Line n → (n ≡ self.old.number) × ((first : List Order) → Adds line.now first → ⊥)) }
        ensures place { OnOk result ((self.new.at ≡ self.old.at) × (self.new.number ≡ self.old.number)) }
    {
        if is_passed_over(line) {
            return Ok(());
        }
        if str::from_utf8(line).is_err() {
            return Err(ScriptError::Line(self.number));
        }
        let Some(order) = parse_order(alloc, line)? else {
            return Err(ScriptError::Line(self.number));
        };
        self.keep(order)?;
        Ok(())
    }

    /// Keeps what a line asks for.
    fn keep(&mut self, order: Order) -> Result<(), AllocError>
        ensures kept { OnOk result (self.new.orders.items ≡ self.old.orders.items ++ order ∷ []) }
        ensures place { OnOk result ((self.new.at ≡ self.old.at) × (self.new.number ≡ self.old.number)) }
    {
        self.orders.push(order)?;
        Ok(())
    }
}

/// What the line asks for, if it is one of the grammar.
fn parse_order(alloc: Global, line: &[u8]) -> Result<Option<Order>, AllocError>
    ensures found { IfOk result (λ r. IfSome r (λ order. IsTheOne (Asks line.now) order)) }
    ensures none { IfOk result (λ r. IfNone r ((order : Order) → Asks line.now order → ⊥)) }
{
    if line == b"wait".as_slice() {
        return Ok(Some(Order::Wait));
    }
    if line == b"lose".as_slice() {
        return Ok(Some(Order::Lose));
    }
    match parse_peer_words(alloc, Side::Client, line)? {
        Some(action) => Ok(order_of(action)),
        None => Ok(None),
    }
}

/// The order that is a peer's action. A client's script has no rounds.
fn order_of(action: Action) -> Option<Order>
    ensures { result ≡ order_in action }
{
    match action {
        Action::Call(_, asking) => Some(Order::Call {
            kind: asking.kind,
            target: asking.target,
            arguments: asking.arguments,
            uploads: asking.uploads,
        }),
        Action::Item(_, call, value) => Some(Order::Item(call, value)),
        Action::Done(_, call) => Some(Order::Done(call)),
        Action::Cancel(_, call) => Some(Order::Cancel(call)),
        _ => None,
    }
}
