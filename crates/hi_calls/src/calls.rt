//! The table of own calls. Live calls and uploads are kept by their numbers, which nobody but this table draws.

ghost use Rattle.std.specs.Prelude.{◌≡◌, ◌≤◌, ◌<◌, ◌+◌, ◌&&◌, ◌==◌, ℕ, suc, List, [], ◌∷◌, true, false, None, Some, nat_eq, IfOk, IfErr, OnOk, OnErr, OnSome, if◌then◌else◌};
ghost use Rattle.std.specs.HashMap.{get, hash_map_len, keys, spare};
ghost use Rattle.hv_value.specs.Tree.{Tree};
ghost use Rattle.hm_message.specs.Message.{is_sequenced};
ghost use Rattle.hd_calls.specs.Numbers.{most_live, most_numbers, most_uploads};
ghost use Rattle.hd_calls.specs.Hubs.{End, Item, message_of};
ghost use Rattle.hd_calls.specs.Tables.{drawn_in, live_call_in, live_upload_in, own_live_in};
ghost use Rattle.hi_calls.specs.Maps.{is_answered, least_with, one_if, takes_items, Enters, HoldsTheSame, Removes};
ghost use Rattle.hi_calls.specs.Numbering.{call_numbered, id_with, next_call, next_number, HasPlaceIn};
ghost use Rattle.hi_calls.specs.Stands.{Stands};
ghost use Rattle.hi_calls.specs.Calls.{Begins, Cancels, IsLiveAs, IsNoStream, IsRefusedIn, IsUnknown, IsUnmade, Itemizes, Loses, OfEach, Settles, Stays, TakesItem, Undoes, upload_ending, UploadEnds, Uploads};

use crate::errors::CallError;
use crate::ids::Ids;
use crate::owners::{Owners, upload_number};
use hd_calls::{CallKind, MOST_LIVE, MOST_NUMBERS, MOST_UPLOADS, UnknownId};
use hm_message::{Ending, Headers, Message};
use hv_value::{Items, Text, Value};
use indexmap::IndexMap;
use std::alloc::{AllocError, Global};

/// The own calls of a peer and their uploads.
///
/// What it is told: `begin`, `undo`, `upload_ended`, and what comes: `settle`, `item`. What it makes: the messages of `begin`, `cancel`,
/// `upload_item` and `upload_end`, which change nothing. What it gives up: `lose_next`. Only what makes a message takes memory.
#[derive(Drop)]
pub struct Calls {
    ids: Ids,
    /// The greatest number drawn.
    drawn: u64,
    /// The live calls by their numbers: whether each is a Stream.
    calls: IndexMap<u64, bool>,
    /// The live uploads by their numbers.
    owners: Owners,
    /// If a call was begun last: the greatest number drawn before.
    newest: Option<u64>,
}

impl Calls {
    /// A table that has drawn nothing. Its ids begin with the prefix.
    pub fn start(alloc: Global, prefix: &str) -> Result<Calls, AllocError>
        ensures stands { IfOk result (λ table. Stands table prefix.now []) }
        ensures newest { IfOk result (λ table. table.newest ≡ None) }
    {
        Ok(Calls {
            ids: Ids::with_prefix(Text::of(alloc, prefix)?),
            drawn: 0,
            calls: IndexMap::new(alloc),
            owners: Owners::new(alloc),
            newest: None,
        })
    }

    /// How many calls and uploads are live: at most `hd_calls::MOST_LIVE`.
    pub fn live(&self) -> u64
        ensures live { OfEach self.now (λ prefix h. result ≡ own_live_in h) }
        ensures limit { OfEach self.now (λ prefix h. own_live_in h ≤ most_live) }
    {
        self.calls.len() as u64 + self.owners.len() as u64
    }

    /// The greatest number that calls and their uploads have drawn.
    pub fn drawn(&self) -> u64
        ensures { OfEach self.now (λ prefix h. result ≡ drawn_in h) }
    {
        self.drawn
    }

    // ---- what is called

    /// Begins a call: its number, and the message that makes it. The call draws the next number and its uploads those after it. A Notify
    /// without uploads draws none: its number is 0. A Notify isn't live, but its uploads are until each has ended. After an error the
    /// table is as it was.
    pub fn begin(
        &mut self,
        alloc: Global,
        kind: CallKind,
        target: Text,
        arguments: Items,
        uploads: u32,
    ) -> Result<(u64, Message), CallError>
        requires few { uploads ≤ most_uploads }
        ensures ok { IfOk result (λ made. OfEach self.old (λ prefix h.
            Begins self.new prefix h (next_call prefix h kind target arguments uploads) (next_number kind uploads h) made.0 made.1)) }
        ensures sequenced { IfOk result (λ made. is_sequenced made.1 ≡ true) }
        ensures refused { IfErr result (λ e. OfEach self.old (λ prefix h.
            IsRefusedIn (next_call prefix h kind target arguments uploads) h e)) }
        ensures unchanged { OnErr result (Stays self.old self.new) }
        ensures newest { OnErr result (self.new.newest ≡ self.old.newest) }
    {
        let number = self.number_for(kind, uploads)?;
        let message = self.message(alloc, kind, number, target, arguments, uploads)?;
        self.make_room(uploads)?;
        self.enter(kind, number, uploads);
        Ok((number, message))
    }

    /// Takes a call back that was just begun. If something changed the table since, nothing changes.
    pub fn undo(&mut self)
        ensures undone { Undoes self.old self.new }
        ensures forgets { self.new.newest ≡ None }
        ensures otherwise { self.old.newest ≡ None → self.new ≡ self.old }
    {
        let Some(before) = self.newest else {
            return;
        };
        if before >= self.drawn {
            self.newest = None;
            return;
        }
        self.remove(before + 1);
        self.drawn = before;
    }

    // ---- what comes

    /// The live call of the id.
    pub fn find(&self, id: &Text) -> Result<u64, UnknownId>
        ensures ok { IfOk result (λ n. OfEach self.now (λ prefix h. IsLiveAs prefix h id.now n)) }
        ensures unknown { OnErr result (OfEach self.now (λ prefix h. IsUnknown prefix h id.now)) }
    {
        let Some(number) = self.ids.number(id) else {
            return Err(UnknownId);
        };
        if !self.calls.contains_key(&number) {
            return Err(UnknownId);
        }
        Ok(number)
    }

    /// A call's ending came: the call of the id isn't live any more, nor are its uploads.
    pub fn settle(&mut self, id: &Text) -> Result<u64, UnknownId>
        ensures ok { IfOk result (λ n. OfEach self.old (λ prefix h. Settles self.new prefix h id.now n)) }
        ensures unknown { OnErr result (OfEach self.old (λ prefix h. IsUnknown prefix h id.now)) }
        ensures unchanged { OnErr result (self.new ≡ self.old) }
    {
        let Ok(number) = self.find(id) else {
            return Err(UnknownId);
        };
        self.remove(number);
        Ok(number)
    }

    /// An item came: the call of the id, if it is a Stream and live.
    pub fn item(&self, id: &Text) -> Result<u64, UnknownId>
        ensures ok { IfOk result (λ n. OfEach self.now (λ prefix h. Itemizes self.now prefix h id.now n)) }
        ensures unknown { OnErr result (OfEach self.now (λ prefix h. IsNoStream prefix h id.now)) }
    {
        let Some(number) = self.ids.number(id) else {
            return Err(UnknownId);
        };
        let Some(streams) = self.calls.get(&number) else {
            return Err(UnknownId);
        };
        if *streams { Ok(number) } else { Err(UnknownId) }
    }

    // ---- what is said of a call

    /// The message that cancels a live call. The call is live until its ending comes.
    pub fn cancel(&self, alloc: Global, call: u64) -> Result<Message, CallError>
        ensures ok { IfOk result (λ m. OfEach self.now (λ prefix h. Cancels self.now prefix h call m)) }
        ensures sequenced { IfOk result (λ m. is_sequenced m ≡ true) }
        ensures refused { IfErr result (λ e. OfEach self.now (λ prefix h. IsUnmade (live_call_in call h) e)) }
    {
        if !self.calls.contains_key(&call) {
            return Err(CallError::UnknownId);
        }
        let id = self.ids.id(alloc, call)?;
        Ok(Message::CancelInvocation {
            headers: Headers::none(alloc),
            id,
        })
    }

    /// The message with the next item of an upload. `which` counts the call's uploads from 0.
    pub fn upload_item(
        &self,
        alloc: Global,
        call: u64,
        which: u32,
        value: Value,
    ) -> Result<Message, CallError>
        ensures ok { IfOk result (λ m. OfEach self.now (λ prefix h. Uploads prefix h call which (Item value) m)) }
        ensures stands { OnOk result (OfEach self.now (λ prefix h. TakesItem self.now prefix h call which)) }
        ensures sequenced { IfOk result (λ m. is_sequenced m ≡ true) }
        ensures refused { IfErr result (λ e. OfEach self.now (λ prefix h. IsUnmade (live_upload_in call which h) e)) }
    {
        let id = self.upload_id(alloc, call, which)?;
        Ok(Message::StreamItem {
            headers: Headers::none(alloc),
            id,
            item: value,
        })
    }

    /// The message that ends an upload, with an error or without. Once it is sent, tell `upload_ended`.
    pub fn upload_end(
        &self,
        alloc: Global,
        call: u64,
        which: u32,
        error: Option<Text>,
    ) -> Result<Message, CallError>
        ensures ok { IfOk result (λ m. OfEach self.now (λ prefix h. Uploads prefix h call which (End (upload_ending error)) m)) }
        ensures sequenced { IfOk result (λ m. is_sequenced m ≡ true) }
        ensures refused { IfErr result (λ e. OfEach self.now (λ prefix h. IsUnmade (live_upload_in call which h) e)) }
    {
        let id = self.upload_id(alloc, call, which)?;
        Ok(Message::Completion {
            headers: Headers::none(alloc),
            id,
            ending: ending_of(error),
        })
    }

    /// An upload has ended. If it isn't live, nothing changes.
    pub fn upload_ended(&mut self, call: u64, which: u32)
        ensures ended { OfEach self.old (λ prefix h. live_upload_in call which h ≡ true → UploadEnds self.new prefix h call which) }
        ensures forgets { OfEach self.old (λ prefix h. live_upload_in call which h ≡ true → self.new.newest ≡ None) }
        ensures otherwise { OfEach self.old (λ prefix h. live_upload_in call which h ≡ false → self.new ≡ self.old) }
    {
        if self.owners.has(call, which) {
            self.owners.end(call, which);
            self.newest = None;
        }
    }

    // ---- what is lost

    /// Takes out the live call of the least number, and its uploads.
    pub fn lose_next(&mut self) -> Option<u64>
        ensures lost { OfEach self.old (λ prefix h. Loses self.new prefix h result) }
        ensures forgets { OnSome result (self.new.newest ≡ None) }
        ensures otherwise { result ≡ None → self.new ≡ self.old }
    {
        let least = self.least()?;
        self.remove(least);
        Some(least)
    }

    // ---- the steps of these

    /// The number of the next call, if the bounds leave room for it.
    fn number_for(&self, kind: CallKind, uploads: u32) -> Result<u64, CallError>
        ensures within { IfOk result (λ n. n + uploads ≤ most_numbers) }
        ensures ok { IfOk result (λ n. OfEach self.now (λ prefix h. n ≡ next_number kind uploads h)) }
        ensures place { OnOk result (OfEach self.now (λ prefix h. (target : List ℕ) (arguments : List Tree) →
            HasPlaceIn (next_call prefix h kind target arguments uploads) h)) }
        ensures refused { IfErr result (λ e. OfEach self.now (λ prefix h. (target : List ℕ) (arguments : List Tree) →
            IsRefusedIn (next_call prefix h kind target arguments uploads) h e)) }
    {
        let calls = calls_begun(kind);
        if MOST_LIVE.saturating_sub(self.live()) < calls + u64::from(uploads) {
            return Err(CallError::TooMany);
        }
        if calls == 0 && uploads == 0 {
            return Ok(0);
        }
        if MOST_NUMBERS.saturating_sub(self.drawn) < 1 + u64::from(uploads) {
            return Err(CallError::Spent);
        }
        Ok(self.drawn + 1)
    }

    /// The message that makes a call.
    fn message(
        &self,
        alloc: Global,
        kind: CallKind,
        number: u64,
        target: Text,
        arguments: Items,
        uploads: u32,
    ) -> Result<Message, AllocError>
        requires within { number + uploads ≤ most_numbers }
        ensures says { IfOk result (λ m. m ≡ message_of (call_numbered self.now.ids.prefix number kind target arguments uploads)) }
        ensures sequenced { IfOk result (λ m. is_sequenced m ≡ true) }
    {
        let streams = self.ids.after(alloc, number, uploads)?;
        let headers = Headers::none(alloc);
        match kind {
            CallKind::Notify => Ok(Message::Invocation {
                headers,
                id: None,
                target,
                arguments,
                streams,
            }),
            CallKind::Call => Ok(Message::Invocation {
                headers,
                id: Some(self.ids.id(alloc, number)?),
                target,
                arguments,
                streams,
            }),
            CallKind::Stream => Ok(Message::StreamInvocation {
                headers,
                id: self.ids.id(alloc, number)?,
                target,
                arguments,
                streams,
            }),
        }
    }

    /// Makes room for a call and so many uploads, so that putting them in takes no memory.
    fn make_room(&mut self, uploads: u32) -> Result<(), AllocError>
        ensures call { OnOk result (0 < spare self.new.calls) }
        ensures uploads { OnOk result (uploads ≤ spare self.new.owners.calls) }
        ensures same { HoldsTheSame self.old self.new }
    {
        self.calls.reserve(1)?;
        self.owners.reserve(uploads)
    }

    /// Puts a call and its uploads in, for which there is room.
    fn enter(&mut self, kind: CallKind, number: u64, uploads: u32)
        requires call { 0 < spare self.old.calls }
        requires uploads { uploads ≤ spare self.old.owners.calls }
        requires within { number + uploads ≤ most_numbers }
        ensures { Enters self.old self.new kind uploads number }
    {
        self.enter_call(kind, number);
        self.owners.begin(number, uploads);
        self.newest = Some(self.drawn);
        self.drawn = self.drawn.max(number + u64::from(uploads));
    }

    fn enter_call(&mut self, kind: CallKind, number: u64)
        requires { 0 < spare self.old.calls }
        ensures others { self.new ≡ record self.old { calls = self.new.calls } }
        ensures call { (j : ℕ) → get nat_eq self.new.calls j ≡
            (if is_answered kind && (number == j) then Some (takes_items kind) else get nat_eq self.old.calls j) }
        ensures size { get nat_eq self.old.calls number ≡ None →
            hash_map_len self.new.calls ≡ hash_map_len self.old.calls + one_if (is_answered kind) }
    {
        let items = match kind {
            CallKind::Notify => return,
            CallKind::Call => false,
            CallKind::Stream => true,
        };
        match self.calls.insert(number, items) {
            Ok(_) => {}
            Err(_) => unreachable!(),
        }
    }

    /// Takes a call and its uploads out.
    fn remove(&mut self, call: u64)
        ensures { Removes self.old self.new call }
    {
        let _items = self.calls.swap_remove(&call);
        if call <= MOST_NUMBERS {
            self.owners.end_all(call);
        }
        self.newest = None;
    }

    /// The least number of a live call.
    fn least(&self) -> Option<u64>
        ensures { result ≡ least_with None (keys self.now.calls) }
    {
        let mut least = None;
        for number in self.calls.keys() {
            least = Some(lesser(least, *number));
        }
        least
    }

    /// The id of a live upload.
    fn upload_id(&self, alloc: Global, call: u64, which: u32) -> Result<Text, CallError>
        ensures ok { IfOk result (λ id. OfEach self.now (λ prefix h. id ≡ id_with prefix (suc (call + which)))) }
        ensures live { OnOk result (OfEach self.now (λ prefix h. live_upload_in call which h ≡ true)) }
        ensures refused { IfErr result (λ e. OfEach self.now (λ prefix h. IsUnmade (live_upload_in call which h) e)) }
    {
        if !self.owners.has(call, which) {
            return Err(CallError::UnknownId);
        }
        Ok(self.ids.id(alloc, upload_number(call, which))?)
    }
}

/// How many calls are live once one of this kind has begun: a Notify isn't.
fn calls_begun(kind: CallKind) -> u64
    ensures { result ≡ one_if (is_answered kind) }
{
    match kind {
        CallKind::Notify => 0,
        CallKind::Call => 1,
        CallKind::Stream => 1,
    }
}

/// How an upload ends.
fn ending_of(error: Option<Text>) -> Ending
    ensures { result ≡ upload_ending error }
{
    match error {
        None => Ending::Void,
        Some(text) => Ending::Error(text),
    }
}

/// The lesser of two numbers, if there are two.
fn lesser(least: Option<u64>, number: u64) -> u64
    ensures { Some result ≡ least_with least (number ∷ []) }
{
    match least {
        None => number,
        Some(least) => least.min(number),
    }
}
