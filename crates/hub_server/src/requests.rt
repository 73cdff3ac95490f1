//! Requests: the front says what is done about each, by a table, and that is carried out.

ghost use Rattle.std.specs.Prelude.{◌≡◌, ℕ, ◌==◌, ◌&&◌, ◌||◌, not, false, IfOk, OnOk, OnErr, Some as Given, None as NoName, option_copied};
ghost use Rattle.std.specs.Ordering.{nat_cmp};
ghost use Rattle.std.specs.BTreeMap.{get};
ghost use Rattle.hw_lanes.specs.Replies.{IsReply};
ghost use Rattle.hd_server.specs.Doings.{moment, name_now, notes};
ghost use Rattle.hd_server.specs.Laws.{Suits};
ghost use Rattle.hd_server.specs.Lives.{is_busy};
ghost use Rattle.hd_server.specs.Plans.{PendingRequest as OccasionMeant, bare_reply, field_at, may_resume_some, onto, replying};
ghost use Rattle.hd_server.specs.declared.vocabulary.Outcome.TheVariants.{Posting};
ghost use Rattle.hd_server.specs.Table.{Facts, is_base};
ghost use Rattle.hw_door.specs.declared.heard.Event.TheVariants as event;
ghost use Rattle.hj_jobs.specs.Meaning.{meaning};
ghost use Rattle.hub_server.specs.Servers.{OfEach, Standing};
ghost use Rattle.hub_server.specs.Steps.{HasCome, Handles, outside};
ghost use Rattle.hub_server.specs.Connections.{CanHold, CanStand, IsKnown};
ghost use Rattle.hub_server.specs.Requests.{CanBeSaid, CarriesOut, Erases, IsCaller, IsCarriedOut, IsSeen, MakesToken, OfRequest, OpensTo, StandsOver, TellsToken, caller_left, caller_made, name_meant, text_asked};

use crate::server::Server;
use hd_server::{Caller, Outcome};
use hj_jobs::Hub;
use hk_keeper::{KeepError, Keeper};
use hv_value::Text;
use hw_door::Lots;
use hw_lanes::{BodyKind, Reply, ReplyField, Request, Text8, Vec8};
use std::alloc::{AllocError, Global};
use std::collections::BTreeMap;

/// The lane of a request, and whether it is the last there.
#[derive(Clone, Copy, Debug, PartialEq, Eq)]
pub(crate) struct PendingRequest {
    pub(crate) lane: u64,
    pub(crate) is_last: bool,
}

/// What a request brings for its outcome: whether its path is the base, whose connection it would be, what accepts a socket, and bytes.
#[derive(Drop)]
struct Brought {
    at_base: bool,
    user: Option<Text>,
    accept: Option<Text8>,
    body: Vec8,
}

impl<H: Hub> Server<H> {
    /// A request has come, on a lane on which nobody is.
    pub(crate) fn on_request<K: Keeper, L: Lots>(
        &mut self,
        alloc: Global,
        lane: u64,
        request: Request,
        hub: &H,
        keeper: &mut K,
        lots: &mut L,
    ) -> Result<(), AllocError>
        ensures handled { OnOk result (OfRequest (meaning H.begin_of H.step_of) self.old lane request.shut (λ s before h. name_now h ≡ NoName →
            Handles (meaning H.begin_of H.step_of) s before self.new
            (outside (K.holds keeper.old) (K.answers keeper.old) (K.faults keeper.old) (L.drawn lots.old) (L.faults lots.old))
            (outside (K.holds keeper.new) (K.answers keeper.new) (K.faults keeper.new) (L.drawn lots.new) (L.faults lots.new))
            (event.Request lane request) h)) }
    {
        hd_server::outcomes_suit();
        hd_server::lots_matter_to_tokens();
        hd_server::parts_of_turns();
        hd_server::lives_are_settled();
        let at_base = self.is_at_base(&request);
        let base = self.base.as_str().as_bytes();
        let route = self.front.route(alloc, base, &request)?;
        let caller = caller_of(alloc, keeper, request.bearer.as_ref(), route.is_entry())?;
        let named = self.front.named(&route, self.moment);
        let resumable = self.may_resume_named(named);
        let outcome = self.front.outcome(&route, &caller, resumable, self.moment);
        let at = PendingRequest {
            lane,
            is_last: request.shut,
        };
        let brought = Brought {
            at_base,
            user: name_in(caller),
            accept: request.upgrade,
            body: request.body,
        };
        self.carry_out(alloc, hub, at, outcome, named.unwrap_or(0), brought, lots)
    }

    /// Whether the path of a request is the base.
    fn is_at_base(&self, request: &Request) -> bool
        ensures { result ≡ is_base self.now.base request.now }
    {
        request.path.bytes() == self.base.as_str().as_bytes()
    }

    /// Whether the end of the connection that is named may be resumed.
    fn may_resume_named(&self, named: Option<u64>) -> bool
        ensures { OfEach (meaning H.begin_of H.step_of) self.now (λ s u before h. result ≡ may_resume_some named h) }
    {
        match named {
            Some(conn) => self.may_resume(conn),
            None => false,
        }
    }

    /// What is to be done about a request is done, for the connection of the token that it names.
    fn carry_out<L: Lots>(
        &mut self,
        alloc: Global,
        hub: &H,
        at: PendingRequest,
        outcome: Outcome,
        conn: u64,
        brought: Brought,
        lots: &mut L,
    ) -> Result<(), AllocError>
        requires { CanBeSaid brought.accept outcome }
        ensures done { OnOk result (OfRequest (meaning H.begin_of H.step_of) self.old at.lane at.is_last (λ s before h. (o : OccasionMeant) → o.now ≡ moment h → o.lane ≡ at.lane →
            o.request.upgrade ≡ brought.accept → o.request.body ≡ brought.body → is_base s.base o.request ≡ brought.at_base → name_now h ≡ brought.user →
            (f : Facts) → Suits o.request f outcome → IsSeen s.live f conn outcome h →
            CarriesOut (meaning H.begin_of H.step_of) s before self.new o conn (L.drawn lots.old) (L.faults lots.old) (L.drawn lots.new) (L.faults lots.new) h outcome)) }
    {
        match outcome {
            Outcome::Refusal(status) => self.reply(at, refusal(alloc, status, brought.at_base)),
            Outcome::NewToken { reconnect } => {
                self.new_token(alloc, at, reconnect, brought.user, lots)
            }
            Outcome::PlainSocket => {
                self.plain_socket(alloc, at, brought.user, brought.accept.unwrap())
            }
            Outcome::TokenSocket => self.token_socket(alloc, conn, at, brought.accept.unwrap()),
            Outcome::FirstPoll => self.first_poll(alloc, hub, conn, at),
            Outcome::NextPoll => self.next_poll(alloc, hub, conn, at),
            Outcome::LastPoll => self.hold_poll(conn, at),
            Outcome::Posting => self.posting(alloc, hub, conn, at, brought.body.bytes()),
            Outcome::Deletion => self.deletion(alloc, conn, at),
        }
    }

    /// The lots are asked for a token, which is made and told; or they fail, and the request is refused. There is room for its connection.
    fn new_token<L: Lots>(
        &mut self,
        alloc: Global,
        at: PendingRequest,
        reconnect: bool,
        user: Option<Text>,
        lots: &mut L,
    ) -> Result<(), AllocError>
        ensures made { OnOk result (OfRequest (meaning H.begin_of H.step_of) self.old at.lane at.is_last (λ s before h. (o : OccasionMeant) → o.now ≡ moment h → o.lane ≡ at.lane →
            name_now h ≡ user → is_busy s.live (moment h) (notes h) ≡ false →
            MakesToken (meaning H.begin_of H.step_of) s before self.new o reconnect (L.drawn lots.old) (L.faults lots.old) (L.drawn lots.new) (L.faults lots.new) h)) }
        ensures unfailed { OnErr result (L.faults lots.new ≡ L.faults lots.old) }
    {
        // The answer to a failed draw is said before it, and unsaid after another: once lots fail, no memory is needed.
        let said = self.words.count();
        let ends = ends_after(500, at.is_last);
        self.words.answer(at.lane, bare(alloc, 500), ends)?;
        let Ok(drawn) = lots.draw() else {
            return Ok(());
        };
        self.words.truncate(said);
        self.tell_token(alloc, at, reconnect, user, drawn)
    }

    /// A token of what was drawn is made and told. There is room for its connection.
    fn tell_token(
        &mut self,
        alloc: Global,
        at: PendingRequest,
        reconnect: bool,
        user: Option<Text>,
        drawn: [u8; 16],
    ) -> Result<(), AllocError>
        ensures told { OnOk result (OfRequest (meaning H.begin_of H.step_of) self.old at.lane at.is_last (λ s before h. (o : OccasionMeant) → o.now ≡ moment h → o.lane ≡ at.lane →
            name_now h ≡ user → is_busy s.live (moment h) (notes h) ≡ false →
            TellsToken (meaning H.begin_of H.step_of) s before self.new o reconnect drawn h)) }
    {
        let Ok(made) = self.front.negotiate(alloc, reconnect, drawn, self.moment) else {
            // There is room for it, so memory is out.
            return Err(AllocError);
        };
        leave_caller(&mut self.callers, made.gone);
        name_caller(&mut self.callers, made.conn, user)?;
        self.reply(
            at,
            Reply {
                status: 200,
                kind: BodyKind::Json,
                body: made.body,
                accept: None,
                field: None,
                close: false,
            },
        )
    }

    /// A connection without a token is made, and stands on the lane. There is room for it.
    fn plain_socket(
        &mut self,
        alloc: Global,
        at: PendingRequest,
        user: Option<Text>,
        accept: Text8,
    ) -> Result<(), AllocError>
        ensures opened { OnOk result (OfRequest (meaning H.begin_of H.step_of) self.old at.lane at.is_last (λ s before h. (o : OccasionMeant) → o.now ≡ moment h → o.lane ≡ at.lane →
            o.request.upgrade ≡ Given accept → name_now h ≡ user → is_busy s.live (moment h) (notes h) ≡ false →
            OpensTo (meaning H.begin_of H.step_of) s before self.new o h)) }
    {
        let Ok(made) = self.front.open(self.moment) else {
            // There is room for it, so memory is out.
            return Err(AllocError);
        };
        leave_caller(&mut self.callers, made.gone);
        name_caller(&mut self.callers, made.conn, user)?;
        self.attach_socket(alloc, made.conn, at, false, accept)
    }

    /// The connection of a token stands on the lane from now on. An older lane is to end.
    fn token_socket(
        &mut self,
        alloc: Global,
        conn: u64,
        at: PendingRequest,
        accept: Text8,
    ) -> Result<(), AllocError>
        ensures stands { OnOk result (OfRequest (meaning H.begin_of H.step_of) self.old at.lane at.is_last (λ s before h. CanStand conn h →
            (o : OccasionMeant) → o.now ≡ moment h → o.lane ≡ at.lane → o.request.upgrade ≡ Given accept →
            StandsOver (meaning H.begin_of H.step_of) s before self.new o conn h)) }
    {
        let older = self.front.lane(conn);
        let resumable = self.front.is_resumable_promise(conn);
        if let Some(older) = older {
            self.shut(older)?;
        }
        self.attach_socket(alloc, conn, at, resumable, accept)
    }

    /// Bytes came for a connection that polls.
    fn posting(
        &mut self,
        alloc: Global,
        hub: &H,
        conn: u64,
        at: PendingRequest,
        bytes: &[u8],
    ) -> Result<(), AllocError>
        ensures posted { OnOk result (OfRequest (meaning H.begin_of H.step_of) self.old at.lane at.is_last (λ s before h. (o : OccasionMeant) → o.now ≡ moment h → o.lane ≡ at.lane →
            o.request.body ≡ bytes.now → CanHold conn h →
            IsCarriedOut (meaning H.begin_of H.step_of) s before self.new o conn Posting h)) }
    {
        self.feed(alloc, hub, conn, bytes)?;
        self.reply(at, bare(alloc, 200))
    }

    /// The connection ends, and a poll that it holds.
    fn deletion(&mut self, alloc: Global, conn: u64, at: PendingRequest) -> Result<(), AllocError>
        ensures erased { OnOk result (OfRequest (meaning H.begin_of H.step_of) self.old at.lane at.is_last (λ s before h. IsKnown conn h →
            (o : OccasionMeant) → o.now ≡ moment h → o.lane ≡ at.lane → Erases (meaning H.begin_of H.step_of) s before self.new o conn h)) }
    {
        self.end_held(alloc, conn)?;
        self.close_done(conn);
        self.reply(at, bare(alloc, 202))
    }

    /// The reply to a request on whose lane nobody is. Its lane is to be shut after a last request and after 400.
    pub(crate) fn reply(&mut self, at: PendingRequest, reply: Reply) -> Result<(), AllocError>
        requires { IsReply reply }
        ensures said { OnOk result (OfEach (meaning H.begin_of H.step_of) self.old (λ s u before h. HasCome at.lane at.is_last h →
            Standing (meaning H.begin_of H.step_of) s u before self.new (onto (replying at.lane reply h) h))) }
    {
        let ends = ends_after(reply.status, at.is_last);
        self.words.answer(at.lane, reply, ends)?;
        Ok(())
    }
}

/// Whether a lane ends after a reply of this status, where it is to end after its request or isn't.
pub(crate) fn ends_after(status: u16, is_last: bool) -> bool
    ensures { result ≡ (status == 400) || (not (status == 101) && is_last) }
{
    status == 400 || status != 101 && is_last
}

/// A refusal, which tells what would not be refused.
fn refusal(alloc: Global, status: u16, at_base: bool) -> Reply
    ensures { result ≡ record (bare_reply status) { field = field_at at_base status } }
{
    let mut reply = bare(alloc, status);
    reply.field = refusal_field(status, at_base);
    reply
}

/// What a refusal of this status tells: the methods of its path, or how a caller is known.
fn refusal_field(status: u16, at_base: bool) -> Option<ReplyField>
    ensures { result ≡ field_at at_base status }
{
    match status {
        405 if at_base => Some(ReplyField::AllowGetPostDelete),
        405 => Some(ReplyField::AllowPost),
        401 => Some(ReplyField::AuthenticateBearer),
        _ => None,
    }
}

/// A reply without a body.
pub(crate) fn bare(alloc: Global, status: u16) -> Reply
    ensures { result ≡ bare_reply status }
{
    Reply {
        status,
        kind: BodyKind::None,
        body: Vec8::from_vec(Vec::new(alloc)),
        accept: None,
        field: None,
        close: false,
    }
}

/// Who asks. The keeper is asked only of one who would have a connection, and only of an access token that is a text.
fn caller_of<K: Keeper>(
    alloc: Global,
    keeper: &mut K,
    bearer: Option<&Text8>,
    is_entry: bool,
) -> Result<Caller, AllocError>
    ensures who { IfOk result (λ caller. IsCaller (text_asked is_entry (option_copied bearer.entry)) (option_copied bearer.entry) caller
        (K.holds keeper.old) (K.answers keeper.old) (K.faults keeper.old) (K.holds keeper.new) (K.answers keeper.new) (K.faults keeper.new)) }
    ensures unfailed { OnErr result (K.faults keeper.new ≡ K.faults keeper.old) }
{
    let Some(bearer) = bearer else {
        return Ok(Caller::Anonymous);
    };
    if !is_entry {
        return Ok(Caller::Unauthorized);
    }
    let Ok(text) = str::from_utf8(bearer.bytes()) else {
        return Ok(Caller::Unauthorized);
    };
    let token = Text::of(alloc, text)?;
    match keeper.user_of(alloc, &token) {
        Ok(Some(name)) => Ok(Caller::Named(name)),
        Ok(None) => Ok(Caller::Unauthorized),
        Err(KeepError::Failed) => Ok(Caller::KeeperFailed),
        Err(KeepError::NoMemory) => Err(AllocError),
    }
}

/// Whose connection it was is forgotten of the one that gave way.
fn leave_caller(callers: &mut BTreeMap<u64, Text>, gone: Option<u64>)
    ensures { (c : ℕ) → get nat_cmp callers.new c ≡ caller_left gone c (get nat_cmp callers.old c) }
{
    let Some(gone) = gone else {
        return;
    };
    let _ = callers.remove(&gone);
}

/// The connection that was made is this user's, if its caller has a name.
fn name_caller(
    callers: &mut BTreeMap<u64, Text>,
    conn: u64,
    user: Option<Text>,
) -> Result<(), AllocError>
    ensures { OnOk result ((c : ℕ) → get nat_cmp callers.new c ≡ caller_made conn user c (get nat_cmp callers.old c)) }
{
    let Some(user) = user else {
        return Ok(());
    };
    callers.insert(conn, user)?;
    Ok(())
}

/// Whose connection a caller's would be.
fn name_in(caller: Caller) -> Option<Text>
    ensures { result ≡ name_meant caller }
{
    match caller {
        Caller::Named(name) => Some(name),
        Caller::Anonymous => None,
        Caller::Unauthorized => None,
        Caller::KeeperFailed => None,
    }
}
