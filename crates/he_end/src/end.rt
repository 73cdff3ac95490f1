//! One end over bytes: a session, and the splitter that cuts what its link brings.
//!
//! It speaks of messages, moments and bytes that are handed in; it doesn't know sockets, clocks and hubs.

ghost use Rattle.std.specs.Prelude.{◌≡◌, ◌≤◌, ◌<◌, ◌⊎◌, ◌↔◌, ℕ, true, false, List, [], ◌∷◌, Option, Some, None, IfOk, IfErr, OnOk, OnErr, IfSome, IsTrue, length, take, option_map, sum_by, is_some, nat_lt, not, ◌||◌, ◌&&◌, if◌then◌else◌};
ghost use Rattle.std.specs.Borrow.{sem};
ghost use Rattle.hf_split.specs.Held.{taken_by_feed};
ghost use Rattle.hm_message.specs.declared.message.Message.{Message};
ghost use Rattle.hm_message.specs.Message.{is_sequenced, Fits};
ghost use Rattle.hm_codec.specs.Frames.{framed, framing_of};
ghost use Rattle.hs_shake.specs.Requests.{IsVersion};
ghost use Rattle.hd_delivery.specs.Histories as of;
ghost use Rattle.hd_delivery.specs.Histories.{Attached, Detached, Ticked, Silenced, HasFit, present_link, was_on, first_link, codec_of, is_resumable, is_closed, is_silence, state, sent_messages, processed_messages, held_messages};
ghost use Rattle.hd_delivery.specs.Worlds.{HasRoom};
ghost use Rattle.hd_delivery.specs.Due.{is_unseen};
ghost use Rattle.hd_delivery.specs.Numbers.{most_of_64_bits};
ghost use Rattle.hd_delivery.specs.Bytes.{Wire, ByteStep, Bytes, Does, in_frames, sizes_of, unread};
ghost use Rattle.hd_delivery.specs.OneHistory.{next_reader};
ghost use Rattle.hd_delivery.specs.Frames.{Request};
ghost use Rattle.he_wire.specs.Wires.{IsHouseWire};
ghost use Rattle.he_wire.specs.Spelling.{spelling};
ghost use Rattle.he_wire.specs.Controls.{frame_of_control};
ghost use Rattle.he_wire.specs.Gives.{Begins};
ghost use Rattle.he_end.specs.Stands.{Stands, begun, limits_of, is_client};
ghost use Rattle.he_end.specs.Spoken.{spoken_in};
ghost use Rattle.he_end.specs.Calls.{OfEach, taken_at, Said, IsReading, Takes, Greets, Refuses, FailsAt, Gives, Fails, IsSpelled, Sends, RefusesToSend, Lends, AreDue, Names};
ghost use Rattle.he_end.specs.EndLending.{EndsAs};
ghost use Rattle.hm_message.specs.Reads.{MessageIs};

use crate::config::Config;
use crate::errors::{NextError, SendError};
use crate::link::{Answer, Farewell};
use crate::next_frame::NextFrame;
use crate::session::{AttachError, Session};
use crate::spelled::frame_of;
use crate::taking::Refused;
use hd_delivery::{
    Got, Reason, Side, State, facts_hold, next_is_read, unread_begins, unread_grows, unread_moves,
    unread_stays,
};
use he_wire::{
    Control, ControlBuffer, Handshake, HandshakeFault, LinkFault, read_handshake,
    read_wire_message, unframed_size, wire_is_sound,
};
use hf_split::{Framing, Splitter, one_beginning, wrapped_begins};
use hm_codec::{FrameWhy, frame_is_of_image, framing};
use hm_message::{Codec, Message, Read, image_is_its_image, message_image_is_as_deep};
use hq_resend::{Frame, Limits, PushError};
use hs_shake::{Shake, ShakeError, response};
use json::Scratch;
use std::alloc::{AllocError, Global};

/// One end of a hub connection, across its links.
#[derive(Drop)]
pub struct End {
    session: Session,
    splitter: Splitter,
    control_buffer: ControlBuffer,
}

impl End {
    /// An end before its first link. It takes the memory of what it can hold and of what it can read.
    pub fn start(alloc: Global, side: Side, config: Config) -> Result<End, AllocError>
        requires { IsVersion config.version }
        ensures stands { IfOk result (λ e. (wire : Wire) → IsHouseWire config.limits.frame wire → Stands wire (begun side config) e []) }
        ensures limits { IfOk result (λ e. limits_of e ≡ config.limits) }
    {
        let Config {
            codec,
            version,
            reconnect,
            limits,
        } = config;
        Ok(End {
            session: Session::start(alloc, side, codec, version, reconnect, limits)?,
            splitter: Splitter::start(alloc, Framing::Record, limits.frame())?,
            control_buffer: ControlBuffer::start(alloc)?,
        })
    }

    // ---- what you tell it

    /// A link begins, at this moment. An older one is left, and its unread bytes are dropped.
    pub fn attach(&mut self, now: u64) -> Result<(), AttachError>
        ensures ok { OnOk result (OfEach self.old (λ wire c h. (l : ℕ) → was_on l (in_frames wire c h) ≡ false → of.moment (in_frames wire c h) ≤ now →
            Stands wire c self.new (Does (Attached l now) ∷ h))) }
        ensures closed { IfErr result (λ e. e ≡ AttachError.Closed → OfEach self.old (λ wire c h. is_closed c (in_frames wire c h) ≡ true)) }
        ensures not_granted { IfErr result (λ e. e ≡ AttachError.NotGranted → OfEach self.old (λ wire c h. (is_closed c (in_frames wire c h) ≡ false)
            × (is_resumable c (in_frames wire c h) ≡ false) × (first_link (in_frames wire c h) ≡ None → ⊥))) }
        ensures err { OnErr result (self.new ≡ self.old) }
        ensures limits { limits_of self.new ≡ limits_of self.old }
    {
        unread_begins();
        let framing = self.next_framing();
        self.session.attach(now)?;
        self.splitter.reset(framing);
        Ok(())
    }

    /// The link is lost, at this moment. A connection that isn't kept, or whose handshake isn't complete, is closed by that.
    /// Without a link nothing changes.
    pub fn detach(&mut self, now: u64)
        ensures left { OfEach self.old (λ wire c h. (l : ℕ) → present_link (in_frames wire c h) ≡ Some l → of.moment (in_frames wire c h) ≤ now →
            Stands wire c self.new (Does (Detached now) ∷ h)) }
        ensures none { OfEach self.old (λ wire c h. present_link (in_frames wire c h) ≡ None → self.new ≡ self.old) }
        ensures limits { limits_of self.new ≡ limits_of self.old }
    {
        unread_stays();
        self.session.detach(now);
    }

    /// Takes the first bytes of what the link brings, and answers how many: as many as there is room for, and none without
    /// a link, on a closed end, or where no frame can begin. Take all messages, and feed it the rest.
    pub fn feed(&mut self, piece: &[u8]) -> usize
        ensures within { result ≤ length piece.now }
        ensures count { OfEach self.old (λ wire c h. let k = in_frames wire c h in (l : ℕ) → present_link k ≡ Some l → is_closed c k ≡ false →
            result ≡ taken_at (limits_of self.old) (next_reader wire c l k (unread wire c l h)) (length (unread wire c l h)) (length piece.now)) }
        ensures fed { OfEach self.old (λ wire c h. (l : ℕ) → present_link (in_frames wire c h) ≡ Some l → is_closed c (in_frames wire c h) ≡ false →
            Stands wire c self.new (Bytes (take result piece.now) ∷ h)) }
        ensures none { OfEach self.old (λ wire c h. (present_link (in_frames wire c h) ≡ None) ⊎ (is_closed c (in_frames wire c h) ≡ true) →
            (result ≡ 0) × (self.new ≡ self.old)) }
        ensures limits { limits_of self.new ≡ limits_of self.old }
    {
        if !self.is_reading() {
            return 0;
        }
        facts_hold();
        unread_grows();
        wire_is_sound();
        one_beginning();
        self.session.hear();
        self.splitter.feed(piece)
    }

    /// A moment came. True exactly if it is a silence: nothing was fed for `SILENCE_AFTER` milliseconds, as ticks tell, and
    /// the link is lost by that. After `PING_AFTER` milliseconds in which nothing was said a Ping is due.
    pub fn tick(&mut self, now: u64) -> bool
        ensures ticks { OfEach self.old (λ wire c h. of.moment (in_frames wire c h) ≤ now → (result ≡ is_silence c now (in_frames wire c h))
            × Stands wire c self.new (Does (if result then Silenced now else Ticked now) ∷ h)) }
        ensures limits { limits_of self.new ≡ limits_of self.old }
        ensures codec { spoken_in self.new ≡ spoken_in self.old }
    {
        unread_stays();
        self.session.tick(now)
    }

    /// Closes the end for this reason. After the handshake a Close that tells it is due. A closed end stays as it is.
    pub fn close(&mut self, reason: Reason, allow: bool)
        ensures live { OfEach self.old (λ wire c h. is_closed c (in_frames wire c h) ≡ false → Stands wire c self.new (Does (of.Closed reason allow) ∷ h)) }
        ensures closed { OfEach self.old (λ wire c h. is_closed c (in_frames wire c h) ≡ true → self.new ≡ self.old) }
        ensures limits { limits_of self.new ≡ limits_of self.old }
    {
        unread_stays();
        self.session.close(reason, allow);
    }

    /// Takes a message to be said, and answers its number, from 1. It may be called while the end is away.
    pub fn send(&mut self, alloc: Global, message: &Message) -> Result<u64, SendError>
        requires sequenced { is_sequenced message.now ≡ true }
        requires fits { Fits message.now }
        ensures ok { IfOk result (Sends self.old self.new message.now) }
        ensures refused { IfErr result (RefusesToSend self.old self.new message.now) }
        ensures limits { limits_of self.new ≡ limits_of self.old }
    {
        self.may_send()?;
        let frame = frame_of(alloc, self.session.codec, message)?;
        self.push(frame)
    }

    /// The same for a message whose frame in this end's codec is at hand, as [`spell`](crate::spell) makes it: its bytes are
    /// shared and not copied.
    pub fn send_shared(&mut self, message: &Message, frame: &Frame) -> Result<u64, SendError>
        requires sequenced { is_sequenced message.now ≡ true }
        requires fits { Fits message.now }
        requires spelled { IsSpelled self.old.session.codec message.now frame.now }
        ensures ok { IfOk result (Sends self.old self.new message.now) }
        ensures refused { IfErr result (RefusesToSend self.old self.new message.now) }
        ensures limits { limits_of self.new ≡ limits_of self.old }
        ensures codec { spoken_in self.new ≡ spoken_in self.old }
    {
        self.may_send()?;
        self.push(frame.share()?)
    }

    // ---- what it tells you

    /// What the next frame of the link gives: None if no whole frame has come, without a link, and on a closed end.
    pub fn next(&mut self, alloc: Global) -> Result<Option<Got>, NextError>
        ensures ok { IfOk result (Gives self.old self.new) }
        ensures fits { IfOk result (λ next. IfSome next HasFit) }
        ensures failed { IfErr result (Fails self.old self.new) }
        ensures limits { limits_of self.new ≡ limits_of self.old }
    {
        let mut scratch = Scratch::new(alloc);
        self.next_in(alloc, &mut scratch)
    }

    /// [`End::next`] for whoever reads many frames: the reader of JSON works in `scratch`, whose 16 KB are cleared when it is made and
    /// not again. What it holds counts for nothing, before and after, so one serves all ends of a thread; it keeps room for the longest
    /// frame that was read with it.
    pub fn next_in(
        &mut self,
        alloc: Global,
        scratch: &mut Scratch,
    ) -> Result<Option<Got>, NextError>
        ensures ok { IfOk result (Gives self.old self.new) }
        ensures fits { IfOk result (λ next. IfSome next HasFit) }
        ensures failed { IfErr result (Fails self.old self.new) }
        ensures limits { limits_of self.new ≡ limits_of self.old }
    {
        if !self.is_reading() {
            return Ok(None);
        }
        if self.session.agreed.is_some() {
            self.next_frame(alloc, scratch)
        } else {
            self.next_handshake(alloc)
        }
    }

    /// Lends the next bytes to put on the link, whole frames, which count as said; None if nothing is due. It takes no memory.
    pub fn next_out(&mut self) -> Option<&[u8]>
        ensures* after { sem 𝓛 (EndsAs self.entry (λ e. (limits_of e ≡ limits_of self.old) × Lends self.old e)) }
        ensures bytes { AreDue self.old (option_map (λ bytes. bytes.now) result) }
    {
        let Some(named) = self.session.due() else {
            self.session.let_go();
            return None;
        };
        self.say_due(named)
    }

    /// Says what the session named as due, and lends its bytes.
    fn say_due(&mut self, named: NextFrame) -> Option<&[u8]>
        requires { Names self.old (Some named) }
        ensures* after { sem 𝓛 (EndsAs self.entry (λ e. (limits_of e ≡ limits_of self.old) × Lends self.old e)) }
        ensures bytes { AreDue self.old (option_map (λ bytes. bytes.now) result) }
    {
        facts_hold();
        unread_stays();
        match named {
            NextFrame::Message => self.session.say_message(),
            NextFrame::Request => {
                self.say_request();
                Some(self.control_buffer.bytes())
            }
            NextFrame::Response => {
                self.say(NextFrame::Response);
                Some(response(None))
            }
            NextFrame::Refusal => {
                let answer = self.session.answer?;
                self.say(NextFrame::Refusal);
                Some(answer.bytes())
            }
            NextFrame::Sequence { first, received } => {
                self.say_control(
                    NextFrame::Sequence { first, received },
                    Control::Sequence { first, received },
                );
                Some(self.control_buffer.bytes())
            }
            NextFrame::Ack(upto) => {
                self.say_control(NextFrame::Ack(upto), Control::Ack { upto });
                Some(self.control_buffer.bytes())
            }
            NextFrame::Ping => {
                self.say_control(NextFrame::Ping, Control::Ping);
                Some(self.control_buffer.bytes())
            }
            NextFrame::Close(farewell) => {
                let Farewell { reason, allow } = farewell;
                self.say_control(NextFrame::Close(farewell), Control::Close { reason, allow });
                Some(self.control_buffer.bytes())
            }
        }
    }

    // ---- what it is

    /// The codec in which the end reads and writes: None exactly at a server that hasn't taken a request.
    pub fn codec(&self) -> Option<Codec>
        ensures value { OfEach self.now (λ wire c h. let k = in_frames wire c h in
            result ≡ (if of.is_shaken k || is_client c.side then Some (codec_of c k) else None)) }
        ensures own { IfSome result (λ codec. codec ≡ self.now.session.codec) }
        ensures exact { result ≡ spoken_in self.now }
    {
        if self.session.agreed.is_some() || self.session.side == Side::Client {
            Some(self.session.codec)
        } else {
            None
        }
    }

    /// What the end can do.
    pub fn state(&self) -> State
        ensures { OfEach self.now (λ wire c h. result ≡ state c (in_frames wire c h)) }
    {
        self.session.state()
    }

    /// How many messages were sent, which is the number of the latest.
    pub fn sent_count(&self) -> u64
        ensures { OfEach self.now (λ wire c h. result ≡ length (sent_messages (in_frames wire c h))) }
    {
        self.session.ring.count_sent()
    }

    /// How many messages of the other end were handed out, which is the number of the latest.
    pub fn processed_count(&self) -> u64
        ensures { OfEach self.now (λ wire c h. result ≡ length (processed_messages (in_frames wire c h))) }
    {
        self.session.intake.processed()
    }

    /// How many messages are held: on a kept connection those that the other end may not have, else those not said yet.
    pub fn held_count(&self) -> usize
        ensures { OfEach self.now (λ wire c h. result ≡ length (held_messages c (in_frames wire c h))) }
    {
        self.session.ring.held()
    }

    /// The framed bytes of the messages held.
    pub fn held_bytes(&self) -> usize
        ensures { OfEach self.now (λ wire c h. let k = in_frames wire c h in
            result ≡ sum_by (λ m. length (framed (codec_of c k) m)) (held_messages c k)) }
    {
        self.session.ring.held_bytes()
    }

    /// Whether a message whose framed frame has this many bytes has room.
    pub fn room(&self, size: usize) -> bool
        ensures { OfEach self.now (λ wire c h. IsTrue result ↔ HasRoom (limits_of self.now) (sizes_of wire) c (in_frames wire c h) size) }
    {
        self.session.ring.has_room(size)
    }

    /// Whether it stands on a link. A closed end may.
    pub fn is_attached(&self) -> bool
        ensures { OfEach self.now (λ wire c h. result ≡ is_some (present_link (in_frames wire c h))) }
    {
        self.session.link.is_some()
    }

    /// Whether the connection is kept when its link is lost.
    pub fn is_resumable(&self) -> bool
        ensures { OfEach self.now (λ wire c h. result ≡ is_resumable c (in_frames wire c h)) }
    {
        self.session.is_resumable()
    }

    /// The moment of its latest step that had one.
    pub fn moment(&self) -> u64
        ensures { OfEach self.now (λ wire c h. result ≡ of.moment (in_frames wire c h)) }
    {
        self.session.moment
    }

    /// On a link, the moment before which a tick changes nothing but the moment: it is no silence, makes no Ping due, and finds out nothing
    /// about when something was heard. The greatest number of 64 bits if each tick is so.
    pub fn deadline(&self) -> u64
        ensures { OfEach self.now (λ wire c h. is_some (present_link (in_frames wire c h)) ≡ true → (now : ℕ) → now < most_of_64_bits →
            nat_lt now result ≡ is_unseen c now (in_frames wire c h)) }
    {
        self.session.deadline()
    }

    /// What the end may hold and read.
    pub fn limits(&self) -> Limits
        ensures { result ≡ limits_of self.now }
    {
        self.session.ring.limits()
    }

    // ---- inside

    /// Whether frames are taken: the end stands on a link, and isn't closed.
    fn is_reading(&self) -> bool
        ensures value { result ≡ (is_some self.now.session.link && not self.now.session.closed) }
        ensures reads { OfEach self.now (λ wire c h. let k = in_frames wire c h in result ≡ (is_some (present_link k) && not (is_closed c k))) }
    {
        self.session.link.is_some() && !self.session.closed
    }

    /// The framing of the next frame of a link that begins.
    fn next_framing(&self) -> Framing
        ensures { OfEach self.now (λ wire c h. let k = in_frames wire c h in
            result ≡ (if of.is_shaken k then framing_of (codec_of c k) else Framing.Record)) }
    {
        if self.session.agreed.is_some() {
            framing(self.session.codec)
        } else {
            Framing::Record
        }
    }

    /// Reads a frame after the handshake.
    fn next_frame(&mut self, alloc: Global, scratch: &mut Scratch) -> Result<Option<Got>, NextError>
        requires reading { IsReading self.old }
        requires shaken { is_some self.old.session.agreed ≡ true }
        ensures ok { IfOk result (Gives self.old self.new) }
        ensures fits { IfOk result (λ next. IfSome next HasFit) }
        ensures failed { IfErr result (Fails self.old self.new) }
        ensures limits { limits_of self.new ≡ limits_of self.old }
    {
        facts_hold();
        next_is_read();
        wire_is_sound();
        match read_wire_message(alloc, self.session.codec, scratch, &self.splitter) {
            Ok(None) => Ok(None),
            Ok(Some(read)) => match self.take(read) {
                Ok(got) => Ok(Some(got)),
                Err(e) => Err(e),
            },
            Err(LinkFault::NoMemory) => Err(NextError::NoMemory),
            Err(LinkFault::Refused { at, why }) => Err(self.fail(at, why)),
        }
    }

    /// Takes this, which was read of the frame with which the splitter's bytes begin.
    fn take(&mut self, read: Read) -> Result<Got, NextError>
        requires reading { IsReading self.old }
        requires shaken { is_some self.old.session.agreed ≡ true }
        requires begins { Begins self.old.splitter }
        ensures made { Takes self.old self.new read result }
        ensures fits { IfOk result (λ got. MessageIs read Fits → HasFit got) }
        ensures limits { limits_of self.new ≡ limits_of self.old }
    {
        facts_hold();
        next_is_read();
        unread_moves();
        wire_is_sound();
        self.splitter.pass();
        match self.session.take(read) {
            Ok(got) => Ok(got),
            Err(Refused::Gap(gap)) => Err(NextError::Gap {
                got: gap.got,
                most: gap.most,
            }),
            Err(Refused::AckBeyond(beyond)) => Err(NextError::AckBeyond {
                got: beyond.got,
                most: beyond.most,
            }),
        }
    }

    /// Reads the handshake.
    fn next_handshake(&mut self, alloc: Global) -> Result<Option<Got>, NextError>
        requires reading { IsReading self.old }
        requires unshaken { is_some self.old.session.agreed ≡ false }
        ensures ok { IfOk result (Gives self.old self.new) }
        ensures fits { IfOk result (λ next. IfSome next HasFit) }
        ensures failed { IfErr result (Fails self.old self.new) }
        ensures limits { limits_of self.new ≡ limits_of self.old }
    {
        facts_hold();
        next_is_read();
        wire_is_sound();
        match read_handshake(alloc, self.session.side, &self.splitter) {
            Ok(None) => Ok(None),
            Ok(Some(handshake)) => Ok(Some(self.greet(handshake))),
            Err(HandshakeFault::NoMemory) => Err(NextError::NoMemory),
            Err(HandshakeFault::Split(fault)) => {
                let at = self.splitter.place();
                Err(self.fail(at, FrameWhy::Split(fault)))
            }
            Err(HandshakeFault::Shake(e)) => {
                self.refuse(&e);
                Err(NextError::Shake(e))
            }
        }
    }

    /// Takes the handshake that was read of the frame with which the splitter's bytes begin.
    fn greet(&mut self, handshake: Handshake) -> Got
        requires reading { IsReading self.old }
        requires unshaken { is_some self.old.session.agreed ≡ false }
        requires begins { Begins self.old.splitter }
        ensures made { Greets self.old self.new handshake result }
        ensures fits { HasFit result }
        ensures limits { limits_of self.new ≡ limits_of self.old }
    {
        facts_hold();
        next_is_read();
        unread_moves();
        wire_is_sound();
        self.splitter.pass();
        let got = match handshake {
            Handshake::Request(shake) => self.session.take_request(shake.codec, shake.version),
            Handshake::Response => self.session.take_response(),
        };
        let framing = framing(self.session.codec);
        self.splitter.reframe(framing);
        got
    }

    /// The first frame is no handshake. A server owes its answer.
    fn refuse(&mut self, e: &ShakeError)
        ensures made { Refuses self.old self.new e.now }
        ensures limits { limits_of self.new ≡ limits_of self.old }
    {
        self.session.refuse(Answer::to(e));
    }

    /// The end is closed, since the next frame can't be read.
    fn fail(&mut self, at: u64, why: FrameWhy) -> NextError
        ensures failed { FailsAt self.old self.new at why result }
        ensures limits { limits_of self.new ≡ limits_of self.old }
    {
        let link = self.session.own_number();
        self.session.fail();
        NextError::Frame { link, at, why }
    }

    /// This, which is due and no message, is said.
    fn say(&mut self, said: NextFrame)
        requires { said ≡ NextFrame.Message → ⊥ }
        ensures control_buffer { self.new.control_buffer ≡ self.old.control_buffer }
        ensures said { Said self.old self.new said }
        ensures limits { limits_of self.new ≡ limits_of self.old }
    {
        unread_stays();
        self.session.say(said);
    }

    /// The same, with its bytes on the slate.
    fn say_control(&mut self, said: NextFrame, control: Control)
        requires { said ≡ NextFrame.Message → ⊥ }
        ensures control_buffer { self.new.control_buffer ≡ spelling self.old.session.codec (frame_of_control control) }
        ensures said { Said self.old self.new said }
        ensures limits { limits_of self.new ≡ limits_of self.old }
    {
        self.control_buffer.write(self.session.codec, control);
        self.say(said);
    }

    /// A client's request, with its bytes on the slate.
    fn say_request(&mut self)
        ensures control_buffer { self.new.control_buffer ≡ spelling self.old.session.codec (Request self.old.session.codec self.old.session.version) }
        ensures said { Said self.old self.new NextFrame.Request }
        ensures limits { limits_of self.new ≡ limits_of self.old }
    {
        let codec = self.session.codec;
        let version = self.session.version;
        self.control_buffer.write_request(Shake { codec, version });
        self.say(NextFrame::Request);
    }

    /// Whether anything can be sent: first that the end isn't closed, then that the handshake is complete.
    fn may_send(&self) -> Result<(), SendError>
        ensures ok { OnOk result (OfEach self.now (λ wire c h. let k = in_frames wire c h in (is_closed c k ≡ false) × (of.is_shaken k ≡ true))) }
        ensures refused { IfErr result (λ e. (m : Message) → RefusesToSend self.now self.now m e) }
    {
        match self.session.state() {
            State::Opening => Err(SendError::Opening),
            State::Closed => Err(SendError::Closed),
            State::Ready | State::Away => Ok(()),
        }
    }

    /// Takes the framed frame of a message, if it is within the limits.
    fn push(&mut self, frame: Frame) -> Result<u64, SendError>
        requires live { OfEach self.old (λ wire c h. let k = in_frames wire c h in (is_closed c k ≡ false) × (of.is_shaken k ≡ true)) }
        requires spelled { (m : Message) × IsSpelled self.old.session.codec m frame }
        ensures ok { IfOk result (λ number. (m : Message) → is_sequenced m ≡ true → Fits m → IsSpelled self.old.session.codec m frame →
            Sends self.old self.new m number) }
        ensures refused { IfErr result (λ e. (m : Message) → IsSpelled self.old.session.codec m frame → RefusesToSend self.old self.new m e) }
        ensures limits { limits_of self.new ≡ limits_of self.old }
        ensures codec { spoken_in self.new ≡ spoken_in self.old }
    {
        message_image_is_as_deep();
        image_is_its_image();
        frame_is_of_image();
        unread_stays();
        wrapped_begins();
        let size = unframed_size(self.session.codec, frame.bytes());
        if size > self.session.ring.limits().frame() {
            return Err(SendError::TooLong { size });
        }
        match self.session.push(frame) {
            Ok(number) => Ok(number),
            Err(PushError::Full { held, bytes, size }) => Err(SendError::Full {
                held,
                bytes,
                size,
            }),
            Err(PushError::Exhausted) => Err(SendError::Exhausted),
        }
    }
}
