//! What the program does: the command that its words ask for, from its input to its exit status.

ghost use Rattle.std.specs.Prelude.{◌≡◌, ◌≢◌, ◌≤◌, ◌+◌, ◌⊎◌, ℕ, IfOk, Err, List, [], Option, None, Some, length, take};
ghost use Rattle.std.specs.Io.KnownBytes.{Appends, Consumes, IsAtEnd};
ghost use Rattle.hd_delivery.specs.declared.vocabulary.Side.{Side};
ghost use Rattle.hd_facts.specs.Counts.{one_more};
ghost use Rattle.hd_facts.specs.Writes.{Writes, WritesOfRead};
ghost use Rattle.sr_check.specs.Stream.{IsTouchedByBytesAlone, most_piece};
ghost use Rattle.sr_words.specs.Words.{Asks, IsNoCommand};
ghost use Rattle.sr_words.specs.declared.adding.Adding.{Adding};
ghost use Rattle.sr_words.specs.declared.commands.Command.TheVariants.{Audit, Client, Serve, User};
ghost use Rattle.sr_words.specs.declared.dialing.Dialing.{Dialing};
ghost use Rattle.sr_words.specs.declared.serving.Serving.{Serving};
ghost use Rattle.hub_server.specs.Steps.{outside};
ghost use Rattle.sr_serve.specs.Serving.{environment, serving_line};
ghost use Rattle.sr_client.specs.Running.{faults};
ghost use Rattle.sr_app.specs.Run.{Answered, AsksFor, DialsNothing, DrawsNothing, Ends, EndsAdding, EndsDialing, EndsServing, HasAnswered, IsEndedOtherwise, KeepsNothing, ReadsBounded, ReadsNothing, ServesNothing, TellsFaults, WritesOnce, WritesPartFor, add_environment, adding_line, auditing, code_of, dial_environment, dialing, doing, meaning_of, input_output, recording, replaying, soaking, usage_line};
ghost use Rattle.sr_script.specs.Script.{refusal_line};

use ha_audit::{MOST_TRACE, TraceError, audit, audit_alone, verdict_alone_line, verdict_line};
use hd_delivery::Side;
use hd_trace::{Verdict, VerdictAlone};
use he_wire::has_wire;
use hf_split::empty_waits;
use hk_keeper::{KeepError, Keeper};
use hw_door::{Dialer, Door, Lots};
use hw_io::{Failed, Sink, Source};
use sr_check::{Stop, Task};
use sr_client::{ClientError, long_scripts_are_refused_by_their_front};
use sr_replay::{RecordError, ReplayError, record, replay, reports_have_lines};
use sr_script::{
    MOST_SCRIPT, ScriptError, long_is_refused_by_its_front,
    long_is_refused_by_its_front_without_peers, parse, parse_without_peers,
};
use sr_serve::{ServeError, serve_hub};
use sr_soak::soak;
use sr_words::{Adding, Command, Dialing, Serving, WordsError};
use std::alloc::{AllocError, Global};

const USAGE: &[u8] =
    b"usage: sr replay, soak, serve, client, check, convert, user, record or audit\n";

/// What `user` writes of a user whom the keeper didn't have.
const ADDED: &[u8] = b"added\n";

/// What `user` writes if the keeper has a user with this token already.
const KNOWN: &[u8] = b"known\n";

/// How many bytes of a script or a trace are read at a time.
const PIECE: usize = 4096;

/// How a command ended, by its exit status.
#[derive(Clone, Copy, Debug, PartialEq, Eq)]
pub(crate) enum Status {
    Done = 0,
    Usage = 1,
    Refused = 2,
    ReadFault = 3,
    WriteFault = 4,
    DoorFault = 5,
    KeeperFault = 6,
    NoMemory = 7,
    ConnectionRefused = 8,
    LotsFault = 9,
    TurnsDone = 10,
    BrokenOff = 11,
}

impl Status {
    /// The exit status.
    pub(crate) fn code(self) -> u8
        ensures { result ≡ code_of self }
    {
        self as u8
    }
}

/// Why an input was not read.
#[derive(Clone, Copy, Debug, PartialEq, Eq)]
enum ReadError {
    Failed,
    NoMemory,
}

/// Reads a source to its end or, if it has more than `most` bytes, past that many.
fn read_all<S: Source>(alloc: Global, most: usize, input: &mut S) -> Result<Vec<u8>, ReadError>
    ensures read { IfOk result (λ text. Consumes (S.left input.old) (S.left input.new) text.items) }
    ensures short { IfOk result (λ text. length text.items ≤ most + most_piece) }
    ensures bounded { ReadsBounded most (S.left input.old) (S.left input.new) }
    ensures ended { IfOk result (λ text. length text.items ≤ most → IsAtEnd (S.left input.new)) }
    ensures failed { result ≡ Err ReadError.Failed → S.faults input.new ≡ one_more (S.faults input.old) }
    ensures unfailed { result ≢ Err ReadError.Failed → S.faults input.new ≡ S.faults input.old }
{
    let mut text = Vec::new(alloc);
    let mut piece = [0u8; PIECE];
    while text.len() <= most {
        match input.take(&mut piece) {
            Ok(0) => return Ok(text),
            Ok(count) => {
                if text.extend_from_slice(&piece[..count]).is_err() {
                    return Err(ReadError::NoMemory);
                }
            }
            Err(Failed) => return Err(ReadError::Failed),
        }
    }
    Ok(text)
}

/// Writes these bytes, and answers this status. Where there are none the output isn't touched.
fn write<K: Sink>(out: &mut K, bytes: &[u8], status: Status) -> Status
    requires { status ≢ Status.WriteFault }
    ensures same { (result ≡ status) ⊎ (result ≡ Status.WriteFault) }
    ensures whole { result ≡ status → Appends (K.holds out.old) (K.holds out.new) bytes.now }
    ensures part { result ≡ Status.WriteFault → (K.faults out.new ≡ one_more (K.faults out.old))
        × ((n : ℕ) × Appends (K.holds out.old) (K.holds out.new) (take n bytes.now)) }
    ensures unfailed { result ≢ Status.WriteFault → K.faults out.new ≡ K.faults out.old }
    ensures touched { result ≢ Status.WriteFault → IsTouchedByBytesAlone K.holds out.old out.new }
    ensures untouched { bytes.now ≡ [] → out.new ≡ out.old }
{
    if bytes.is_empty() {
        return status;
    }
    match out.put(bytes) {
        Ok(()) => status,
        Err(Failed) => Status::WriteFault,
    }
}

/// Writes that a text is no script, or no trace, by the number of its first line that is refused.
fn refuse<K: Sink>(alloc: Global, number: u64, out: &mut K) -> Status
    ensures same { (result ≡ Status.Refused) ⊎ (result ≡ Status.WriteFault) ⊎ (result ≡ Status.NoMemory) }
    ensures whole { result ≡ Status.Refused → Appends (K.holds out.old) (K.holds out.new) (refusal_line number) }
    ensures part { result ≡ Status.WriteFault → (K.faults out.new ≡ one_more (K.faults out.old))
        × ((n : ℕ) × Appends (K.holds out.old) (K.holds out.new) (take n (refusal_line number))) }
    ensures unfailed { result ≢ Status.WriteFault → K.faults out.new ≡ K.faults out.old }
    ensures touched { result ≢ Status.WriteFault → IsTouchedByBytesAlone K.holds out.old out.new }
    ensures no_memory { result ≡ Status.NoMemory → out.new ≡ out.old }
{
    match format!(in alloc; "line {number} refused\n") {
        Ok(line) => write(out, line.as_bytes(), Status::Refused),
        Err(AllocError) => Status::NoMemory,
    }
}

/// Replays a script, or writes where it stops being one.
fn answer<K: Sink>(alloc: Global, text: &[u8], out: &mut K) -> Status
    ensures answered { result ≢ Status.NoMemory → Answered text.now result (K.holds out.old) (K.holds out.new) (K.faults out.old) (K.faults out.new) }
    ensures unfailed { result ≢ Status.WriteFault → K.faults out.new ≡ K.faults out.old }
    ensures touched { result ≢ Status.WriteFault → IsTouchedByBytesAlone K.holds out.old out.new }
    ensures no_memory { result ≡ Status.NoMemory → out.new ≡ out.old }
{
    reports_have_lines();
    let script = match parse(alloc, text) {
        Ok(script) => script,
        Err(ScriptError::Line(number)) => return refuse(alloc, number, out),
        Err(ScriptError::NoMemory) => return Status::NoMemory,
    };
    match replay(alloc, &script, out) {
        Ok(_) => Status::Done,
        Err(ReplayError::Write) => Status::WriteFault,
        Err(ReplayError::NoMemory) => Status::NoMemory,
    }
}

/// Replays the script that the input holds.
fn run_replay<S: Source, K: Sink>(alloc: Global, input: &mut S, out: &mut K) -> Status
    ensures ends { Ends replaying result
        (input_output (S.left input.old) (S.faults input.old) (K.holds out.old) (K.faults out.old))
        (input_output (S.left input.new) (S.faults input.new) (K.holds out.new) (K.faults out.new)) }
    ensures faults { TellsFaults result
        (input_output (S.left input.old) (S.faults input.old) (K.holds out.old) (K.faults out.old))
        (input_output (S.left input.new) (S.faults input.new) (K.holds out.new) (K.faults out.new)) }
    ensures touched { result ≢ Status.WriteFault → IsTouchedByBytesAlone K.holds out.old out.new }
    ensures untouched { (result ≡ Status.ReadFault) ⊎ (result ≡ Status.NoMemory) → out.new ≡ out.old }
{
    long_is_refused_by_its_front();
    match read_all(alloc, MOST_SCRIPT, input) {
        Ok(text) => answer(alloc, &text, out),
        Err(ReadError::Failed) => Status::ReadFault,
        Err(ReadError::NoMemory) => Status::NoMemory,
    }
}

/// Records a script of two ends alone, or writes where the text stops being one.
fn record_text<K: Sink>(alloc: Global, text: &[u8], out: &mut K) -> Status
    ensures answered { HasAnswered recording text.now result (K.holds out.old) (K.holds out.new) (K.faults out.old) (K.faults out.new) }
    ensures unfailed { result ≢ Status.WriteFault → K.faults out.new ≡ K.faults out.old }
    ensures touched { result ≢ Status.WriteFault → IsTouchedByBytesAlone K.holds out.old out.new }
{
    let script = match parse_without_peers(alloc, text) {
        Ok(script) => script,
        Err(ScriptError::Line(number)) => return refuse(alloc, number, out),
        Err(ScriptError::NoMemory) => return Status::NoMemory,
    };
    match record(alloc, &script, out) {
        Ok(()) => Status::Done,
        Err(RecordError::Peers) => unreachable!(),
        Err(RecordError::Write) => Status::WriteFault,
        Err(RecordError::NoMemory) => Status::NoMemory,
    }
}

/// Records the script that the input holds.
fn run_record<S: Source, K: Sink>(alloc: Global, input: &mut S, out: &mut K) -> Status
    ensures ends { Ends recording result
        (input_output (S.left input.old) (S.faults input.old) (K.holds out.old) (K.faults out.old))
        (input_output (S.left input.new) (S.faults input.new) (K.holds out.new) (K.faults out.new)) }
    ensures faults { TellsFaults result
        (input_output (S.left input.old) (S.faults input.old) (K.holds out.old) (K.faults out.old))
        (input_output (S.left input.new) (S.faults input.new) (K.holds out.new) (K.faults out.new)) }
    ensures touched { result ≢ Status.WriteFault → IsTouchedByBytesAlone K.holds out.old out.new }
{
    long_is_refused_by_its_front_without_peers();
    match read_all(alloc, MOST_SCRIPT, input) {
        Ok(text) => record_text(alloc, &text, out),
        Err(ReadError::Failed) => Status::ReadFault,
        Err(ReadError::NoMemory) => Status::NoMemory,
    }
}

impl From<Verdict> for Status {
    ghost use Rattle.std.specs.Prelude.{◌≡◌};
    ghost use Rattle.sr_app.specs.Run.{status_of_verdict};

    ghost from_gives = { λ verdict status. status ≡ status_of_verdict verdict };

    fn from(verdict: Verdict) -> Status {
        match verdict {
            Verdict::World { .. } => Status::Done,
            Verdict::Breaks { .. } => Status::BrokenOff,
        }
    }
}

impl From<VerdictAlone> for Status {
    ghost use Rattle.std.specs.Prelude.{◌≡◌};
    ghost use Rattle.sr_app.specs.Run.{status_of_verdict_alone};

    ghost from_gives = { λ verdict status. status ≡ status_of_verdict_alone verdict };

    fn from(verdict: VerdictAlone) -> Status {
        match verdict {
            VerdictAlone::History(_) => Status::Done,
            VerdictAlone::Breaks { .. } => Status::BrokenOff,
        }
    }
}

/// Judges a trace of two ends, or writes where the text stops being one.
fn audit_both<K: Sink>(alloc: Global, text: &[u8], out: &mut K) -> Status
    ensures answered { HasAnswered (auditing None) text.now result (K.holds out.old) (K.holds out.new) (K.faults out.old) (K.faults out.new) }
    ensures unfailed { result ≢ Status.WriteFault → K.faults out.new ≡ K.faults out.old }
    ensures touched { result ≢ Status.WriteFault → IsTouchedByBytesAlone K.holds out.old out.new }
    ensures no_memory { result ≡ Status.NoMemory → out.new ≡ out.old }
    ensures read { result ≢ Status.ReadFault }
{
    let trace = match ha_audit::parse(alloc, text) {
        Ok(trace) => trace,
        Err(TraceError::Line(number)) => return refuse(alloc, number, out),
        Err(TraceError::NoMemory) => return Status::NoMemory,
    };
    let Ok(verdict) = audit(alloc, &trace) else {
        return Status::NoMemory;
    };
    match verdict_line(alloc, verdict) {
        Ok(line) => write(out, line.as_bytes(), Status::from(verdict)),
        Err(AllocError) => Status::NoMemory,
    }
}

/// Judges the trace of this end alone, or writes where the text stops being one.
fn audit_one<K: Sink>(alloc: Global, side: Side, text: &[u8], out: &mut K) -> Status
    ensures answered { HasAnswered (auditing (Some side)) text.now result (K.holds out.old) (K.holds out.new) (K.faults out.old) (K.faults out.new) }
    ensures unfailed { result ≢ Status.WriteFault → K.faults out.new ≡ K.faults out.old }
    ensures touched { result ≢ Status.WriteFault → IsTouchedByBytesAlone K.holds out.old out.new }
    ensures no_memory { result ≡ Status.NoMemory → out.new ≡ out.old }
    ensures read { result ≢ Status.ReadFault }
{
    let trace = match ha_audit::parse_alone(alloc, text, side) {
        Ok(trace) => trace,
        Err(TraceError::Line(number)) => return refuse(alloc, number, out),
        Err(TraceError::NoMemory) => return Status::NoMemory,
    };
    let Ok(verdict) = audit_alone(alloc, side, &trace) else {
        return Status::NoMemory;
    };
    match verdict_alone_line(alloc, side, verdict) {
        Ok(line) => write(out, line.as_bytes(), Status::from(verdict)),
        Err(AllocError) => Status::NoMemory,
    }
}

/// Judges a trace of both ends, or of the one that is named.
fn audit_text<K: Sink>(alloc: Global, side: Option<Side>, text: &[u8], out: &mut K) -> Status
    ensures answered { HasAnswered (auditing side) text.now result (K.holds out.old) (K.holds out.new) (K.faults out.old) (K.faults out.new) }
    ensures unfailed { result ≢ Status.WriteFault → K.faults out.new ≡ K.faults out.old }
    ensures touched { result ≢ Status.WriteFault → IsTouchedByBytesAlone K.holds out.old out.new }
    ensures no_memory { result ≡ Status.NoMemory → out.new ≡ out.old }
    ensures read { result ≢ Status.ReadFault }
{
    match side {
        None => audit_both(alloc, text, out),
        Some(side) => audit_one(alloc, side, text, out),
    }
}

/// Judges the trace that the input holds.
fn run_audit<S: Source, K: Sink>(
    alloc: Global,
    side: Option<Side>,
    input: &mut S,
    out: &mut K,
) -> Status
    ensures ends { Ends (auditing side) result
        (input_output (S.left input.old) (S.faults input.old) (K.holds out.old) (K.faults out.old))
        (input_output (S.left input.new) (S.faults input.new) (K.holds out.new) (K.faults out.new)) }
    ensures faults { TellsFaults result
        (input_output (S.left input.old) (S.faults input.old) (K.holds out.old) (K.faults out.old))
        (input_output (S.left input.new) (S.faults input.new) (K.holds out.new) (K.faults out.new)) }
    ensures touched { result ≢ Status.WriteFault → IsTouchedByBytesAlone K.holds out.old out.new }
    ensures untouched { (result ≡ Status.ReadFault) ⊎ (result ≡ Status.NoMemory) → out.new ≡ out.old }
{
    ha_audit::long_is_refused_by_its_front();
    match read_all(alloc, MOST_TRACE, input) {
        Ok(text) => audit_text(alloc, side, &text, out),
        Err(ReadError::Failed) => Status::ReadFault,
        Err(ReadError::NoMemory) => Status::NoMemory,
    }
}

/// Soaks, and writes the one line of that.
fn run_soak<K: Sink>(alloc: Global, seed: u64, steps: u32, out: &mut K) -> Status
    ensures ends { (left : Option (List ℕ)) (faults : ℕ) → Ends (soaking seed steps) result
        (input_output left faults (K.holds out.old) (K.faults out.old)) (input_output left faults (K.holds out.new) (K.faults out.new)) }
    ensures unfailed { result ≢ Status.WriteFault → K.faults out.new ≡ K.faults out.old }
    ensures touched { result ≢ Status.WriteFault → IsTouchedByBytesAlone K.holds out.old out.new }
    ensures no_memory { result ≡ Status.NoMemory → out.new ≡ out.old }
    ensures same { (result ≡ Status.Done) ⊎ (result ≡ Status.WriteFault) ⊎ (result ≡ Status.NoMemory) }
{
    match soak(alloc, seed, steps, out) {
        Ok(_) => Status::Done,
        Err(ReplayError::Write) => Status::WriteFault,
        Err(ReplayError::NoMemory) => Status::NoMemory,
    }
}

impl From<Stop> for Status {
    ghost use Rattle.std.specs.Prelude.{◌≡◌};
    ghost use Rattle.sr_app.specs.Run.{status_of};

    ghost from_gives = { λ stop status. status ≡ status_of stop };

    fn from(stop: Stop) -> Status {
        match stop {
            Stop::Refused => Status::Refused,
            Stop::ReadFault => Status::ReadFault,
            Stop::WriteFault => Status::WriteFault,
            Stop::NoMemory => Status::NoMemory,
        }
    }
}

/// Does a task over the frames that the input holds.
fn run_task<S: Source, K: Sink>(alloc: Global, task: Task, input: &mut S, out: &mut K) -> Status
    ensures ends { Ends (doing task) result
        (input_output (S.left input.old) (S.faults input.old) (K.holds out.old) (K.faults out.old))
        (input_output (S.left input.new) (S.faults input.new) (K.holds out.new) (K.faults out.new)) }
    ensures faults { TellsFaults result
        (input_output (S.left input.old) (S.faults input.old) (K.holds out.old) (K.faults out.old))
        (input_output (S.left input.new) (S.faults input.new) (K.holds out.new) (K.faults out.new)) }
    ensures touched { result ≢ Status.WriteFault → IsTouchedByBytesAlone K.holds out.old out.new }
{
    match task.run(alloc, input, out) {
        Ok(()) => Status::Done,
        Err(stop) => Status::from(stop),
    }
}

impl From<ServeError> for Status {
    ghost use Rattle.std.specs.Prelude.{◌≡◌};
    ghost use Rattle.sr_app.specs.Run.{status_of_error};

    ghost from_gives = { λ error status. status ≡ status_of_error error };

    fn from(error: ServeError) -> Status {
        match error {
            ServeError::Write => Status::WriteFault,
            ServeError::Door => Status::DoorFault,
            ServeError::Keeper => Status::KeeperFault,
            ServeError::NoMemory => Status::NoMemory,
        }
    }
}

/// Serves the hub through a door.
fn run_serve<K: Sink, D: Door, R: Keeper, L: Lots>(
    alloc: Global,
    serving: Serving,
    out: &mut K,
    door: &mut D,
    keeper: &mut R,
    lots: &mut L,
) -> Status
    ensures serves { EndsServing serving result (λ calls. D.Goes door.old calls door.new)
        (environment (K.holds out.old) (K.faults out.old) (D.moment door.old) (D.faults door.old)
        (outside (R.holds keeper.old) (R.answers keeper.old) (R.faults keeper.old) (L.drawn lots.old) (L.faults lots.old)))
        (environment (K.holds out.new) (K.faults out.new) (D.moment door.new) (D.faults door.new)
        (outside (R.holds keeper.new) (R.answers keeper.new) (R.faults keeper.new) (L.drawn lots.new) (L.faults lots.new))) }
    ensures unwritten { result ≡ Status.KeeperFault → out.new ≡ out.old }
    ensures unheard { (result ≡ Status.KeeperFault) ⊎ (result ≡ Status.WriteFault) → (door.new ≡ door.old) × (lots.new ≡ lots.old) }
    ensures no_memory { result ≡ Status.NoMemory
        → (out.new ≡ out.old) ⊎ ((rows : ℕ) × Appends (K.holds out.old) (K.holds out.new) (serving_line rows)) }
{
    match serve_hub(
        alloc,
        serving.base,
        serving.resend,
        serving.live,
        serving.turns,
        out,
        door,
        keeper,
        lots,
    ) {
        Ok(()) => Status::Done,
        Err(error) => Status::from(error),
    }
}

impl From<ClientError> for Status {
    ghost use Rattle.std.specs.Prelude.{◌≡◌};
    ghost use Rattle.sr_app.specs.Run.{status_of_client};

    ghost from_gives = { λ error status. status ≡ status_of_client error };

    fn from(error: ClientError) -> Status {
        match error {
            ClientError::Refused => Status::ConnectionRefused,
            ClientError::Dial => Status::DoorFault,
            ClientError::Write => Status::WriteFault,
            ClientError::Lots => Status::LotsFault,
            ClientError::NoMemory => Status::NoMemory,
            ClientError::Turns => Status::TurnsDone,
        }
    }
}

/// Runs a script as a client, or writes where the text stops being one.
fn dial<K: Sink, C: Dialer, L: Lots>(
    alloc: Global,
    asked: Dialing,
    text: &[u8],
    out: &mut K,
    dialer: &mut C,
    lots: &mut L,
) -> Status
    ensures dials { EndsDialing asked result (λ calls. C.Goes dialer.old calls dialer.new) ((dialer.new ≡ dialer.old) × (lots.new ≡ lots.old)) (Some text.now)
        (dial_environment (L.drawn lots.old) (K.holds out.old) (faults (C.faults dialer.old) (L.faults lots.old) (K.faults out.old)))
        (dial_environment (L.drawn lots.new) (K.holds out.new) (faults (C.faults dialer.new) (L.faults lots.new) (K.faults out.new))) }
    ensures touched { result ≢ Status.WriteFault → IsTouchedByBytesAlone K.holds out.old out.new }
    ensures read { result ≢ Status.ReadFault }
{
    let script = match sr_client::parse(alloc, text) {
        Ok(script) => script,
        Err(ScriptError::Line(number)) => return refuse(alloc, number, out),
        Err(ScriptError::NoMemory) => return Status::NoMemory,
    };
    let limits = asked.resend.limits();
    match sr_client::run_client(
        alloc,
        script,
        &asked.address,
        asked.codec,
        limits,
        dialer,
        lots,
        out,
        asked.turns,
    ) {
        Ok(()) => Status::Done,
        Err(error) => Status::from(error),
    }
}

/// Runs the script that the input holds, as a client. It is read whole before anybody is dialed.
fn run_dialing<S: Source, K: Sink, C: Dialer, L: Lots>(
    alloc: Global,
    asked: Dialing,
    input: &mut S,
    out: &mut K,
    dialer: &mut C,
    lots: &mut L,
) -> Status
    ensures ends { Ends (dialing asked) result
        (input_output (S.left input.old) (S.faults input.old) (K.holds out.old) (K.faults out.old))
        (input_output (S.left input.new) (S.faults input.new) (K.holds out.new) (K.faults out.new)) }
    ensures source_unfailed { result ≢ Status.ReadFault → S.faults input.new ≡ S.faults input.old }
    ensures touched { result ≢ Status.WriteFault → IsTouchedByBytesAlone K.holds out.old out.new }
    ensures dials { EndsDialing asked result (λ calls. C.Goes dialer.old calls dialer.new) ((dialer.new ≡ dialer.old) × (lots.new ≡ lots.old)) (S.left input.old)
        (dial_environment (L.drawn lots.old) (K.holds out.old) (faults (C.faults dialer.old) (L.faults lots.old) (K.faults out.old)))
        (dial_environment (L.drawn lots.new) (K.holds out.new) (faults (C.faults dialer.new) (L.faults lots.new) (K.faults out.new))) }
{
    has_wire();
    long_scripts_are_refused_by_their_front();
    match read_all(alloc, sr_client::MOST_SCRIPT, input) {
        Ok(text) => dial(alloc, asked, &text, out, dialer, lots),
        Err(ReadError::Failed) => Status::ReadFault,
        Err(ReadError::NoMemory) => Status::NoMemory,
    }
}

impl From<KeepError> for Status {
    ghost use Rattle.std.specs.Prelude.{◌≡◌};
    ghost use Rattle.sr_app.specs.Run.{status_of_keeper};

    ghost from_gives = { λ error status. status ≡ status_of_keeper error };

    fn from(error: KeepError) -> Status {
        match error {
            KeepError::Failed => Status::KeeperFault,
            KeepError::NoMemory => Status::NoMemory,
        }
    }
}

/// What `user` writes of a user who is new to the keeper, or isn't.
fn line_of(is_new: bool) -> &'static [u8]
    ensures { result.now ≡ adding_line is_new }
{
    if is_new { ADDED } else { KNOWN }
}

/// Has the keeper add a user, and writes whether it did.
fn run_user<K: Sink, R: Keeper>(alloc: Global, asked: Adding, out: &mut K, keeper: &mut R) -> Status
    ensures adds { EndsAdding asked result
        (add_environment (R.holds keeper.old) (R.answers keeper.old) (R.faults keeper.old) (K.holds out.old) (K.faults out.old))
        (add_environment (R.holds keeper.new) (R.answers keeper.new) (R.faults keeper.new) (K.holds out.new) (K.faults out.new)) }
    ensures touched { result ≢ Status.WriteFault → IsTouchedByBytesAlone K.holds out.old out.new }
    ensures untouched { (result ≡ Status.KeeperFault) ⊎ (result ≡ Status.NoMemory) → out.new ≡ out.old }
{
    match keeper.add_user(alloc, &asked.token, &asked.name) {
        Ok(is_new) => write(out, line_of(is_new), Status::Done),
        Err(error) => Status::from(error),
    }
}

/// Carries out a command.
fn carry_out<S: Source, K: Sink, D: Door, C: Dialer, R: Keeper, L: Lots>(
    alloc: Global,
    command: Command,
    input: &mut S,
    out: &mut K,
    door: &mut D,
    dialer: &mut C,
    keeper: &mut R,
    lots: &mut L,
) -> Status
    ensures ends { Ends (meaning_of command) result
        (input_output (S.left input.old) (S.faults input.old) (K.holds out.old) (K.faults out.old))
        (input_output (S.left input.new) (S.faults input.new) (K.holds out.new) (K.faults out.new)) }
    ensures faults { TellsFaults result
        (input_output (S.left input.old) (S.faults input.old) (K.holds out.old) (K.faults out.old))
        (input_output (S.left input.new) (S.faults input.new) (K.holds out.new) (K.faults out.new)) }
    ensures touched { result ≢ Status.WriteFault → IsTouchedByBytesAlone K.holds out.old out.new }
    ensures untouched { WritesOnce command → (result ≡ Status.ReadFault) ⊎ (result ≡ Status.NoMemory) → out.new ≡ out.old }
    ensures unread { ReadsNothing command → input.new ≡ input.old }
    ensures serves { (serving : Serving) → command ≡ Serve serving → EndsServing serving result (λ calls. D.Goes door.old calls door.new)
        (environment (K.holds out.old) (K.faults out.old) (D.moment door.old) (D.faults door.old)
        (outside (R.holds keeper.old) (R.answers keeper.old) (R.faults keeper.old) (L.drawn lots.old) (L.faults lots.old)))
        (environment (K.holds out.new) (K.faults out.new) (D.moment door.new) (D.faults door.new)
        (outside (R.holds keeper.new) (R.answers keeper.new) (R.faults keeper.new) (L.drawn lots.new) (L.faults lots.new))) }
    ensures dials { (asked : Dialing) → command ≡ Client asked → EndsDialing asked result (λ calls. C.Goes dialer.old calls dialer.new) ((dialer.new ≡ dialer.old) × (lots.new ≡ lots.old)) (S.left input.old)
        (dial_environment (L.drawn lots.old) (K.holds out.old) (faults (C.faults dialer.old) (L.faults lots.old) (K.faults out.old)))
        (dial_environment (L.drawn lots.new) (K.holds out.new) (faults (C.faults dialer.new) (L.faults lots.new) (K.faults out.new))) }
    ensures adds { (asked : Adding) → command ≡ User asked → EndsAdding asked result
        (add_environment (R.holds keeper.old) (R.answers keeper.old) (R.faults keeper.old) (K.holds out.old) (K.faults out.old))
        (add_environment (R.holds keeper.new) (R.answers keeper.new) (R.faults keeper.new) (K.holds out.new) (K.faults out.new)) }
    ensures unwritten { result ≡ Status.KeeperFault → out.new ≡ out.old }
    ensures unheard { ServesNothing command ⊎ (result ≡ Status.KeeperFault) ⊎ (result ≡ Status.WriteFault) → door.new ≡ door.old }
    ensures unasked { KeepsNothing command → keeper.new ≡ keeper.old }
    ensures undialed { DialsNothing command → dialer.new ≡ dialer.old }
    ensures undrawn { DrawsNothing command (code_of result) → lots.new ≡ lots.old }
    ensures door_unfailed { result ≢ Status.DoorFault → D.faults door.new ≡ D.faults door.old }
    ensures dialer_unfailed { result ≢ Status.DoorFault → C.faults dialer.new ≡ C.faults dialer.old }
    ensures lots_unfailed { (asked : Dialing) → command ≡ Client asked → result ≢ Status.LotsFault → L.faults lots.new ≡ L.faults lots.old }
{
    match command {
        Command::Replay => run_replay(alloc, input, out),
        Command::Record => run_record(alloc, input, out),
        Command::Audit { side } => run_audit(alloc, side, input, out),
        Command::Soak { seed, steps } => run_soak(alloc, seed, steps, out),
        Command::Check { codec } => run_task(alloc, Task::Check { codec }, input, out),
        Command::Convert { from, to } => run_task(alloc, Task::Convert { from, to }, input, out),
        Command::Serve(serving) => run_serve(alloc, serving, out, door, keeper, lots),
        Command::Client(asked) => run_dialing(alloc, asked, input, out, dialer, lots),
        Command::User(asked) => run_user(alloc, asked, out, keeper),
    }
}

/// Does what the words say, over this input and this output, and answers the exit status. `serve` hears through the door, asks the keeper
/// and draws the lots; `client` dials through the dialer and draws the lots; `user` asks the keeper; the other commands leave them alone.
///
/// | status | if |
/// |---|---|
/// | 0 | the input, if the command asks for one, is what it asks for; its whole answer was written. `serve`: all of its turns were done |
/// | | `client`: its script is at its end, no call is live, and its end is closed |
/// | | `user`: the keeper has a user with this token, who was added or known before; `audit`: the trace doesn't break off |
/// | 1 | the words are no command; the usage line was written |
/// | 2 | the input is refused; what is written of the frames before, and the refusal, was written |
/// | 3 | the input failed; nothing was written but what is written of the frames that were read |
/// | 4 | the output failed; it took a first part of what was to be written. `user`: the keeper has the user all the same |
/// | 5 | `serve`: the door failed; `client`: the dialer failed; what it was given before stands |
/// | 6 | `serve`: the keeper failed when it was asked how many rows there are; nothing was written or heard |
/// | | `user`: the keeper failed when it was asked to add the user; nothing was written, and users and rows are as before |
/// | 7 | out of memory; nothing was written but what is written of some frames that were read, a first part of what `record` writes, or the line |
/// | | with which `serve` begins |
/// | | `client`: nothing was written but what it printed before |
/// | 8 | `client`: the server refused it or closed the connection, what came can't be read, or the connection was lost for good |
/// | 9 | `client`: the lots failed |
/// | 10 | `client`: all its turns were done first |
/// | 11 | `audit`: the trace breaks off; the line that says where was written |
///
/// A fault of the input ends it with 3 and one of the output with 4: none is passed over. Then one call failed, of that
/// one, and neither was called after it. One of the door or the dialer ends it with 5: after the first call of it that
/// failed it is only flushed. A fault of the keeper at any other question, or under `serve` of the lots, ends nothing,
/// but that memory may be out then.
///
/// `client` reads its script whole before it dials or draws anything.
pub fn run<S: Source, K: Sink, D: Door, C: Dialer, R: Keeper, L: Lots>(
    alloc: Global,
    words: &[String],
    input: &mut S,
    out: &mut K,
    door: &mut D,
    dialer: &mut C,
    keeper: &mut R,
    lots: &mut L,
) -> u8
    ensures status { (result ≡ 0) ⊎ (result ≡ 1) ⊎ (result ≡ 2) ⊎ (result ≡ 3) ⊎ (result ≡ 4) ⊎ (result ≡ 5) ⊎ (result ≡ 6) ⊎ (result ≡ 7)
        ⊎ (result ≡ 8) ⊎ (result ≡ 9) ⊎ (result ≡ 10) ⊎ (result ≡ 11) }

    ensures done { result ≡ 0
        → AsksFor words.now (λ m. m.leaves (S.left input.new) × Writes m.done (S.left input.old) (K.holds out.old) (K.holds out.new)) }

    ensures usage { result ≡ 1 → IsNoCommand words.now × Appends (K.holds out.old) (K.holds out.new) usage_line }
    ensures wrong_words { IsNoCommand words.now → (result ≡ 1) ⊎ (result ≡ 4) ⊎ (result ≡ 7) }
    ensures refused { result ≡ 2
        → AsksFor words.now (λ m. Writes m.refused (S.left input.old) (K.holds out.old) (K.holds out.new)) }
    ensures read_fault { result ≡ 3 → (S.faults input.new ≡ one_more (S.faults input.old))
        × AsksFor words.now (λ m. WritesOfRead m.read (S.left input.old) (S.left input.new) (K.holds out.old) (K.holds out.new)) }
    ensures write_fault { result ≡ 4 → (K.faults out.new ≡ one_more (K.faults out.old))
        × WritesPartFor words.now (S.left input.old) (K.holds out.old) (K.holds out.new) }
    ensures no_memory { result ≡ 7 → (out.new ≡ out.old)
        ⊎ AsksFor words.now (λ m. Writes m.begun (S.left input.old) (K.holds out.old) (K.holds out.new)) }
    ensures ended { (status : Status) → IsEndedOtherwise status → result ≡ code_of status
        → AsksFor words.now (λ m. m.leaves (S.left input.new) × Writes (m.ended status) (S.left input.old) (K.holds out.old) (K.holds out.new)) }

    // What `serve` did, by its status: so 5 comes only if the door's count rose, and 6 only if the keeper's did at the first question.
    ensures serves { (serving : Serving) → Asks words.now (Serve serving) → (status : Status) × (result ≡ code_of status)
        × EndsServing serving status (λ calls. D.Goes door.old calls door.new)
        (environment (K.holds out.old) (K.faults out.old) (D.moment door.old) (D.faults door.old)
        (outside (R.holds keeper.old) (R.answers keeper.old) (R.faults keeper.old) (L.drawn lots.old) (L.faults lots.old)))
        (environment (K.holds out.new) (K.faults out.new) (D.moment door.new) (D.faults door.new)
        (outside (R.holds keeper.new) (R.answers keeper.new) (R.faults keeper.new) (L.drawn lots.new) (L.faults lots.new))) }
    ensures door_unfailed { result ≢ 5 → D.faults door.new ≡ D.faults door.old }
    ensures unwritten { result ≡ 6 → out.new ≡ out.old }
    ensures unheard { (result ≡ 4) ⊎ (result ≡ 6) → door.new ≡ door.old }
    ensures unserved { IsNoCommand words.now ⊎ ((command : Command) × (Asks words.now command × ServesNothing command)) → door.new ≡ door.old }

    // What `client` did, by its status: so 5 comes only if the dialer's count rose, 9 only if that of the lots did, and 8 and 10 if it was so.
    ensures dials { (asked : Dialing) → Asks words.now (Client asked) → (status : Status) × (result ≡ code_of status)
        × EndsDialing asked status (λ calls. C.Goes dialer.old calls dialer.new) ((dialer.new ≡ dialer.old) × (lots.new ≡ lots.old)) (S.left input.old)
        (dial_environment (L.drawn lots.old) (K.holds out.old) (faults (C.faults dialer.old) (L.faults lots.old) (K.faults out.old)))
        (dial_environment (L.drawn lots.new) (K.holds out.new) (faults (C.faults dialer.new) (L.faults lots.new) (K.faults out.new))) }
    ensures dial_statuses { (result ≡ 8) ⊎ (result ≡ 9) ⊎ (result ≡ 10) → (asked : Dialing) × Asks words.now (Client asked) }
    ensures dialer_unfailed { result ≢ 5 → C.faults dialer.new ≡ C.faults dialer.old }
    ensures lots_unfailed { (asked : Dialing) → Asks words.now (Client asked) → result ≢ 9 → L.faults lots.new ≡ L.faults lots.old }
    ensures undialed { IsNoCommand words.now ⊎ ((command : Command) × (Asks words.now command × DialsNothing command)) → dialer.new ≡ dialer.old }

    // What `user` did, by its status: it asked the keeper once, and the line says what that answered. 6 comes only if the keeper's count rose.
    ensures adds { (asked : Adding) → Asks words.now (User asked) → (status : Status) × (result ≡ code_of status)
        × EndsAdding asked status
        (add_environment (R.holds keeper.old) (R.answers keeper.old) (R.faults keeper.old) (K.holds out.old) (K.faults out.old))
        (add_environment (R.holds keeper.new) (R.answers keeper.new) (R.faults keeper.new) (K.holds out.new) (K.faults out.new)) }
    ensures unasked { IsNoCommand words.now ⊎ ((command : Command) × (Asks words.now command × KeepsNothing command)) → keeper.new ≡ keeper.old }

    // Only an audit comes to this: the trace breaks off.
    ensures audit_status { result ≡ 11 → (side : Option Side) × Asks words.now (Audit side) }

    // What two of them may do.
    ensures outside_fault { result ≡ 5
        → ((serving : Serving) × Asks words.now (Serve serving)) ⊎ ((asked : Dialing) × Asks words.now (Client asked)) }
    ensures keeper_fault { result ≡ 6
        → ((serving : Serving) × Asks words.now (Serve serving)) ⊎ ((asked : Adding) × Asks words.now (User asked)) }
    ensures undrawn { IsNoCommand words.now ⊎ ((command : Command) × (Asks words.now command × DrawsNothing command result)) → lots.new ≡ lots.old }

    // A count of faults rises only in a call that the status tells of.
    ensures source_unfailed { result ≢ 3 → S.faults input.new ≡ S.faults input.old }
    ensures sink_unfailed { result ≢ 4 → K.faults out.new ≡ K.faults out.old }

    // Where nothing was written the output was not touched, unless it failed.
    ensures touched { result ≢ 4 → IsTouchedByBytesAlone K.holds out.old out.new }
    ensures untouched { (command : Command) → Asks words.now command → WritesOnce command → (result ≡ 3) ⊎ (result ≡ 7) → out.new ≡ out.old }
    ensures unread { IsNoCommand words.now ⊎ ((command : Command) × (Asks words.now command × ReadsNothing command)) → input.new ≡ input.old }

    ensures within { (command : Command) → Asks words.now command
        → (meaning_of command).reads (S.left input.old) (S.left input.new) }
{
    match sr_words::parse(alloc, words) {
        Ok(command) => { carry_out(alloc, command, input, out, door, dialer, keeper, lots).code() }
        Err(WordsError::NoCommand) => write(out, USAGE, Status::Usage).code(),
        Err(WordsError::NoMemory) => {
            // So whatever the words ask for, no further is read than it may be.
            empty_waits();
            Status::NoMemory.code()
        }
    }
}
