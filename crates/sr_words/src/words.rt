//! What the words of a command line ask for, command by command.

ghost use Rattle.std.specs.Prelude.{◌≡◌, ℕ, List, Err, IfOk, IfErr, Option, Some, map, true, false, codes};
ghost use Rattle.clap.specs.Words.{app_of, rule_of, first_of, found_of, is_simple_and_free, matches_of, rows_of};
ghost use Rattle.hd_facts.specs.Unique.{IsTheOne};
ghost use Rattle.sr_words.specs.Clap.{SaysNumber, Takes, bare_app, optional, required, required_option};
ghost use Rattle.sr_words.specs.Options.{text_of, texts_of, with_options};
ghost use Rattle.sr_words.specs.Words.{AreSettings, Asks, AsksAfter, AsksNothingAfter, IsNoCommand, SaysAdding, SaysAddress, SaysDialing, SaysServing, SaysSide, audit_app, check_app, client_app, codec_name, convert_app, no_settings, record_app, replay_app, serve_app, settings_of, soak_app, texts, user_app};
ghost use Rattle.hd_delivery.specs.declared.vocabulary.Side.{Side};
ghost use Rattle.hm_message.specs.declared.message.Codec.{Codec};
ghost use Rattle.hw_door.specs.declared.heard.Address.{Address};
ghost use Rattle.sr_words.specs.declared.adding.Adding.{Adding};
ghost use Rattle.sr_words.specs.declared.dialing.Dialing.{Dialing};
ghost use Rattle.sr_words.specs.declared.serving.Serving.{Serving};

use crate::adding::Adding;
use crate::choice::Choice;
use crate::commands::Command;
use crate::dialing::{CLIENT_OPTIONS, Dialing};
use crate::error::WordsError;
use crate::reading::{address, base, codec, hub, live, number, port, resend, side};
use crate::serving::{SERVE_OPTIONS, Serving, Settings};
use clap::{Arg, ArgAction, ArgMatches};
use hd_delivery::Side;
use hm_message::Codec;
use hn_dialing::addresses_are_one;
use hv_value::Text;
use hw_door::Address;
use std::alloc::{AllocError, Global};

/// A command whose words begin with its arguments, and that has none of clap's own.
fn bare<'a>(alloc: Global, name: &'a str) -> clap::Command<'a>
    ensures { app_of result ≡ bare_app name.now }
{
    clap::Command::new(alloc, name)
        .disable_help_flag(true)
        .disable_version_flag(true)
        .no_binary_name(true)
}

/// A required argument of one value.
fn required<'a>(alloc: Global, id: &'a str) -> Arg<'a>
    ensures rule { rule_of result ≡ required id.now }
    ensures local { result.global ≡ false }
{
    Arg::new(alloc, id).required(true).action(ArgAction::Set)
}

/// An option `--NAME VALUE ..` of so many values, which may be absent.
fn optional<'a>(alloc: Global, name: &'a str, values: usize) -> Arg<'a>
    ensures rule { rule_of result ≡ optional name.now values }
    ensures local { result.global ≡ false }
{
    Arg::new(alloc, name)
        .long(name)
        .action(ArgAction::Set)
        .num_args(values)
}

/// An option `--NAME VALUE` that must be there.
fn required_option<'a>(alloc: Global, name: &'a str) -> Arg<'a>
    ensures rule { rule_of result ≡ required_option name.now }
    ensures local { result.global ≡ false }
{
    optional(alloc, name, 1).required(true)
}

/// The command with these options.
fn with_options<'a>(
    alloc: Global,
    command: clap::Command<'a>,
    options: &'a [Choice],
) -> Result<clap::Command<'a>, AllocError>
    ensures { IfOk result (λ c. app_of c ≡ with_options (app_of command.entry) (map (λ o. (o.name.now, o.values)) options.now)) }
{
    let mut command = command;
    for option in options {
        command = command.arg(optional(alloc, option.name, option.values))?;
    }
    Ok(command)
}

/// What clap makes of these words.
pub(crate) fn matches_in<'a>(
    command: clap::Command<'a>,
    words: &'a [String],
) -> Result<ArgMatches<'a>, WordsError>
    requires { is_simple_and_free (app_of command) ≡ true }
    ensures taken { IfOk result (λ m. Takes (app_of command.entry) (texts words.now)) }
    ensures rows { IfOk result (λ m. rows_of (found_of m) ≡ matches_of (app_of command.entry) (texts words.now)) }
    ensures refused { result ≡ Err WordsError.NoCommand → Takes (app_of command.entry) (texts words.now) → ⊥ }
{
    Ok(command.try_get_matches_from(words)?)
}

/// The codec that this argument names.
fn codec_of(matches: &ArgMatches, id: &str) -> Result<Codec, WordsError>
    ensures named { IfOk result (λ codec. first_of id.now (rows_of (found_of matches.now)) ≡ Some (codec_name codec)) }
    ensures none { IfErr result (λ e. (e ≡ WordsError.NoCommand)
        × ((codec : Codec) → first_of id.now (rows_of (found_of matches.now)) ≡ Some (codec_name codec) → ⊥)) }
{
    let Some(text) = matches.get_str(id) else {
        return Err(WordsError::NoCommand);
    };
    codec(text)
}

/// The command `replay`, which has no arguments.
fn replay_command<'a>(alloc: Global) -> clap::Command<'a>
    ensures { app_of result ≡ replay_app }
{
    bare(alloc, "replay")
}

/// What `replay` asks for with these words after it.
fn replay_words(alloc: Global, words: &[String]) -> Result<Command, WordsError>
    ensures ok { IfOk result (IsTheOne (AsksAfter (codes "replay") (texts words.now))) }
    ensures no_command { result ≡ Err WordsError.NoCommand → AsksNothingAfter (codes "replay") (texts words.now) }
{
    matches_in(replay_command(alloc), words)?;
    Ok(Command::Replay)
}

/// The command `record`, which has no arguments.
fn record_command<'a>(alloc: Global) -> clap::Command<'a>
    ensures { app_of result ≡ record_app }
{
    bare(alloc, "record")
}

/// What `record` asks for with these words after it.
fn record_words(alloc: Global, words: &[String]) -> Result<Command, WordsError>
    ensures ok { IfOk result (IsTheOne (AsksAfter (codes "record") (texts words.now))) }
    ensures no_command { result ≡ Err WordsError.NoCommand → AsksNothingAfter (codes "record") (texts words.now) }
{
    matches_in(record_command(alloc), words)?;
    Ok(Command::Record)
}

/// The command `audit --side SIDE`, whose option may be absent.
pub(crate) fn audit_command<'a>(alloc: Global) -> Result<clap::Command<'a>, AllocError>
    ensures { IfOk result (λ command. app_of command ≡ audit_app) }
{
    bare(alloc, "audit").arg(optional(alloc, "side", 1))
}

/// The end that the option `side` names, if it is given.
fn side_of(matches: &ArgMatches) -> Result<Option<Side>, WordsError>
    ensures said { IfOk result (SaysSide (rows_of (found_of matches.now))) }
    ensures none { IfErr result (λ e. (e ≡ WordsError.NoCommand)
        × ((named : Option Side) → SaysSide (rows_of (found_of matches.now)) named → ⊥)) }
{
    let Some(text) = matches.get_str("side") else {
        return Ok(None);
    };
    match side(text) {
        Ok(side) => Ok(Some(side)),
        Err(e) => Err(e),
    }
}

/// What `audit` asks for with these words after it.
fn audit_words(alloc: Global, words: &[String]) -> Result<Command, WordsError>
    ensures ok { IfOk result (IsTheOne (AsksAfter (codes "audit") (texts words.now))) }
    ensures no_command { result ≡ Err WordsError.NoCommand → AsksNothingAfter (codes "audit") (texts words.now) }
{
    let matches = matches_in(audit_command(alloc)?, words)?;
    let side = side_of(&matches)?;
    Ok(Command::Audit { side })
}

/// The command `check CODEC`.
fn check_command<'a>(alloc: Global) -> Result<clap::Command<'a>, AllocError>
    ensures { IfOk result (λ command. app_of command ≡ check_app) }
{
    bare(alloc, "check").arg(required(alloc, "codec"))
}

/// What `check` asks for with these words after it.
fn check_words(alloc: Global, words: &[String]) -> Result<Command, WordsError>
    ensures ok { IfOk result (IsTheOne (AsksAfter (codes "check") (texts words.now))) }
    ensures no_command { result ≡ Err WordsError.NoCommand → AsksNothingAfter (codes "check") (texts words.now) }
{
    let matches = matches_in(check_command(alloc)?, words)?;
    let codec = codec_of(&matches, "codec")?;
    Ok(Command::Check { codec })
}

/// The most steps of a soak.
pub const MOST_STEPS: u64 = 100_000;

/// The number that this argument says.
fn number_of(matches: &ArgMatches, id: &str) -> Result<u64, WordsError>
    ensures said { IfOk result (λ n. SaysNumber id.now n (rows_of (found_of matches.now))) }
    ensures none { IfErr result (λ e. (e ≡ WordsError.NoCommand)
        × ((n : ℕ) → SaysNumber id.now n (rows_of (found_of matches.now)) → ⊥)) }
{
    let Some(text) = matches.get_str(id) else {
        return Err(WordsError::NoCommand);
    };
    number(text)
}

/// The command `soak SEED STEPS`.
fn soak_command<'a>(alloc: Global) -> Result<clap::Command<'a>, AllocError>
    ensures { IfOk result (λ command. app_of command ≡ soak_app) }
{
    let command = bare(alloc, "soak").arg(required(alloc, "seed"))?;
    command.arg(required(alloc, "steps"))
}

/// What `soak` asks for with these words after it.
fn soak_words(alloc: Global, words: &[String]) -> Result<Command, WordsError>
    ensures ok { IfOk result (IsTheOne (AsksAfter (codes "soak") (texts words.now))) }
    ensures no_command { result ≡ Err WordsError.NoCommand → AsksNothingAfter (codes "soak") (texts words.now) }
{
    let matches = matches_in(soak_command(alloc)?, words)?;
    let seed = number_of(&matches, "seed")?;
    let steps = number_of(&matches, "steps")?;
    if steps > MOST_STEPS {
        return Err(WordsError::NoCommand);
    }
    Ok(Command::Soak {
        seed,
        steps: steps as u32,
    })
}

/// The command `convert FROM TO`.
fn convert_command<'a>(alloc: Global) -> Result<clap::Command<'a>, AllocError>
    ensures { IfOk result (λ command. app_of command ≡ convert_app) }
{
    let command = bare(alloc, "convert").arg(required(alloc, "from"))?;
    command.arg(required(alloc, "to"))
}

/// What `convert` asks for with these words after it.
fn convert_words(alloc: Global, words: &[String]) -> Result<Command, WordsError>
    ensures ok { IfOk result (IsTheOne (AsksAfter (codes "convert") (texts words.now))) }
    ensures no_command { result ≡ Err WordsError.NoCommand → AsksNothingAfter (codes "convert") (texts words.now) }
{
    let matches = matches_in(convert_command(alloc)?, words)?;
    let from = codec_of(&matches, "from")?;
    let to = codec_of(&matches, "to")?;
    if from == to {
        return Err(WordsError::NoCommand);
    }
    Ok(Command::Convert { from, to })
}

/// The command `serve` with its options.
#[tactic(auto, unfolding(crate::specs::Words::serve_app))]
pub(crate) fn serve_command<'a>(alloc: Global) -> Result<clap::Command<'a>, AllocError>
    ensures { IfOk result (λ command. app_of command ≡ serve_app) }
{
    with_options(alloc, bare(alloc, "serve"), SERVE_OPTIONS)
}

/// The text of the option of this name, or its usual one.
pub(crate) fn text<'a>(matches: &ArgMatches<'a>, name: &str, usual: &'a str) -> &'a str
    ensures { result.now ≡ text_of name.now usual.now (rows_of (found_of matches.now)) }
{
    matches.get_str(name).unwrap_or(usual)
}

/// The two texts of the option of this name, or its usual ones.
pub(crate) fn texts<'a>(
    matches: &ArgMatches<'a>,
    name: &str,
    usual: (&'a str, &'a str),
) -> (&'a str, &'a str)
    ensures { (result.0.now, result.1.now)
        ≡ texts_of name.now (usual.entry.0.now, usual.entry.1.now) (rows_of (found_of matches.now)) }
{
    let Some(texts) = matches.get_strs(name) else {
        return usual;
    };
    if texts.len() != 2 {
        return usual;
    }
    (texts[0], texts[1])
}

/// What the options that clap found ask of a server.
#[tactic(auto, unfolding(crate::specs::Words::SaysServing))]
fn serving(alloc: Global, matches: &ArgMatches) -> Result<Serving, WordsError>
    ensures said { IfOk result (SaysServing (rows_of (found_of matches.now))) }
    ensures none { result ≡ Err WordsError.NoCommand
        → (serving : Serving) → SaysServing (rows_of (found_of matches.now)) serving → ⊥ }
{
    let port = port(text(matches, "port", "8080"))?;
    let base = base(alloc, text(matches, "base", "/hub"))?;
    let turns = number(text(matches, "turns", "18446744073709551615"))?;
    let listen = address(text(matches, "listen", "127.0.0.1"))?;
    let resend = resend(texts(matches, "resend", ("1024", "100000")))?;
    let live = live(text(matches, "live", "10000"))?;
    let store = given(alloc, matches, "store")?;
    Ok(Serving {
        port,
        base,
        turns,
        listen,
        resend,
        live,
        store,
    })
}

/// What `serve` asks for with these words after it.
fn serve_words(alloc: Global, words: &[String]) -> Result<Command, WordsError>
    ensures ok { IfOk result (IsTheOne (AsksAfter (codes "serve") (texts words.now))) }
    ensures no_command { result ≡ Err WordsError.NoCommand → AsksNothingAfter (codes "serve") (texts words.now) }
{
    let matches = matches_in(serve_command(alloc)?, words)?;
    Ok(Command::Serve(serving(alloc, &matches)?))
}

/// The command `client URL` with its options.
#[tactic(auto, unfolding(crate::specs::Words::client_app))]
pub(crate) fn client_command<'a>(alloc: Global) -> Result<clap::Command<'a>, AllocError>
    ensures { IfOk result (λ command. app_of command ≡ client_app) }
{
    let command = bare(alloc, "client").arg(required(alloc, "url"))?;
    with_options(alloc, command, CLIENT_OPTIONS)
}

/// The text of the option of this name, if it is given.
fn given(alloc: Global, matches: &ArgMatches, name: &str) -> Result<Option<Text>, AllocError>
    ensures { IfOk result (λ text. text ≡ first_of name.now (rows_of (found_of matches.now))) }
{
    match matches.get_str(name) {
        Some(text) => Ok(Some(Text::of(alloc, text)?)),
        None => Ok(None),
    }
}

/// Where the hub stands by the URL and the token that clap found.
fn address_of(alloc: Global, matches: &ArgMatches) -> Result<Address, WordsError>
    ensures said { IfOk result (SaysAddress (rows_of (found_of matches.now))) }
    ensures token { IfOk result (λ address. address.token ≡ first_of (codes "token") (rows_of (found_of matches.now))) }
    ensures none { result ≡ Err WordsError.NoCommand
        → (address : Address) → SaysAddress (rows_of (found_of matches.now)) address → ⊥ }
{
    let Some(url) = matches.get_str("url") else {
        return Err(WordsError::NoCommand);
    };
    let token = given(alloc, matches, "token")?;
    hub(alloc, url, token)
}

/// What the URL and the options that clap found ask of a client.
#[tactic(auto, unfolding(crate::specs::Words::SaysDialing))]
fn dialing(alloc: Global, matches: &ArgMatches) -> Result<Dialing, WordsError>
    ensures said { IfOk result (SaysDialing (rows_of (found_of matches.now))) }
    ensures none { result ≡ Err WordsError.NoCommand
        → (dialing : Dialing) → SaysDialing (rows_of (found_of matches.now)) dialing → ⊥ }
{
    let address = address_of(alloc, matches)?;
    let codec = codec(text(matches, "codec", "json"))?;
    let turns = number(text(matches, "turns", "18446744073709551615"))?;
    let resend = resend(texts(matches, "resend", ("1024", "100000")))?;
    Ok(Dialing {
        address,
        codec,
        turns,
        resend,
    })
}

/// What `client` asks for with these words after it.
fn client_words(alloc: Global, words: &[String]) -> Result<Command, WordsError>
    ensures ok { IfOk result (IsTheOne (AsksAfter (codes "client") (texts words.now))) }
    ensures no_command { result ≡ Err WordsError.NoCommand → AsksNothingAfter (codes "client") (texts words.now) }
{
    addresses_are_one();
    let matches = matches_in(client_command(alloc)?, words)?;
    Ok(Command::Client(dialing(alloc, &matches)?))
}

/// The command `user TOKEN NAME --store FILE`.
fn user_command<'a>(alloc: Global) -> Result<clap::Command<'a>, AllocError>
    ensures { IfOk result (λ command. app_of command ≡ user_app) }
{
    let command = bare(alloc, "user").arg(required(alloc, "token"))?;
    let command = command.arg(required(alloc, "name"))?;
    command.arg(required_option(alloc, "store"))
}

/// The text of the argument or option of this name, which must be given.
fn required_text(alloc: Global, matches: &ArgMatches, name: &str) -> Result<Text, WordsError>
    ensures said { IfOk result (λ text. first_of name.now (rows_of (found_of matches.now)) ≡ Some text) }
    ensures none { result ≡ Err WordsError.NoCommand
        → (text : List ℕ) → first_of name.now (rows_of (found_of matches.now)) ≡ Some text → ⊥ }
{
    match given(alloc, matches, name)? {
        Some(text) => Ok(text),
        None => Err(WordsError::NoCommand),
    }
}

/// Which user is to be added to which store, by the arguments and the option that clap found.
fn adding(alloc: Global, matches: &ArgMatches) -> Result<Adding, WordsError>
    ensures said { IfOk result (SaysAdding (rows_of (found_of matches.now))) }
    ensures none { result ≡ Err WordsError.NoCommand
        → (adding : Adding) → SaysAdding (rows_of (found_of matches.now)) adding → ⊥ }
{
    let token = required_text(alloc, matches, "token")?;
    let name = required_text(alloc, matches, "name")?;
    let store = required_text(alloc, matches, "store")?;
    Ok(Adding { token, name, store })
}

/// What `user` asks for with these words after it.
fn user_words(alloc: Global, words: &[String]) -> Result<Command, WordsError>
    ensures ok { IfOk result (IsTheOne (AsksAfter (codes "user") (texts words.now))) }
    ensures no_command { result ≡ Err WordsError.NoCommand → AsksNothingAfter (codes "user") (texts words.now) }
{
    let matches = matches_in(user_command(alloc)?, words)?;
    Ok(Command::User(adding(alloc, &matches)?))
}

/// The command that the words of a command line ask for, without the program's name among them.
///
/// # Errors
///
/// `NoCommand` if they ask for none: the first is no command's name, the words after it are none that the command
/// takes, a number is none or too great, an address or a URL is none, or they ask to convert from a codec to itself.
/// `NoMemory` if memory ran out, which says nothing of the words.
pub fn parse(alloc: Global, words: &[String]) -> Result<Command, WordsError>
    ensures ok { IfOk result (IsTheOne (Asks words.now)) }
    ensures no_command { result ≡ Err WordsError.NoCommand → IsNoCommand words.now }
{
    let [name, rest @ ..] = words else {
        return Err(WordsError::NoCommand);
    };
    match name.as_str() {
        "replay" => replay_words(alloc, rest),
        "record" => record_words(alloc, rest),
        "audit" => audit_words(alloc, rest),
        "soak" => soak_words(alloc, rest),
        "check" => check_words(alloc, rest),
        "convert" => convert_words(alloc, rest),
        "serve" => serve_words(alloc, rest),
        "client" => client_words(alloc, rest),
        "user" => user_words(alloc, rest),
        _ => Err(WordsError::NoCommand),
    }
}

/// The settings of a command that needs nothing outside but input and output.
fn no_settings() -> Settings
    ensures { result ≡ no_settings }
{
    Settings {
        port: None,
        base: None,
        listen: None,
        live: None,
        store: None,
        address: None,
    }
}

/// What has to be known before this command can run.
fn settings_of(command: Command) -> Settings
    ensures { result ≡ settings_of command }
{
    match command {
        Command::Serve(serving) => Settings {
            port: Some(serving.port),
            base: Some(serving.base),
            listen: Some(serving.listen),
            live: Some(serving.live),
            store: serving.store,
            address: None,
        },
        Command::Client(dialing) => Settings {
            address: Some(dialing.address),
            ..no_settings()
        },
        Command::User(adding) => Settings {
            store: Some(adding.store),
            ..no_settings()
        },
        _ => no_settings(),
    }
}

/// What has to be known of the command that the words ask for before the objects are made that it runs over.
///
/// # Errors
///
/// As [`parse`]: `NoCommand` if the words ask for no command, `NoMemory` if memory ran out, which says nothing of the words.
pub fn settings(alloc: Global, words: &[String]) -> Result<Settings, WordsError>
    ensures ok { IfOk result (AreSettings words.now) }
    ensures no_command { result ≡ Err WordsError.NoCommand → IsNoCommand words.now }
{
    let command = parse(alloc, words)?;
    Ok(settings_of(command))
}
