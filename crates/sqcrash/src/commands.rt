//! The options, as clap reads them.
ghost use Rattle.std.specs.Prelude.{◌≡◌, ◌↔◌, true, false, IsTrue, ℕ, None, Some, Err, codes, map};
ghost use Rattle.std.specs.Prelude.{IfOk, IfSome, MatchOption};
ghost use Rattle.crashdisk.specs.Solid.{is_sector_size};
ghost use Rattle.clap.specs.Words.{app_of, found_of, first_of, is_simple_and_free, kind_of, rows_of, rule_of};
ghost use Rattle.clap.specs.Words.{with_rule};
ghost use Rattle.clap.specs.declared.builder.value_parser.ValueParser.TheVariants as ValueParser;
ghost use Rattle.clap.specs.declared.error.kind.ErrorKind.TheVariants.{DisplayHelp};
ghost use Rattle.sqcrash.specs.Words.{AsksHelp, AsksVersion, HasVersion, IsPart, IsVersion, MayAskHelp};
ghost use Rattle.sqcrash.specs.Words.{with_chosen, with_disk, with_draws, with_points, with_told, with_trace, with_why};
ghost use Rattle.sqcrash.specs.Words.{line, number, option, flag, text, word, version_flag};
ghost use Rattle.sqcrash.specs.Words.{AsksOf, GivesNumber, GivesPart, IsLine, IsNoPart, IsNumber, NamesPart, NumberOr};
ghost use Rattle.sqcrash.specs.Words.{IsFault, IsOfPart, IsPlan, IsRequest, IsVersionFound};
ghost use Rattle.sqcrash.specs.Words.{gives, has, commits_by, meta_by, promise_by, sector_by, style_by};
ghost use Rattle.sqcrash.specs.Ends.{IsReadAs};
ghost use Rattle.sqcrash.specs.declared.plan.Part.{Part};
ghost use Rattle.sqcrash.specs.declared.requests.LineError.TheVariants.{Version};

use crate::plan::{CommitsAt, Part, Plan, Style};
use crate::promise::Promise;
use crate::requests::{LineError, Request};
use clap::builder::ValueParser;
use clap::error::ErrorKind;
use clap::{Arg, ArgAction, ArgMatches, Command};
use rig_play::Meta;
use std::alloc::{AllocError, Global};

/// One of these names.
fn one_of(names: &'static [&'static str]) -> ValueParser<'static>
    ensures { result ≡ ValueParser.Names names.entry }
{
    ValueParser::from(names)
}

/// An option with a value.
fn option<'a>(
    alloc: Global,
    name: &'static str,
    value: &'static str,
    help: &'static str,
    parser: ValueParser<'static>,
) -> Arg<'a>
    ensures rule { rule_of result ≡ option name.now parser.entry }
    ensures global { result.global ≡ false }
{
    Arg::new(alloc, name)
        .long(name)
        .value_name(value)
        .action(ArgAction::Set)
        .help(help)
        .value_parser(parser)
}

/// An option with any text.
fn text<'a>(alloc: Global, name: &'static str, value: &'static str, help: &'static str) -> Arg<'a>
    ensures rule { rule_of result ≡ text name.now }
    ensures global { result.global ≡ false }
{
    Arg::new(alloc, name)
        .long(name)
        .value_name(value)
        .action(ArgAction::Set)
        .help(help)
}

/// An option whose value is a number.
fn number_option<'a>(
    alloc: Global,
    name: &'static str,
    value: &'static str,
    help: &'static str,
) -> Arg<'a>
    ensures rule { rule_of result ≡ number name.now }
    ensures global { result.global ≡ false }
{
    option(alloc, name, value, help, ValueParser::unsigned(0, u64::MAX))
}

/// An option without one.
fn flag<'a>(alloc: Global, name: &'static str, help: &'static str) -> Arg<'a>
    ensures rule { rule_of result ≡ flag name.now }
    ensures global { result.global ≡ false }
{
    Arg::new(alloc, name)
        .long(name)
        .action(ArgAction::SetTrue)
        .help(help)
}

/// The option without one that asks for the version.
fn version_flag<'a>(alloc: Global) -> Arg<'a>
    ensures rule { rule_of result ≡ version_flag }
    ensures global { result.global ≡ false }
{
    Arg::new(alloc, "version")
        .long("version")
        .short('V')
        .action(ArgAction::SetTrue)
        .help("Print the version")
}

/// A word that has to be there.
fn word<'a>(alloc: Global, name: &'static str, help: &'static str) -> Arg<'a>
    ensures rule { rule_of result ≡ word name.now }
    ensures global { result.global ≡ false }
{
    Arg::new(alloc, name)
        .required(true)
        .action(ArgAction::Set)
        .help(help)
}

/// A command with one more argument.
fn with<'a>(command: Command<'a>, arg: Arg<'a>) -> Result<Command<'a>, AllocError>
    requires { arg.global ≡ false }
    ensures { IfOk result (λ c. app_of c ≡ with_rule (app_of command.entry) (rule_of arg.entry)) }
{
    command.arg(arg)
}

/// The trace, and the version.
fn with_trace<'a>(alloc: Global, command: Command<'a>) -> Result<Command<'a>, AllocError>
    ensures { IfOk result (λ c. app_of c ≡ with_trace (app_of command.entry)) }
{
    let trace = word(
        alloc,
        "TRACE",
        "The recording of a run, as rig/record wrote it",
    );
    let command = with(command, trace)?;
    with(command, version_flag(alloc))
}

/// What a disk does.
fn with_disk<'a>(
    alloc: Global,
    command: Command<'a>,
    sectors: ValueParser<'static>,
    metas: ValueParser<'static>,
) -> Result<Command<'a>, AllocError>
    ensures { IfOk result (λ c. app_of c ≡ with_disk sectors.entry metas.entry (app_of command.entry)) }
{
    let sector = option(
        alloc,
        "sector",
        "BYTES",
        "Sector size of the disk; default: 512",
        sectors,
    );
    let tears = flag(
        alloc,
        "tears",
        "A crash may leave anything in a sector that was being written",
    );
    let meta = option(
        alloc,
        "meta",
        "HOW",
        "Metadata durability; default whole",
        metas,
    );
    let command = with(command, sector)?;
    let command = with(command, tears)?;
    with(command, meta)
}

/// How many images are drawn.
fn with_draws<'a>(alloc: Global, command: Command<'a>) -> Result<Command<'a>, AllocError>
    ensures { IfOk result (λ c. app_of c ≡ with_draws (app_of command.entry)) }
{
    let images = option(
        alloc,
        "images",
        "N",
        "Judge at most N images per point, and torn ones; default: 1000",
        ValueParser::unsigned(1, u64::MAX),
    );
    let seed = number_option(
        alloc,
        "seed",
        "S",
        "Number that starts the random draws; default: 1",
    );
    let command = with(command, images)?;
    with(command, seed)
}

/// Where images are judged, and by what.
fn with_points<'a>(
    alloc: Global,
    command: Command<'a>,
    promises: ValueParser<'static>,
    commits: ValueParser<'static>,
) -> Result<Command<'a>, AllocError>
    ensures { IfOk result (λ c. app_of c ≡ with_points promises.entry commits.entry (app_of command.entry)) }
{
    let every = flag(
        alloc,
        "every",
        "A crash may come after each call, not only at marks",
    );
    let promise = option(
        alloc,
        "promise",
        "WHAT",
        "Promise of marks; default full",
        promises,
    );
    let commits = option(
        alloc,
        "commits",
        "WHERE",
        "When files show commits; default: calls",
        commits,
    );
    let command = with(command, every)?;
    let command = with(command, promise)?;
    with(command, commits)
}

/// What is told of images.
fn with_why<'a>(alloc: Global, command: Command<'a>) -> Result<Command<'a>, AllocError>
    ensures { IfOk result (λ c. app_of c ≡ with_why (app_of command.entry)) }
{
    let why = flag(
        alloc,
        "why",
        "Print for each listed image when the crash came, and what isn't on disk",
    );
    let shrink = flag(
        alloc,
        "shrink",
        "Minimise each failing image before reporting it",
    );
    let command = with(command, why)?;
    with(command, shrink)
}

/// Which points are judged, and of which images lines are written.
fn with_chosen<'a>(alloc: Global, command: Command<'a>) -> Result<Command<'a>, AllocError>
    ensures { IfOk result (λ c. app_of c ≡ with_chosen (app_of command.entry)) }
{
    let part = text(
        alloc,
        "part",
        "K/N",
        "Judge only the K-th of every N points; draws depend on the point",
    );
    let lines = number_option(
        alloc,
        "lines",
        "N",
        "List at most N images, and then print how many more there are",
    );
    let point = number_option(
        alloc,
        "point",
        "P",
        "List only images of point P, counted from 1",
    );
    let image = number_option(
        alloc,
        "image",
        "I",
        "List only image I of a point, counted from 0",
    );
    let command = with(command, part)?;
    let command = with(command, lines)?;
    let command = with(command, point)?;
    with(command, image)
}

/// How it is told, and what is kept.
fn with_told<'a>(alloc: Global, command: Command<'a>) -> Result<Command<'a>, AllocError>
    ensures { IfOk result (λ c. app_of c ≡ with_told (app_of command.entry)) }
{
    let json = flag(
        alloc,
        "json",
        "Print each line as a JSON object, and a refusal too",
    );
    let time = flag(
        alloc,
        "time",
        "Print the time and the number of images on standard error",
    );
    let keep = text(
        alloc,
        "keep",
        "DIR",
        "Save the first 1000 failing images as DIR/pPOINT-iIMAGE.db, -wal, -journal",
    );
    let command = with(command, json)?;
    let command = with(command, time)?;
    with(command, keep)
}

/// Which images are drawn, where they are judged, and what is told of them.
fn with_judging<'a>(
    alloc: Global,
    command: Command<'a>,
    promises: ValueParser<'static>,
    commits: ValueParser<'static>,
) -> Result<Command<'a>, AllocError>
    ensures { IfOk result (λ c. app_of c
        ≡ with_why (with_points promises.entry commits.entry (with_draws (app_of command.entry)))) }
{
    let command = with_draws(alloc, command)?;
    let command = with_points(alloc, command, promises, commits)?;
    with_why(alloc, command)
}

/// The program's command line, with these values of its options.
fn command_with<'a>(
    alloc: Global,
    sectors: ValueParser<'static>,
    metas: ValueParser<'static>,
    promises: ValueParser<'static>,
    commits: ValueParser<'static>,
) -> Result<Command<'a>, AllocError>
    ensures { IfOk result (λ c. app_of c ≡ line sectors.entry metas.entry promises.entry commits.entry) }
{
    let command = Command::new(alloc, "sqcrash").about(
        "Judge what a crash could leave of a recorded run of SQLite",
    );
    let command = with_trace(alloc, command)?;
    let command = with_disk(alloc, command, sectors, metas)?;
    let command = with_judging(alloc, command, promises, commits)?;
    let command = with_chosen(alloc, command)?;
    with_told(alloc, command)
}

/// The program's command line.
fn command<'a>(alloc: Global) -> Result<Command<'a>, AllocError>
    ensures { IfOk result (λ c. IsLine (app_of c)) }
{
    let sectors = one_of(&["512", "4096"]);
    let metas = one_of(&["parts", "whole", "ordered"]);
    let promises = one_of(&["full", "last", "ordered", "none"]);
    let commits = one_of(&["marks", "calls"]);
    command_with(alloc, sectors, metas, promises, commits)
}

/// The value of a word or an option, where it is there.
fn value<'a>(matches: &ArgMatches<'a>, name: &str) -> Option<&'a str>
    ensures { MatchOption result (first_of name.now (rows_of (found_of matches.now)) ≡ None)
        (λ text. first_of name.now (rows_of (found_of matches.now)) ≡ Some text.now) }
{
    matches.get_str(name)
}

/// Whether an option has this value.
fn gives(matches: &ArgMatches<'_>, name: &str, text: &str) -> bool
    ensures { result ≡ gives name.now text.now (rows_of (found_of matches.now)) }
{
    match value(matches, name) {
        Some(given) => given == text,
        None => false,
    }
}

/// Whether an option without a value is there.
fn has(matches: &ArgMatches<'_>, name: &str) -> bool
    ensures { result ≡ has name.now (rows_of (found_of matches.now)) }
{
    gives(matches, name, "true")
}

/// The number that a text is, where it is one.
fn number_of(text: &str) -> Option<u64>
    ensures { MatchOption result ((n : ℕ) → ¬ IsNumber text.now n) (IsNumber text.now) }
{
    text.parse::<u64>().ok()
}

/// The number of an option, where it is there.
fn number(matches: &ArgMatches<'_>, name: &str) -> Option<u64>
    ensures { GivesNumber (first_of name.now (rows_of (found_of matches.now))) result }
{
    match value(matches, name) {
        Some(text) => number_of(text),
        None => None,
    }
}

/// The same, or this one where it isn't.
fn number_or(matches: &ArgMatches<'_>, name: &str, or: u64) -> u64
    ensures { NumberOr or (first_of name.now (rows_of (found_of matches.now))) result }
{
    match number(matches, name) {
        Some(number) => number,
        None => or,
    }
}

/// The size of a disk's sectors.
fn sector_of(matches: &ArgMatches<'_>) -> usize
    ensures by { result ≡ sector_by (rows_of (found_of matches.now)) }
    ensures size { IsTrue (is_sector_size result) }
{
    if gives(matches, "sector", "4096") {
        return 4096;
    }
    512
}

/// How names and lengths become durable.
fn meta_of(matches: &ArgMatches<'_>) -> Meta
    ensures { result ≡ meta_by (rows_of (found_of matches.now)) }
{
    if gives(matches, "meta", "parts") {
        return Meta::Parts;
    }
    if gives(matches, "meta", "ordered") {
        return Meta::Ordered;
    }
    Meta::Whole
}

/// What is known at marks.
fn promise_of(matches: &ArgMatches<'_>) -> Promise
    ensures { result ≡ promise_by (rows_of (found_of matches.now)) }
{
    if gives(matches, "promise", "last") {
        return Promise::Last;
    }
    if gives(matches, "promise", "ordered") {
        return Promise::Ordered;
    }
    if gives(matches, "promise", "none") {
        return Promise::Nothing;
    }
    Promise::Full
}

/// Which databases are to be commits.
fn commits_at(matches: &ArgMatches<'_>) -> CommitsAt
    ensures { result ≡ commits_by (rows_of (found_of matches.now)) }
{
    if gives(matches, "commits", "marks") {
        return CommitsAt::Marks;
    }
    CommitsAt::Calls
}

/// How what is found is to be printed.
fn style_of(matches: &ArgMatches<'_>) -> Style
    ensures { result ≡ style_by (rows_of (found_of matches.now)) }
{
    if has(matches, "json") {
        return Style::Json;
    }
    Style::Lines
}

/// What is said of a text that names no part.
const NO_PART: &str = "--part is K/N: 1 <= K <= N <= 4294967296";

/// The most parts.
const MOST_PARTS: u64 = 4_294_967_296;

/// The part of this number, if there is one.
fn part_with(number: u64, of: u64) -> Option<Part>
    ensures { MatchOption result (¬ IsPart number of) (λ p. IsPart number of × (p.number ≡ number) × (p.of ≡ of)) }
{
    if number == 0 || number > of || of > MOST_PARTS {
        return None;
    }
    Some(Part { number, of })
}

/// The part that a text names, if it names one: its number, a slash, and how many there are.
fn part_of(text: &str) -> Option<Part>
    ensures { MatchOption result ((p : Part) → ¬ NamesPart text.now p) (NamesPart text.now) }
{
    let (number, of) = text.split_once('/')?;
    part_with(number_of(number)?, number_of(of)?)
}

/// The fault of a text that names no part.
fn no_part(command: &mut Command<'_>) -> LineError
    ensures { IsOfPart result }
{
    match command.error(ErrorKind::InvalidValue, NO_PART) {
        Ok(error) => LineError::NotUnderstood(error),
        Err(_) => LineError::NoMemory,
    }
}

/// The part that is asked for, if one is; none of both where the text names none.
fn asked_part(matches: &ArgMatches<'_>) -> Option<Option<Part>>
    ensures { MatchOption result (IsNoPart (first_of (codes "part") (rows_of (found_of matches.now))))
        (GivesPart (first_of (codes "part") (rows_of (found_of matches.now)))) }
{
    match value(matches, "part") {
        None => Some(None),
        Some(text) => match part_of(text) {
            Some(part) => Some(Some(part)),
            None => None,
        },
    }
}

/// How a trace is to be judged, where this part is asked for.
fn plan_of(matches: &ArgMatches<'_>, part: Option<Part>) -> Plan
    requires { GivesPart (first_of (codes "part") (rows_of (found_of matches.now))) part }
    ensures { IsPlan (rows_of (found_of matches.now)) result }
{
    Plan {
        sector: sector_of(matches),
        tears: has(matches, "tears"),
        meta: meta_of(matches),
        images: number_or(matches, "images", 1000),
        seed: number_or(matches, "seed", 1),
        every: has(matches, "every"),
        promise: promise_of(matches),
        commits: commits_at(matches),
        why: has(matches, "why"),
        shrink: has(matches, "shrink"),
        part,
        lines: number(matches, "lines"),
        point: number(matches, "point"),
        image: number(matches, "image"),
        style: style_of(matches),
    }
}

/// What the words ask for, with this part.
fn matched<'a>(matches: &ArgMatches<'a>, part: Option<Part>) -> Option<Request<'a>>
    requires { GivesPart (first_of (codes "part") (rows_of (found_of matches.now))) part }
    ensures { IfSome result (IsRequest (rows_of (found_of matches.now))) }
{
    Some(Request {
        trace: value(matches, "TRACE")?,
        plan: plan_of(matches, part),
        keep: value(matches, "keep"),
        time: has(matches, "time"),
    })
}

/// Whether help may be asked for by a word.
fn is_of_help(word: &str) -> bool
    ensures { IsTrue result ↔ MayAskHelp word.now }
{
    if word == "help" {
        return true;
    }
    match word.as_bytes().split_first() {
        Some((first, rest)) => *first == b'-' && rest.contains(&b'h'),
        None => false,
    }
}

/// Whether it may be by one of these.
fn asks_help(words: &[&str]) -> bool
    ensures { IsTrue result ↔ AsksHelp (map (λ w. w.now) words.entry.now) }
{
    for word in words {
        if is_of_help(word) {
            return true;
        }
    }
    false
}

/// What is said where clap answered with help.
fn of_help(words: &[&str], error: clap::Error) -> LineError
    requires { kind_of error ≡ DisplayHelp }
    ensures { IsFault (map (λ w. w.now) words.entry.now) error result }
{
    if asks_help(words) {
        return LineError::Help(error);
    }
    LineError::NotUnderstood(error)
}

/// Why words ask for nothing by which clap was refused.
fn refused(words: &[&str], error: clap::Error) -> LineError
    ensures { IsFault (map (λ w. w.now) words.entry.now) error result }
{
    match error.kind() {
        ErrorKind::DisplayHelp => of_help(words, error),
        ErrorKind::OutOfMemory => LineError::NoMemory,
        _ => LineError::NotUnderstood(error),
    }
}

/// Whether a word asks for the version.
fn is_version(word: &str) -> bool
    ensures { IsTrue result ↔ IsVersion word.now }
{
    word == "--version" || word == "-V"
}

/// Whether one of these does.
fn has_version(words: &[&str]) -> bool
    ensures { IsTrue result ↔ HasVersion (map (λ w. w.now) words.entry.now) }
{
    for word in words {
        if is_version(word) {
            return true;
        }
    }
    false
}

/// Whether clap found that the version is asked for, and a word asks for it.
fn is_version_found(matches: &ArgMatches<'_>, words: &[&str]) -> bool
    ensures { IsTrue result ↔ IsVersionFound (map (λ w. w.now) words.entry.now) (rows_of (found_of matches.now)) }
{
    has(matches, "version") && has_version(words)
}

/// Reads a line by this command.
fn read<'a>(command: &mut Command<'a>, words: &'a [&'a str]) -> Result<Request<'a>, LineError>
    requires { is_simple_and_free (app_of command.now) ≡ true }
    ensures { AsksOf (app_of command.old) (map (λ w. w.now) words.entry.now) result }
{
    match command.try_get_matches_from_mut(words) {
        Ok(matches) => {
            if is_version_found(&matches, words) {
                return Err(LineError::Version);
            }
            match asked_part(&matches) {
                Some(part) => match matched(&matches, part) {
                    Some(request) => Ok(request),
                    None => Err(LineError::NoMemory),
                },
                None => Err(no_part(command)),
            }
        }
        Err(error) => Err(refused(words, error)),
    }
}

/// Whether the first word behind the program's name asks for the version.
pub fn asks_version(words: &[&str]) -> bool
    ensures { IsTrue result ↔ AsksVersion (map (λ w. w.now) words.entry.now) }
{
    words.len() > 1 && is_version(words[1])
}

/// Reads a line, whose first word is the program's name. NotUnderstood for words that clap doesn't take, and for a part
/// that is none; Help and Version where a word asks for that text; NoMemory.
pub fn request<'a>(alloc: Global, words: &'a [&'a str]) -> Result<Request<'a>, LineError>
    ensures read { IsReadAs (map (λ w. w.now) words.entry.now) result }
    ensures version { AsksVersion (map (λ w. w.now) words.entry.now) → result ≡ Err Version }
{
    if asks_version(words) {
        return Err(LineError::Version);
    }
    match command(alloc) {
        Ok(mut command) => read(&mut command, words),
        Err(_) => Err(LineError::NoMemory),
    }
}
