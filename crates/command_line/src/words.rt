//! Parses the words of a command line: a subcommand, its options and its files.

ghost use Rattle.std.specs.Prelude.{◌≡◌, ◌≤◌, ◌-◌, ◌^◌, false, IfOk, IfErr, IfSome, IsErrAnd, IsSome, Some, map, codes, option_map};
ghost use Rattle.clap.specs.Words.{fault_of, first_of, found_of, kind_of, rows_of, rule_of};
ghost use Rattle.clap.specs.Simple.{App, new_app, with_rule, with_subcommand};
ghost use Rattle.clap.specs.Walk.{Rule};
ghost use Rattle.command_line.specs.Columns.{IsColumnOf};
ghost use Rattle.command_line.specs.CommandLine.{HasOptions, HasPlaceOptions, HasScript, HaveBadList, IsBadListReport, IsJobOf, IsNumber, IsNumberIfGiven, IsRefusal, HasCheckOptions, code_argument, count_app, draw_app, explain_app, flag, keycount_app, keycount_top, number_option, path, place_app, replay_app, run_app, text_option, trace_app, with_options, with_script, with_top, check_app, value_argument, with_numbers};
ghost use Rattle.command_line.specs.Delimiters.{IsDelimiterOf};
ghost use Rattle.command_line.specs.Topics.{AreTopicsOf};
ghost use Rattle.command_line.specs.Private.CommandLine.{IsCommand, IsJobOfRows, IsOptionalNumber, IsReadAs, AreCountRows, AreExplainRows, AreOptionRows, ArePlaceRows, AreScriptRows, IsBadReport, IsUsageOf, ReportsBadColumn, ReportsBadDelimiter, ReportsBadList, ReportsBadOption, AreCheckRows, AreRowsOf};

use crate::columns::{is_numeral, parse_column};
use crate::delimiters::parse_delimiter;
use crate::help::{
    AFTER_CHECK, AFTER_COUNT, AFTER_DRAW, AFTER_EXPLAIN, AFTER_KEYCOUNT, AFTER_PLACE, AFTER_REPLAY,
    AFTER_RUN, AFTER_TRACE,
};
use crate::options::{
    CheckOptions, Column, DEFAULT_BATCH, DEFAULT_DELIMITER, DEFAULT_MOST, LAST_CODE, LAST_COLUMN,
    MOST_BATCH, MOST_ROWS, Options, PlaceOptions,
};
use crate::topics;
use clap::builder::ValueParser;
use clap::error::ErrorKind;
use clap::{Arg, ArgAction, ArgMatches, Command, Error};
use lane_words::MOST_PARTITIONS;
use partitioner::Topic;
use std::alloc::{AllocError, Global};

/// What the program is asked to do.
#[derive(Drop)]
pub enum Job<'a> {
    /// Counts the keys of a file.
    Count {
        file: &'a str,
        options: Options,
    },
    /// Tells where the records of a file go.
    Place {
        file: &'a str,
        options: Options,
        place: PlaceOptions,
    },
    /// Checks a file, and a script or a plan if there is one.
    Check {
        file: &'a str,
        script: Option<&'a str>,
        options: Options,
        check: CheckOptions,
    },
    /// Replays a script over the keys of a file.
    Replay {
        file: &'a str,
        script: &'a str,
        options: Options,
    },
    /// Traces a script over the keys of a file, event by event.
    Trace {
        file: &'a str,
        script: &'a str,
        options: Options,
    },
    /// Draws what a script does over the keys of a file, as a picture.
    Draw {
        file: &'a str,
        script: &'a str,
        options: Options,
    },
    /// Runs a plan over the keys of a file, one thread per member.
    Run {
        file: &'a str,
        script: &'a str,
        options: Options,
    },
    /// Explains the refusal of a number from 1 to `LAST_CODE`, if there is one, or lists all.
    Explain {
        code: Option<u32>,
    },
}

/// Why there is no job.
#[derive(Debug, Drop)]
pub enum Usage {
    /// The words ask for help or for the version: the text is for standard output.
    Help(String),
    /// The words are not valid: the text is for standard error.
    Bad(String),
    /// Out of memory.
    Memory,
}

/// The version, and the line that `rt version` prints for the kit that proved it.
const VERSION: &str = "0.1.0, proved with rattle-kit-13f logic dac8208d650f15bf";

const PARTITIONS_HELP: &str = "Number of partitions, 1 to 4096 [default: 4]";

const COLUMN_HELP: &str = "Column of the key: 1 to 65535, or with --header its name [default: 1]";

const HEADER_HELP: &str = "Skip the first record, which is a header";

const KEYS_HELP: &str = "Print a row for each key";

const TOPICS_HELP: &str =
    "1 to 8 topics as NAME:N,NAME:N with N partitions each, at most 4096 in all";

const TOPIC_COLUMN_HELP: &str = "Column of the topic, likewise; used with --topics [default: 2]";

const DELIMITER_HELP: &str = "Delimiter of the fields in FILE: a character, or tab [default: ,]";

const TOP_HELP: &str = "Count rows of only the N keys with the most records, most first";

const BAD_TOPICS: &str = "bad topics\n";

const GIVEN_HELP: &str = "Compare with the partitions in column N, 1 to 65535; not with --keys";

const SCRIPT_HELP: &str = "Script to check too; - is standard input";

const CODE_HELP: &str = "Number of a refusal or fault; without it, all are listed";

const PLAN_HELP: &str = "Read SCRIPT as a plan for run";

const MOST_HELP: &str = "Report at most N faults of each file, 1 to 4294967295 [default: 20]";

const BAD_VALUE: &str = "error: invalid value";

const BAD_DELIMITER: &str =
    "is not tab, or one ASCII character other than quote, line feed and carriage return";

/// What ends an error of clap.
const HINT: &str = "\n\nFor more information, try '--help'.\n";

const BATCH_HELP: &str = "Maximum number of records per poll, 1 to 1000000 [default: 500]";

/// An argument that takes a value, and may be left out.
fn value_argument<'a>(alloc: Global, name: &'a str, shown: &'a str, help: &'a str) -> Arg<'a>
    ensures rule { rule_of result ≡ value_argument name.now }
    ensures local { result.global ≡ false }
{
    Arg::new(alloc, name)
        .value_name(shown)
        .help(help)
        .action(ArgAction::Set)
}

/// The argument whose value is a number from 1 to `most`.
fn with_numbers<'a>(argument: Arg<'a>, most: u32) -> Arg<'a>
    ensures rule { rule_of result ≡ with_numbers (rule_of argument.entry) most }
    ensures local { result.global ≡ argument.entry.global }
{
    argument.value_parser(ValueParser::signed(1, i64::from(most)))
}

/// A required path.
fn path<'a>(alloc: Global, name: &'a str, shown: &'a str, help: &'a str) -> Arg<'a>
    ensures rule { rule_of result ≡ path name.now }
    ensures local { result.global ≡ false }
{
    value_argument(alloc, name, shown, help).required(true)
}

fn file_path<'a>(alloc: Global) -> Arg<'a>
    ensures rule { rule_of result ≡ path (codes "file") }
    ensures local { result.global ≡ false }
{
    path(
        alloc,
        "file",
        "FILE",
        "CSV file to read; - is standard input",
    )
}

/// An option that takes any text.
fn text_option<'a>(alloc: Global, name: &'a str, shown: &'a str, help: &'a str) -> Arg<'a>
    ensures rule { rule_of result ≡ text_option name.now }
    ensures local { result.global ≡ false }
{
    value_argument(alloc, name, shown, help).long(name)
}

/// An option that takes a number from 1 to `most`.
fn number_option<'a>(alloc: Global, name: &'a str, help: &'a str, most: u32) -> Arg<'a>
    ensures rule { rule_of result ≡ number_option name.now most }
    ensures local { result.global ≡ false }
{
    with_numbers(text_option(alloc, name, "N", help), most)
}

/// A flag.
fn flag<'a>(alloc: Global, name: &'a str, help: &'a str) -> Arg<'a>
    ensures rule { rule_of result ≡ flag name.now }
    ensures local { result.global ≡ false }
{
    Arg::new(alloc, name)
        .long(name)
        .help(help)
        .action(ArgAction::SetTrue)
}

/// Adds an argument to a command, if there is one: a `?` for each would cost the proofs much time.
fn with_arg<'a>(
    command: Result<Command<'a>, AllocError>,
    arg: Arg<'a>,
) -> Result<Command<'a>, AllocError>
    requires local { arg.global ≡ false }
    ensures { (app : App) (rule : Rule) → IfOk command.entry (IsCommand app)
        → rule_of arg.entry ≡ rule → IfOk result (IsCommand (with_rule app rule)) }
{
    match command {
        Ok(command) => add_arg(command, arg),
        Err(error) => Err(error),
    }
}

/// The same to a command that there is.
fn add_arg<'a>(command: Command<'a>, arg: Arg<'a>) -> Result<Command<'a>, AllocError>
    requires local { arg.global ≡ false }
    ensures { (app : App) (rule : Rule) → IsCommand app command.entry
        → rule_of arg.entry ≡ rule → IfOk result (IsCommand (with_rule app rule)) }
{
    command.arg(arg)
}

/// Adds a subcommand to a command, where there are both.
fn with_subcommand<'a>(
    command: Result<Command<'a>, AllocError>,
    added: Result<Command<'a>, AllocError>,
) -> Result<Command<'a>, AllocError>
    ensures { (app sub : App) → IfOk command.entry (IsReadAs app)
        → IfOk added.entry (IsCommand sub)
        → IfOk result (IsReadAs (with_subcommand app sub.top)) }
{
    match (command, added) {
        (Ok(command), Ok(added)) => add_subcommand(command, added),
        _ => Err(AllocError),
    }
}

/// The same to a command that there is.
fn add_subcommand<'a>(command: Command<'a>, added: Command<'a>) -> Result<Command<'a>, AllocError>
    ensures { (app sub : App) → IsReadAs app command.entry → IsCommand sub added.entry
        → IfOk result (IsReadAs (with_subcommand app sub.top)) }
{
    command.subcommand(added)
}

/// Adds the options that all subcommands have.
fn with_options<'a>(
    alloc: Global,
    command: Result<Command<'a>, AllocError>,
) -> Result<Command<'a>, AllocError>
    ensures { (app : App) → IfOk command.entry (IsCommand app)
        → IfOk result (IsCommand (with_options app)) }
{
    let partitions = number_option(alloc, "partitions", PARTITIONS_HELP, MOST_PARTITIONS);
    let command = with_arg(command, partitions);
    let command = with_arg(command, text_option(alloc, "column", "N", COLUMN_HELP));
    let command = with_arg(command, flag(alloc, "header", HEADER_HELP));
    let command = with_arg(command, text_option(alloc, "topics", "LIST", TOPICS_HELP));
    let topic_column = text_option(alloc, "topic-column", "N", TOPIC_COLUMN_HELP);
    let command = with_arg(command, topic_column);
    with_arg(
        command,
        text_option(alloc, "delimiter", "C", DELIMITER_HELP),
    )
}

/// Adds `--top`.
fn with_top<'a>(
    alloc: Global,
    command: Result<Command<'a>, AllocError>,
) -> Result<Command<'a>, AllocError>
    ensures { (app : App) → IfOk command.entry (IsCommand app)
        → IfOk result (IsCommand (with_top app)) }
{
    with_arg(command, number_option(alloc, "top", TOP_HELP, MOST_ROWS))
}

/// A command with its help.
fn new_command<'a>(alloc: Global, name: &'a str, about: &'a str, after: &'a str) -> Command<'a>
    ensures { IsCommand (new_app name.now) result }
{
    Command::new(alloc, name).about(about).after_help(after)
}

/// A command that reads a file.
fn file_command<'a>(
    alloc: Global,
    name: &'a str,
    about: &'a str,
    after: &'a str,
) -> Result<Command<'a>, AllocError>
    ensures { IfOk result (IsCommand (with_rule (new_app name.now) (path (codes "file")))) }
{
    let command = new_command(alloc, name, about, after);
    with_arg(Ok(command), file_path(alloc))
}

fn count_command<'a>(alloc: Global) -> Result<Command<'a>, AllocError>
    ensures { IfOk result (IsCommand count_app) }
{
    let about = "Count how often each key occurs in a CSV file";
    let command = file_command(alloc, "count", about, AFTER_COUNT);
    with_top(alloc, with_options(alloc, command))
}

fn place_command<'a>(alloc: Global) -> Result<Command<'a>, AllocError>
    ensures { IfOk result (IsCommand place_app) }
{
    let about = "Show where the records of a CSV file go, and how evenly";
    let command = file_command(alloc, "place", about, AFTER_PLACE);
    let command = with_options(alloc, command);
    let command = with_arg(command, flag(alloc, "keys", KEYS_HELP));
    with_arg(
        command,
        number_option(alloc, "given", GIVEN_HELP, LAST_COLUMN),
    )
}

fn check_command<'a>(alloc: Global) -> Result<Command<'a>, AllocError>
    ensures { IfOk result (IsCommand check_app) }
{
    let about = "Find what is wrong with a CSV file, and with a script, and where";
    let command = file_command(alloc, "check", about, AFTER_CHECK);
    let script = value_argument(alloc, "script", "SCRIPT", SCRIPT_HELP);
    let command = with_options(alloc, with_arg(command, script));
    let command = with_arg(command, flag(alloc, "plan", PLAN_HELP));
    with_arg(command, number_option(alloc, "most", MOST_HELP, MOST_ROWS))
}

/// Adds what jobs over a script have: a file, the script, the common options and `--batch`.
fn with_script<'a>(
    alloc: Global,
    command: Command<'a>,
    help: &'a str,
) -> Result<Command<'a>, AllocError>
    ensures { (app : App) → IsCommand app command.entry
        → IfOk result (IsCommand (with_script app)) }
{
    let command = with_arg(Ok(command), file_path(alloc));
    let command = with_arg(command, path(alloc, "script", "SCRIPT", help));
    let command = with_options(alloc, command);
    with_arg(
        command,
        number_option(alloc, "batch", BATCH_HELP, MOST_BATCH),
    )
}

fn replay_command<'a>(alloc: Global) -> Result<Command<'a>, AllocError>
    ensures { IfOk result (IsCommand replay_app) }
{
    let about = "Replay a script of group events over the keys of a CSV file";
    let command = new_command(alloc, "replay", about, AFTER_REPLAY);
    let command = with_script(alloc, command, "Script to replay; - is standard input");
    with_top(alloc, command)
}

fn trace_command<'a>(alloc: Global) -> Result<Command<'a>, AllocError>
    ensures { IfOk result (IsCommand trace_app) }
{
    let about = "Replay a script, and report each event with the group after it";
    let command = new_command(alloc, "trace", about, AFTER_TRACE);
    with_script(alloc, command, "Script to trace; - is standard input")
}

fn draw_command<'a>(alloc: Global) -> Result<Command<'a>, AllocError>
    ensures { IfOk result (IsCommand draw_app) }
{
    let about = "Replay a script, and draw who reads which partition, as SVG";
    let command = new_command(alloc, "draw", about, AFTER_DRAW);
    with_script(alloc, command, "Script to draw; - is standard input")
}

fn run_command<'a>(alloc: Global) -> Result<Command<'a>, AllocError>
    ensures { IfOk result (IsCommand run_app) }
{
    let about = "Count the keys with one thread per member, while members join and leave";
    let command = new_command(alloc, "run", about, AFTER_RUN);
    let command = with_script(
        alloc,
        command,
        "Plan of the joins and departures; - is standard input",
    );
    with_top(alloc, command)
}

/// A number from 1 to `LAST_CODE`, which may be left out.
fn code_argument<'a>(alloc: Global) -> Arg<'a>
    ensures rule { rule_of result ≡ code_argument }
    ensures local { result.global ≡ false }
{
    let code = value_argument(alloc, "code", "CODE", CODE_HELP);
    with_numbers(code, LAST_CODE)
}

fn explain_command<'a>(alloc: Global) -> Result<Command<'a>, AllocError>
    ensures { IfOk result (IsCommand explain_app) }
{
    let about = "Explain the code of a refusal or of a fault";
    let command = new_command(alloc, "explain", about, AFTER_EXPLAIN);
    with_arg(Ok(command), code_argument(alloc))
}

/// The program, without its subcommands.
fn top_command<'a>(alloc: Global) -> Result<Command<'a>, AllocError>
    ensures { IfOk result (IsReadAs keycount_top) }
{
    let about = "Count the keys of a CSV file in a cluster whose members join and leave";
    new_command(alloc, "keycount", about, AFTER_KEYCOUNT)
        .no_binary_name(true)
        .subcommand_required(true)
        .version(VERSION)
        .bin_name("keycount")
}

/// The program, with its subcommands.
fn keycount_command<'a>(alloc: Global) -> Result<Command<'a>, AllocError>
    ensures { IfOk result (IsReadAs keycount_app) }
{
    let command = with_subcommand(top_command(alloc), count_command(alloc));
    let command = with_subcommand(command, place_command(alloc));
    let command = with_subcommand(command, replay_command(alloc));
    let command = with_subcommand(command, trace_command(alloc));
    let command = with_subcommand(command, draw_command(alloc));
    let command = with_subcommand(command, run_command(alloc));
    let command = with_subcommand(command, check_command(alloc));
    with_subcommand(command, explain_command(alloc))
}

/// The value of an argument that clap has required.
fn text_of<'a>(given: &ArgMatches<'a>, id: &str) -> &'a str
    requires { IsSome (first_of id.now (rows_of (found_of given.now))) }
    ensures { first_of id.now (rows_of (found_of given.now)) ≡ Some result.now }
{
    let Some(text) = given.get_str(id) else {
        unreachable!();
    };
    text
}

/// The number of an option, which clap has checked, or its default.
fn number_of(given: &ArgMatches, id: &str, default: u32) -> u32
    requires { IsOptionalNumber (first_of id.now (rows_of (found_of given.now))) (2 ^ 32 - 1) }
    ensures { IsNumber (first_of id.now (rows_of (found_of given.now))) default result }
{
    let Some(text) = given.get_str(id) else {
        return default;
    };
    let Ok(number) = text.parse::<u32>() else {
        unreachable!();
    };
    number
}

fn bad_topics_usage(alloc: Global) -> Usage
    ensures { IsBadListReport result }
{
    match String::from_str(alloc, BAD_TOPICS) {
        Ok(line) => Usage::Bad(line),
        Err(_) => Usage::Memory,
    }
}

/// The topics of `--topics`; none without the option.
fn topics_of(alloc: Global, given: &ArgMatches) -> Result<Vec<Topic>, Usage>
    ensures topics { let list = first_of (codes "topics") (rows_of (found_of given.now)) in
        IfOk result (λ topics. AreTopicsOf list topics.items) }
    ensures fault { IfErr result (ReportsBadList (rows_of (found_of given.now))) }
{
    let Some(list) = given.get_str("topics") else {
        return Ok(Vec::new(alloc));
    };
    match topics::parse_topics(alloc, list) {
        Ok(Some(topics)) => Ok(topics),
        Ok(None) => Err(bad_topics_usage(alloc)),
        Err(_) => Err(Usage::Memory),
    }
}

/// The error for a value that an option does not take, as clap words it.
fn bad_value_usage(alloc: Global, option: &str, shown: &str, value: &str, why: &str) -> Usage
    ensures { IsBadReport result }
{
    match format!(in alloc;
        "{BAD_VALUE} '{value}' for '--{option} <{shown}>': {value} {why}{HINT}"
    ) {
        Ok(text) => Usage::Bad(text),
        Err(_) => Usage::Memory,
    }
}

/// Why a value of `--column` or `--topic-column` is no column.
fn why_no_column(value: &str) -> &'static str {
    if is_numeral(value) {
        "is not in 1..=65535"
    } else {
        "is a name, which needs --header"
    }
}

/// The column of an option, or its default.
fn column_of(
    alloc: Global,
    given: &ArgMatches,
    id: &str,
    header: bool,
    default: u32,
) -> Result<Column, Usage>
    ensures column { IfOk result
        (IsColumnOf header (first_of id.now (rows_of (found_of given.now))) default) }
    ensures fault { IfErr result
        (ReportsBadColumn header (first_of id.now (rows_of (found_of given.now)))) }
{
    let Some(text) = given.get_str(id) else {
        return Ok(Column::Number(default));
    };
    match parse_column(alloc, text, header) {
        Ok(Some(column)) => Ok(column),
        Ok(None) => Err(bad_value_usage(alloc, id, "N", text, why_no_column(text))),
        Err(_) => Err(Usage::Memory),
    }
}

/// The delimiter of `--delimiter`, or its default.
fn delimiter_of(alloc: Global, given: &ArgMatches) -> Result<u8, Usage>
    ensures delimiter { IfOk result
        (IsDelimiterOf (first_of (codes "delimiter") (rows_of (found_of given.now)))) }
    ensures fault { IfErr result
        (ReportsBadDelimiter (first_of (codes "delimiter") (rows_of (found_of given.now)))) }
{
    let Some(text) = given.get_str("delimiter") else {
        return Ok(DEFAULT_DELIMITER);
    };
    match parse_delimiter(text) {
        Some(delimiter) => Ok(delimiter),
        None => Err(bad_value_usage(alloc, "delimiter", "C", text, BAD_DELIMITER)),
    }
}

/// The number of `--top`, which clap has checked; `None` without the option.
fn top_of(given: &ArgMatches) -> Option<u32>
    requires { AreOptionRows (rows_of (found_of given.now)) }
    ensures value { IsNumberIfGiven (first_of (codes "top") (rows_of (found_of given.now))) result }
    ensures range { IfSome result (λ most. 1 ≤ most) }
{
    optional_number(given, "top")
}

/// The options of a job, from what clap found, with this batch and this top.
fn options_of(
    alloc: Global,
    given: &ArgMatches,
    batch: u32,
    top: Option<u32>,
) -> Result<Options, Usage>
    requires present { AreOptionRows (rows_of (found_of given.now)) }
    requires batch { (1 ≤ batch) × (batch ≤ MOST_BATCH) }
    requires top { IfSome top (λ most. 1 ≤ most) }
    ensures options { IfOk result (HasOptions (rows_of (found_of given.now))) }
    ensures batch { IfOk result (λ options. options.batch ≡ batch) }
    ensures top { IfOk result (λ options. options.top ≡ top) }
    ensures fault { IfErr result (ReportsBadOption (rows_of (found_of given.now))) }
{
    let topics = topics_of(alloc, given)?;
    let header = given.get_flag("header");
    let column = column_of(alloc, given, "column", header, 1)?;
    let topic_column = column_of(alloc, given, "topic-column", header, 2)?;
    let delimiter = delimiter_of(alloc, given)?;
    Ok(Options {
        partitions: number_of(given, "partitions", 4),
        column,
        header,
        delimiter,
        batch,
        topics,
        topic_column,
        top,
    })
}

fn count_job<'a>(alloc: Global, given: &ArgMatches<'a>) -> Result<Job<'a>, Usage>
    requires { AreCountRows (rows_of (found_of given.now)) }
    ensures job { IfOk result (IsJobOfRows (codes "count") (rows_of (found_of given.now))) }
    ensures fault { IfErr result (ReportsBadOption (rows_of (found_of given.now))) }
{
    let file = text_of(given, "file");
    let options = options_of(alloc, given, DEFAULT_BATCH, top_of(given))?;
    Ok(Job::Count { file, options })
}

fn place_job<'a>(alloc: Global, given: &ArgMatches<'a>) -> Result<Job<'a>, Usage>
    requires { ArePlaceRows (rows_of (found_of given.now)) }
    ensures job { IfOk result (IsJobOfRows (codes "place") (rows_of (found_of given.now))) }
    ensures fault { IfErr result (ReportsBadOption (rows_of (found_of given.now))) }
{
    let file = text_of(given, "file");
    let place = place_options_of(given);
    let options = options_of(alloc, given, DEFAULT_BATCH, None)?;
    Ok(Job::Place {
        file,
        options,
        place,
    })
}

/// The paths and options of a job with a script, from what clap found, with this top.
fn paths_and_options<'a>(
    alloc: Global,
    given: &ArgMatches<'a>,
    top: Option<u32>,
) -> Result<(&'a str, &'a str, Options), Usage>
    requires rows { AreScriptRows (rows_of (found_of given.now)) }
    requires top { IfSome top (λ most. 1 ≤ most) }
    ensures script { IfOk result
        (λ parts. HasScript (rows_of (found_of given.now)) parts.0.now parts.1.now parts.2) }
    ensures top { IfOk result (λ parts. parts.2.top ≡ top) }
    ensures fault { IfErr result (ReportsBadOption (rows_of (found_of given.now))) }
{
    let file = text_of(given, "file");
    let script = text_of(given, "script");
    let batch = number_of(given, "batch", DEFAULT_BATCH);
    let options = options_of(alloc, given, batch, top)?;
    Ok((file, script, options))
}

fn replay_job<'a>(alloc: Global, given: &ArgMatches<'a>) -> Result<Job<'a>, Usage>
    requires { AreScriptRows (rows_of (found_of given.now)) }
    ensures job { IfOk result (IsJobOfRows (codes "replay") (rows_of (found_of given.now))) }
    ensures fault { IfErr result (ReportsBadOption (rows_of (found_of given.now))) }
{
    let (file, script, options) = paths_and_options(alloc, given, top_of(given))?;
    Ok(Job::Replay {
        file,
        script,
        options,
    })
}

fn trace_job<'a>(alloc: Global, given: &ArgMatches<'a>) -> Result<Job<'a>, Usage>
    requires { AreScriptRows (rows_of (found_of given.now)) }
    ensures job { IfOk result (IsJobOfRows (codes "trace") (rows_of (found_of given.now))) }
    ensures fault { IfErr result (ReportsBadOption (rows_of (found_of given.now))) }
{
    let (file, script, options) = paths_and_options(alloc, given, None)?;
    Ok(Job::Trace {
        file,
        script,
        options,
    })
}

fn draw_job<'a>(alloc: Global, given: &ArgMatches<'a>) -> Result<Job<'a>, Usage>
    requires { AreScriptRows (rows_of (found_of given.now)) }
    ensures job { IfOk result (IsJobOfRows (codes "draw") (rows_of (found_of given.now))) }
    ensures fault { IfErr result (ReportsBadOption (rows_of (found_of given.now))) }
{
    let (file, script, options) = paths_and_options(alloc, given, None)?;
    Ok(Job::Draw {
        file,
        script,
        options,
    })
}

fn run_job<'a>(alloc: Global, given: &ArgMatches<'a>) -> Result<Job<'a>, Usage>
    requires { AreScriptRows (rows_of (found_of given.now)) }
    ensures job { IfOk result (IsJobOfRows (codes "run") (rows_of (found_of given.now))) }
    ensures fault { IfErr result (ReportsBadOption (rows_of (found_of given.now))) }
{
    let (file, script, options) = paths_and_options(alloc, given, top_of(given))?;
    Ok(Job::Run {
        file,
        script,
        options,
    })
}

/// The number of an argument that may be left out, which clap has checked.
fn optional_number(given: &ArgMatches, id: &str) -> Option<u32>
    requires { IsOptionalNumber (first_of id.now (rows_of (found_of given.now))) (2 ^ 32 - 1) }
    ensures { IsNumberIfGiven (first_of id.now (rows_of (found_of given.now))) result }
{
    given.get_str(id)?;
    Some(number_of(given, id, 0))
}

/// The options that `place` alone has, from what clap found.
fn place_options_of(given: &ArgMatches) -> PlaceOptions
    requires { ArePlaceRows (rows_of (found_of given.now)) }
    ensures { HasPlaceOptions (rows_of (found_of given.now)) result }
{
    PlaceOptions {
        keys: given.get_flag("keys"),
        given: optional_number(given, "given"),
    }
}

/// The value of an argument that may be left out.
fn optional_text<'a>(given: &ArgMatches<'a>, id: &str) -> Option<&'a str>
    ensures { first_of id.now (rows_of (found_of given.now))
        ≡ option_map (λ text. text.now) result }
{
    given.get_str(id)
}

/// The options that `check` alone has, from what clap found.
fn check_options_of(given: &ArgMatches) -> CheckOptions
    requires { AreCheckRows (rows_of (found_of given.now)) }
    ensures { HasCheckOptions (rows_of (found_of given.now)) result }
{
    CheckOptions {
        plan: given.get_flag("plan"),
        most: number_of(given, "most", DEFAULT_MOST),
    }
}

fn check_job<'a>(alloc: Global, given: &ArgMatches<'a>) -> Result<Job<'a>, Usage>
    requires { AreCheckRows (rows_of (found_of given.now)) }
    ensures job { IfOk result (IsJobOfRows (codes "check") (rows_of (found_of given.now))) }
    ensures fault { IfErr result (ReportsBadOption (rows_of (found_of given.now))) }
{
    let file = text_of(given, "file");
    let script = optional_text(given, "script");
    let check = check_options_of(given);
    let options = options_of(alloc, given, DEFAULT_BATCH, None)?;
    Ok(Job::Check {
        file,
        script,
        options,
        check,
    })
}

fn explain_job<'a>(given: &ArgMatches) -> Job<'a>
    requires { AreExplainRows (rows_of (found_of given.now)) }
    ensures { IsJobOfRows (codes "explain") (rows_of (found_of given.now)) result }
{
    Job::Explain {
        code: optional_number(given, "code"),
    }
}

/// What an error of clap becomes.
fn usage_of(alloc: Global, error: Error) -> Usage
    ensures { IsUsageOf result (kind_of error) }
{
    let kind = error.kind();
    let Ok(text) = error.to_string(alloc) else {
        return Usage::Memory;
    };
    match kind {
        ErrorKind::DisplayHelp | ErrorKind::DisplayVersion => Usage::Help(text),
        ErrorKind::OutOfMemory => Usage::Memory,
        _ => Usage::Bad(text),
    }
}

/// Parses the words after the program's name.
///
/// Errors: `Help` only where the words ask for help or for the version; `Bad` only where clap
/// rejects them for another reason, or accepts them and the value of `--topics` is not a list of
/// topics (the text is then `bad topics`), or that of `--column` or `--topic-column` not a column,
/// or that of `--delimiter` not a delimiter; `Memory` where memory runs out.
pub fn read_words<'a>(alloc: Global, words: &'a [&'a str]) -> Result<Job<'a>, Usage>
    ensures job { IfOk result (IsJobOf (map (λ w. w.now) words.now)) }
    ensures usage { IfErr result (IsRefusal (map (λ w. w.now) words.now)) }
    ensures topics { HaveBadList (map (λ w. w.now) words.now) → IsErrAnd result IsBadListReport }
{
    let Ok(command) = keycount_command(alloc) else {
        return Err(Usage::Memory);
    };
    let matches = match command.try_get_matches_from(words) {
        Ok(matches) => matches,
        Err(error) => return Err(usage_of(alloc, error)),
    };
    let Some((name, given)) = matches.subcommand() else {
        unreachable!();
    };
    job_of(alloc, name, given)
}

/// The job of the subcommand of this name, from what clap found.
fn job_of<'a>(alloc: Global, name: &str, given: &ArgMatches<'a>) -> Result<Job<'a>, Usage>
    requires { AreRowsOf name.now (rows_of (found_of given.now)) }
    ensures job { IfOk result (IsJobOfRows name.now (rows_of (found_of given.now))) }
    ensures fault { IfErr result (ReportsBadOption (rows_of (found_of given.now))) }
{
    match name {
        "count" => count_job(alloc, given),
        "place" => place_job(alloc, given),
        "check" => check_job(alloc, given),
        "replay" => replay_job(alloc, given),
        "trace" => trace_job(alloc, given),
        "draw" => draw_job(alloc, given),
        "run" => run_job(alloc, given),
        "explain" => Ok(explain_job(given)),
        _ => unreachable!(),
    }
}
