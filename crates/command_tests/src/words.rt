//! Command lines, and the jobs that they ask for.

use crate::number;
use command_line::{
    AFTER_COUNT, AFTER_DRAW, AFTER_EXPLAIN, AFTER_KEYCOUNT, AFTER_PLACE, AFTER_REPLAY, AFTER_RUN,
    AFTER_TRACE, Column, Job, Options, Usage, read_words,
};
use partitioner::Topic;
use std::alloc::Global;

/// The partitions, the column, whether there is a header, and the batch.
type Plain = (u32, u32, bool, u32);

/// Their defaults.
const PLAIN: Plain = (4, 1, false, 500);

const FULL: Plain = (4096, 65535, true, 500);

/// These values of options.
fn plain(options: &Options) -> Plain {
    (
        options.partitions,
        number(&options.column),
        options.header,
        options.batch,
    )
}

/// Paths and options. A count has one path.
type Parsed<'a> = (&'a str, &'a str, Plain);

/// Arguments, with the job that they ask for.
type Row = (&'static [&'static str], Parsed<'static>);

/// The subcommand of a job, and its paths and options.
fn reported_of<'a>(job: &Job<'a>) -> (&'static str, Parsed<'a>) {
    match job {
        Job::Count { file, options } => ("count", (*file, "", plain(options))),
        Job::Place { file, options, .. } => ("place", (*file, "", plain(options))),
        Job::Check {
            file,
            script,
            options,
            ..
        } => ("check", (*file, script.unwrap_or(""), plain(options))),
        Job::Replay {
            file,
            script,
            options,
        } => ("replay", (*file, *script, plain(options))),
        Job::Trace {
            file,
            script,
            options,
        } => ("trace", (*file, *script, plain(options))),
        Job::Draw {
            file,
            script,
            options,
        } => ("draw", (*file, *script, plain(options))),
        Job::Run {
            file,
            script,
            options,
        } => ("run", (*file, *script, plain(options))),
        Job::Explain { .. } => ("explain", ("", "", PLAIN)),
    }
}

/// Whether the answer is a job of this subcommand, with these paths and options.
fn is_job(answer: &Result<Job, Usage>, subcommand: &str, reported: &Parsed<'_>) -> bool {
    match answer {
        Ok(job) => reported_of(job) == (subcommand, *reported),
        Err(_) => false,
    }
}

/// Whether the arguments ask for that job. A test asserts the result of this function and owns no
/// answer: an assertion is proved together with the drops of what is owned.
fn asks_for(alloc: Global, words: &[&str], subcommand: &str, reported: &Parsed<'_>) -> bool {
    let answer = read_words(alloc, words);
    is_job(&answer, subcommand, reported)
}

/// The index of the first row whose arguments do not ask for that job of this subcommand.
fn first_other(alloc: Global, subcommand: &str, rows: &[Row]) -> Option<usize> {
    for (i, (words, reported)) in rows.iter().enumerate() {
        if !asks_for(alloc, words, subcommand, reported) {
            return Some(i);
        }
    }
    None
}

/// Arguments of a count, with its path and its options.
const COUNTS: [Row; 9] = [
    (&["count", "f"], ("f", "", PLAIN)),
    (&["count", ""], ("", "", PLAIN)),
    (&["count", "--", "--header"], ("--header", "", PLAIN)),
    (&["count", "--partitions", "0004", "f"], ("f", "", PLAIN)),
    (
        &[
            "count",
            "--partitions",
            "4096",
            "--column",
            "65535",
            "--header",
            "f",
        ],
        ("f", "", FULL),
    ),
    (
        &[
            "count",
            "f",
            "--header",
            "--column=65535",
            "--partitions=4096",
        ],
        ("f", "", FULL),
    ),
    (
        &[
            "count",
            "--header",
            "--partitions=4096",
            "f",
            "--column",
            "65535",
        ],
        ("f", "", FULL),
    ),
    (
        &[
            "count",
            "--column=65535",
            "--header",
            "--partitions=4096",
            "--",
            "f",
        ],
        ("f", "", FULL),
    ),
    (
        &["count", "f", "--column", "1", "--partitions", "4"],
        ("f", "", PLAIN),
    ),
];

#[test]
fn options_come_before_and_after_the_path(rt: HostRuntime) {
    assert_eq!(rt; first_other(rt.alloc(), "count", &COUNTS), None);
}

/// Arguments of a replay, with its paths and its options.
const REPLAYS: [Row; 8] = [
    (&["replay", "f", "s"], ("f", "s", PLAIN)),
    (&["replay", "-", "-"], ("-", "-", PLAIN)),
    (
        &["replay", "f", "s", "--batch", "1"],
        ("f", "s", (4, 1, false, 1)),
    ),
    (
        &["replay", "f", "--batch=500", "s"],
        ("f", "s", (4, 1, false, 500)),
    ),
    (
        &["replay", "--partitions", "7", "f", "s"],
        ("f", "s", (7, 1, false, 500)),
    ),
    (
        &["replay", "--column=65535", "f", "--", "--header"],
        ("f", "--header", (4, 65535, false, 500)),
    ),
    (
        &["replay", "--header", "f", "s"],
        ("f", "s", (4, 1, true, 500)),
    ),
    (
        &[
            "replay",
            "--batch",
            "1000000",
            "f",
            "--header",
            "--column",
            "2",
            "s",
            "--partitions=1",
        ],
        ("f", "s", (1, 2, true, 1_000_000)),
    ),
];

#[test]
fn a_replay_has_two_paths_and_a_batch(rt: HostRuntime) {
    assert_eq!(rt; first_other(rt.alloc(), "replay", &REPLAYS), None);
}

/// Arguments of a trace, with its paths and its options.
const TRACES: [Row; 2] = [
    (&["trace", "f", "s"], ("f", "s", PLAIN)),
    (
        &[
            "trace",
            "--header",
            "f",
            "s",
            "--batch=1",
            "--partitions",
            "7",
        ],
        ("f", "s", (7, 1, true, 1)),
    ),
];

/// Arguments of a picture, with its paths and its options.
const PICTURES: [Row; 2] = [
    (&["draw", "f", "s"], ("f", "s", PLAIN)),
    (
        &["draw", "f", "--column=2", "s", "--batch", "1000000"],
        ("f", "s", (4, 2, false, 1_000_000)),
    ),
];

#[test]
fn a_trace_and_a_picture_have_the_options_of_a_replay(rt: HostRuntime) {
    assert_eq!(rt; first_other(rt.alloc(), "trace", &TRACES), None);
    assert_eq!(rt; first_other(rt.alloc(), "draw", &PICTURES), None);
}

/// Arguments of a run, with its paths and its options.
const RUNS: [Row; 4] = [
    (&["run", "f", "p"], ("f", "p", PLAIN)),
    (&["run", "-", "-"], ("-", "-", PLAIN)),
    (
        &["run", "f", "--batch=1", "p"],
        ("f", "p", (4, 1, false, 1)),
    ),
    (
        &["run", "--partitions", "64", "f", "p", "--batch", "1000000"],
        ("f", "p", (64, 1, false, 1_000_000)),
    ),
];

#[test]
fn a_run_has_two_paths_and_a_batch(rt: HostRuntime) {
    assert_eq!(rt; first_other(rt.alloc(), "run", &RUNS), None);
}

/// Arguments of an explanation, with its code.
const CODES: [(&[&str], Option<u32>); 5] = [
    (&["explain"], None),
    (&["explain", "1"], Some(1)),
    (&["explain", "34"], Some(34)),
    (&["explain", "--", "0090"], Some(90)),
    (&["explain", "+7"], Some(7)),
];

/// Whether the answer is an explanation of this code.
fn is_explanation(answer: &Result<Job, Usage>, wanted: Option<u32>) -> bool {
    match answer {
        Ok(Job::Explain { code }) => *code == wanted,
        _ => false,
    }
}

/// Whether the arguments ask for an explanation of this code.
fn asks_about(alloc: Global, words: &[&str], wanted: Option<u32>) -> bool {
    let answer = read_words(alloc, words);
    is_explanation(&answer, wanted)
}

#[test]
fn an_explanation_has_a_code_or_none(rt: HostRuntime) {
    for (i, (words, code)) in CODES.iter().enumerate() {
        assert!(rt; asks_about(rt.alloc(), words, *code), "case {i}");
    }
}

/// Arguments of a place, with whether it has a row for each key, and its given column.
const PLACES: [(&[&str], bool, Option<u32>); 5] = [
    (&["place", "f"], false, None),
    (&["place", "--keys", "f", "--header"], true, None),
    (&["place", "f", "--given", "0007"], false, Some(7)),
    (&["place", "--given=65535", "--", "f"], false, Some(65535)),
    (&["place", "--given", "1", "f", "--keys"], true, Some(1)),
];

/// Whether the answer is this place of the file f.
fn is_place(answer: &Result<Job, Usage>, keys: bool, given: Option<u32>) -> bool {
    match answer {
        Ok(Job::Place { file, place, .. }) => {
            (*file, place.keys, place.given) == ("f", keys, given)
        }
        _ => false,
    }
}

/// Whether the arguments ask for this place of the file f.
fn asks_where(alloc: Global, words: &[&str], keys: bool, given: Option<u32>) -> bool {
    let answer = read_words(alloc, words);
    is_place(&answer, keys, given)
}

#[test]
fn a_place_has_keys_or_a_given_column(rt: HostRuntime) {
    for (i, (words, keys, given)) in PLACES.iter().enumerate() {
        assert!(rt; asks_where(rt.alloc(), words, *keys, *given), "case {i}");
    }
}

/// What a check has: its script, whether that is a plan, and how many faults it tells at most.
type Check<'a> = (Option<&'a str>, bool, u32);

/// Arguments of a check, with what it has.
const CHECKS: [(&[&str], Check<'static>); 4] = [
    (&["check", "f"], (None, false, 20)),
    (&["check", "f", "s"], (Some("s"), false, 20)),
    (
        &["check", "--plan", "f", "--header", "-"],
        (Some("-"), true, 20),
    ),
    (
        &["check", "f", "--most=4294967295"],
        (None, false, 4_294_967_295),
    ),
];

/// Whether the answer is this check of the file f.
fn is_check(answer: &Result<Job, Usage>, wanted: &Check<'_>) -> bool {
    match answer {
        Ok(
            Job::Check {
                file,
                script,
                check,
                ..
            },
        ) => (*file, (*script, check.plan, check.most)) == ("f", *wanted),
        _ => false,
    }
}

/// Whether the arguments ask for this check of the file f.
fn asks_what(alloc: Global, words: &[&str], wanted: &Check<'_>) -> bool {
    let answer = read_words(alloc, words);
    is_check(&answer, wanted)
}

#[test]
fn a_check_has_a_script_or_none(rt: HostRuntime) {
    for (i, (words, check)) in CHECKS.iter().enumerate() {
        assert!(rt; asks_what(rt.alloc(), words, check), "case {i}");
    }
}

/// The topics of a list, each with its number of partitions.
type Topics<'a> = &'a [(&'a str, u32)];

fn is_topic(topic: &Topic, wanted: (&str, u32)) -> bool {
    topic.name.text() == wanted.0.as_bytes() && topic.partitions == wanted.1
}

/// Whether topics are these, in this order.
fn are_topics(topics: &[Topic], wanted: Topics) -> bool {
    if topics.len() != wanted.len() {
        return false;
    }
    for i in 0..topics.len() {
        if !is_topic(&topics[i], wanted[i]) {
            return false;
        }
    }
    true
}

/// The options of a job, if it has any.
fn options_of<'a>(job: &'a Job<'_>) -> Option<&'a Options> {
    match job {
        Job::Count { options, .. }
        | Job::Place { options, .. }
        | Job::Check { options, .. }
        | Job::Replay { options, .. }
        | Job::Trace { options, .. }
        | Job::Draw { options, .. }
        | Job::Run { options, .. } => Some(options),
        Job::Explain { .. } => None,
    }
}

/// Whether options have these topics and this topic column.
fn have_topics(options: &Options, topics: Topics, column: u32) -> bool {
    are_topics(options.topics.as_slice(), topics) && number(&options.topic_column) == column
}

/// The options of the answer, if it is a job that has any.
fn options_in<'a>(answer: &'a Result<Job<'_>, Usage>) -> Option<&'a Options> {
    options_of(answer.as_ref().ok()?)
}

/// Whether the answer is the error of an invalid list.
fn are_bad_topics(answer: &Result<Job, Usage>) -> bool {
    match answer {
        Err(Usage::Bad(text)) => text.as_str() == "bad topics\n",
        _ => false,
    }
}

/// Whether the answer has these topics and this topic column, or, if there are none, is the error
/// of an invalid list.
fn has_topics(answer: &Result<Job, Usage>, wanted: Option<Topics>, column: u32) -> bool {
    match (options_in(answer), wanted) {
        (Some(options), Some(topics)) => have_topics(options, topics, column),
        (None, None) => are_bad_topics(answer),
        _ => false,
    }
}

/// Whether the arguments are answered so.
fn are_reported(alloc: Global, words: &[&str], wanted: Option<Topics>, column: u32) -> bool {
    let answer = read_words(alloc, words);
    has_topics(&answer, wanted, column)
}

/// Lists of topics, each with its topics if it is valid.
const LISTS: [(&str, Option<Topics>); 24] = [
    ("a:4", Some(&[("a", 4)])),
    ("a:2,b:3", Some(&[("a", 2), ("b", 3)])),
    ("b:0003,a-_9:4", Some(&[("b", 3), ("a-_9", 4)])),
    ("a:4096", Some(&[("a", 4096)])),
    ("a:4095,b:1", Some(&[("a", 4095), ("b", 1)])),
    (
        "abcdefghijklmnopqrstuvwxyzabcdef:1",
        Some(&[("abcdefghijklmnopqrstuvwxyzabcdef", 1)]),
    ),
    (
        "a:1,b:1,c:1,d:1,e:1,f:1,g:1,A:1",
        Some(&[
            ("a", 1),
            ("b", 1),
            ("c", 1),
            ("d", 1),
            ("e", 1),
            ("f", 1),
            ("g", 1),
            ("A", 1),
        ]),
    ),
    ("a:1,b:1,c:1,d:1,e:1,f:1,g:1,h:1,i:1", None),
    ("abcdefghijklmnopqrstuvwxyzabcdefg:1", None),
    ("a:4096,b:1", None),
    ("a:1,a:2", None),
    ("a:0", None),
    ("a:4097", None),
    ("a:00004", None),
    ("a:+1", None),
    ("a: 1", None),
    ("a b:1", None),
    ("a", None),
    ("a:", None),
    (":1", None),
    ("a:1:2", None),
    ("a:1,", None),
    (",a:1", None),
    ("", None),
];

#[test]
fn lists_of_topics_are_read(rt: HostRuntime) {
    for (i, (list, wanted)) in LISTS.iter().enumerate() {
        let words = ["count", "f", "--topics", list];
        assert!(rt; are_reported(rt.alloc(), &words, *wanted, 2), "case {i}");
    }
}

/// One topic.
const ONE: Topics = &[("-", 1)];

/// Arguments of each subcommand, with the topic column, and with the topics if they are valid.
const TOPICS: [(&[&str], u32, Option<Topics>); 6] = [
    (&["count", "f"], 2, Some(&[])),
    (&["count", "--topic-column=65535", "f"], 65535, Some(&[])),
    (
        &["count", "--topics=-:1", "f", "--topic-column", "1"],
        1,
        Some(ONE),
    ),
    (&["replay", "f", "--topics=-:1", "s"], 2, Some(ONE)),
    (
        &["run", "f", "s", "--topics=-:1", "--partitions=4096"],
        2,
        Some(ONE),
    ),
    (&["run", "f", "s", "--topics=:1"], 2, None),
];

#[test]
fn each_subcommand_has_topics(rt: HostRuntime) {
    for (i, (words, column, wanted)) in TOPICS.iter().enumerate() {
        assert!(rt;
            are_reported(rt.alloc(), words, *wanted, *column),
            "case {i}"
        );
    }
}

/// The name of the key's column and of the topic's, if they have one, and the top.
type Chosen = (Option<&'static str>, Option<&'static str>, Option<u32>);

/// Whether a column has this name; without one, whether it has a number.
fn is_named(column: &Column, name: Option<&str>) -> bool {
    match (column, name) {
        (Column::Named(text), Some(name)) => text.as_slice() == name.as_bytes(),
        (Column::Number(_), None) => true,
        _ => false,
    }
}

/// Whether options have these columns and this top.
fn have_chosen(options: &Options, chosen: Chosen) -> bool {
    is_named(&options.column, chosen.0)
        && is_named(&options.topic_column, chosen.1)
        && options.top == chosen.2
}

/// Whether the arguments ask for a job with these columns and this top.
fn are_chosen(alloc: Global, words: &[&str], chosen: Chosen) -> bool {
    let answer = read_words(alloc, words);
    options_in(&answer).is_some_and(|options| have_chosen(options, chosen))
}

/// Arguments, with the names of their columns and their top.
const CHOICES: [(&[&str], Chosen); 10] = [
    (&["count", "f"], (None, None, None)),
    (&["count", "f", "--top", "3"], (None, None, Some(3))),
    (
        &["count", "--top=4294967295", "f", "--header"],
        (None, None, Some(u32::MAX)),
    ),
    (&["replay", "f", "s", "--top=1"], (None, None, Some(1))),
    (
        &["run", "--top", "02", "f", "p", "--batch=1"],
        (None, None, Some(2)),
    ),
    (
        &["count", "f", "--header", "--column", "user id"],
        (Some("user id"), None, None),
    ),
    (
        &[
            "trace",
            "f",
            "s",
            "--column=k",
            "--topic-column=t",
            "--header",
        ],
        (Some("k"), Some("t"), None),
    ),
    (
        &["draw", "f", "s", "--header", "--column", ""],
        (Some(""), None, None),
    ),
    (
        &["run", "f", "p", "--column=+5", "--header"],
        (Some("+5"), None, None),
    ),
    (
        &["count", "f", "--header", "--column=007"],
        (None, None, None),
    ),
];

#[test]
fn columns_have_names_and_counts_a_top(rt: HostRuntime) {
    for (i, (words, chosen)) in CHOICES.iter().enumerate() {
        assert!(rt; are_chosen(rt.alloc(), words, *chosen), "case {i}");
    }
}

/// Arguments, with the delimiter that they ask for.
const DELIMITERS: [(&[&str], u8); 9] = [
    (&["count", "f"], b','),
    (&["count", "f", "--delimiter", ";"], b';'),
    (&["count", "--delimiter=tab", "f"], b'\t'),
    (&["place", "f", "--delimiter", "\t"], b'\t'),
    (&["replay", "f", "s", "--delimiter", "t"], b't'),
    (&["trace", "f", "s", "--delimiter= "], b' '),
    (&["draw", "f", "s", "--delimiter=|", "--header"], b'|'),
    (&["run", "--delimiter", "\u{1}", "f", "p"], 1),
    (&["run", "f", "p", "--delimiter=\u{7f}"], 127),
];

/// The delimiter that arguments ask for, if they ask for a job that reads a file.
fn delimiter_of(alloc: Global, words: &[&str]) -> Option<u8> {
    let answer = read_words(alloc, words);
    options_in(&answer).map(|options| options.delimiter)
}

#[test]
fn each_file_has_a_delimiter(rt: HostRuntime) {
    for (i, (words, delimiter)) in DELIMITERS.iter().enumerate() {
        assert_eq!(rt;
            delimiter_of(rt.alloc(), words),
            Some(*delimiter),
            "case {i}"
        );
    }
}

/// Arguments that are not understood.
const BAD: [&[&str]; 63] = [
    &["count", "f", "--delimiter", ""],
    &["count", "f", "--delimiter", "\""],
    &["count", "f", "--delimiter", "\n"],
    &["count", "f", "--delimiter", "\r"],
    &["count", "f", "--delimiter", ";;"],
    &["count", "f", "--delimiter", "\u{e9}"],
    &["count", "f", "--delimiter", "Tab"],
    &["count", "f", "--delimiter", ";", "--delimiter", ";"],
    &["explain", "--delimiter", ";"],
    &[],
    &["count"],
    &["count", "f", "g"],
    &["count", "f", "--partitions", "0"],
    &["count", "f", "--partitions", "4097"],
    &["count", "f", "--partitions", "-1"],
    &["count", "f", "--partitions", "four"],
    &["count", "f", "--partitions"],
    &["count", "f", "--column", "0"],
    &["count", "f", "--column", "65536"],
    &["count", "f", "--column", "99999999999999999999"],
    &["count", "f", "--header", "--column", "0"],
    &["count", "f", "--header", "--column", "65536"],
    &["count", "f", "--column", "two"],
    &["count", "f", "--column", "+1"],
    &["count", "f", "--column", ""],
    &["count", "f", "--topic-column", "two"],
    &["count", "f", "--top", "0"],
    &["count", "f", "--top", "4294967296"],
    &["trace", "f", "s", "--top", "1"],
    &["draw", "f", "s", "--top", "1"],
    &["count", "f", "--column", "1", "--column", "1"],
    &["count", "f", "--topic-column", "0"],
    &["count", "f", "--topic-column", "65536"],
    &["count", "f", "--topic-column", "2", "--topic-column", "2"],
    &["count", "f", "--topics"],
    &["count", "f", "--topics", "a:1", "--topics", "b:1"],
    &["count", "f", "--topics", "a:1", "--partitions", "0"],
    &["count", "f", "--batch", "5"],
    &["count", "f", "--header", "--header"],
    &["count", "f", "--header=1"],
    &["count", "f", "--other"],
    &["--header", "count", "f"],
    &["--partitions", "4", "count", "f"],
    &["replay"],
    &["replay", "f"],
    &["replay", "f", "s", "t"],
    &["replay", "f", "s", "--batch", "0"],
    &["replay", "f", "s", "--batch", "1000001"],
    &["replay", "f", "s", "--batch", "-1"],
    &["replay", "f", "s", "--batch"],
    &["replay", "f", "s", "--batch", "1", "--batch", "1"],
    &["replay", "f", "s", "--partitions", "4097"],
    &["replay", "f", "--script", "s"],
    &["run", "f"],
    &["run", "f", "p", "q"],
    &["run", "f", "p", "--batch", "0"],
    &["run", "f", "p", "--members", "2"],
    &["f"],
    &["explain", "0"],
    &["explain", "91"],
    &["explain", "one"],
    &["explain", "1", "2"],
    &["explain", "--header"],
];

/// Whether the arguments are not understood.
fn are_bad(alloc: Global, words: &[&str]) -> bool {
    let answer = read_words(alloc, words);
    matches!(&answer, Err(Usage::Bad(_)))
}

#[test]
fn bad_words_are_refused(rt: HostRuntime) {
    for (i, words) in BAD.iter().enumerate() {
        assert!(rt; are_bad(rt.alloc(), words), "case {i}");
    }
}

/// Whether a text begins and ends like this.
fn is_between(text: &str, begin: &str, end: &str) -> bool {
    text.starts_with(begin) && text.trim_end().ends_with(end)
}

/// Whether the answer is a text that begins and ends like this.
fn is_text(answer: &Result<Job, Usage>, begin: &str, end: &str) -> bool {
    match answer {
        Err(Usage::Help(text)) => is_between(text.as_str(), begin, end),
        _ => false,
    }
}

/// Whether the arguments ask for such a text.
fn is_asked(alloc: Global, words: &[&str], begin: &str, end: &str) -> bool {
    let answer = read_words(alloc, words);
    is_text(&answer, begin, end)
}

/// Words that ask for help, with how its text begins and ends. The rows of blackbox have it whole.
const HELPS: [(&[&str], &str, &str); 10] = [
    (&["--help"], "Count the keys of a CSV file", AFTER_KEYCOUNT),
    (&["-h"], "Count the keys of a CSV file", AFTER_KEYCOUNT),
    (&["help", "count"], "Count how often", AFTER_COUNT),
    (&["count", "--help"], "Count how often", AFTER_COUNT),
    (&["place", "--help"], "Show where the records", AFTER_PLACE),
    (&["replay", "--help"], "Replay a script", AFTER_REPLAY),
    (
        &["trace", "--help"],
        "Replay a script, and report",
        AFTER_TRACE,
    ),
    (&["draw", "--help"], "Replay a script, and draw", AFTER_DRAW),
    (&["run", "-h"], "Count the keys with one thread", AFTER_RUN),
    (&["explain", "-h"], "Explain the code", AFTER_EXPLAIN),
];

#[test]
fn help_lists_the_subcommands(rt: HostRuntime) {
    for (i, (words, begin, end)) in HELPS.iter().enumerate() {
        assert!(rt; is_asked(rt.alloc(), words, begin, end), "case {i}");
    }
}

#[test]
fn the_version_names_the_kit(rt: HostRuntime) {
    let wanted = "keycount 0.1.0, proved with rattle-kit-13f logic dac8208d650f15bf";
    for word in ["--version", "-V"] {
        assert!(rt; is_asked(rt.alloc(), &[word], wanted, wanted), "{word}");
    }
}

#[test]
fn a_job_has_no_version(rt: HostRuntime) {
    assert!(rt; are_bad(rt.alloc(), &["count", "--version"]));
}
