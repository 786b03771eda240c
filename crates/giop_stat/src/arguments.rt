//! The program's arguments: what is counted, how it is written, and the file with the lines.

use clap::{Arg, ArgAction, ArgMatches, Command, Error};
use giop_run::words_with_stand_ins;
use giop_stat_counts::{Grouping, Settings, Window, is_time};
use std::alloc::{AllocError, Global};

const ABOUT: &str =
    "Counts the calls in the lines of a dump, by operation and by client and server, with their times";

const BY_HELP: &str =
    "Count operations by this value of the request too, as body.command; or by client, server or object";

const FROM_HELP: &str = "Count messages from this time on, as 2026-11-23T08:13:25.58 or 08:13:25";

const TO_HELP: &str = "Count messages up to this time";

const CONNECTIONS_HELP: &str = "Print the table of connections too";

const JSON_HELP: &str = "Print one JSON object";

const FILE_HELP: &str = "The lines; standard input where it is missing";

const EXAMPLES: &str = "\
The operations with the most time, of a capture:

    giopcap orders.pcap | giop-stat

The manual page has every column.";

/// What the arguments ask for.
#[derive(Clone, Copy, Debug, Drop)]
pub(crate) struct Arguments<'a> {
    /// What is counted, and how it is written.
    pub(crate) settings: Settings<'a>,
    /// The file with the lines. If there is none, they come from standard input. No name has a special meaning.
    pub(crate) file: Option<&'a str>,
}

/// Why the words can't be read.
#[derive(Drop)]
pub(crate) enum ArgumentError<'a> {
    /// The error of `clap`, or the help.
    Words(Error),
    /// This word names nothing that calls can be counted by.
    By(&'a str),
    /// This word is no time.
    Time(&'a str),
}

impl<'a> From<Error> for ArgumentError<'a> {
    fn from(error: Error) -> ArgumentError<'a> {
        ArgumentError::Words(error)
    }
}

fn flag<'a>(alloc: Global, name: &'a str, help: &'a str) -> Arg<'a> {
    Arg::new(alloc, name)
        .long(name)
        .action(ArgAction::SetTrue)
        .help(help)
}

fn option<'a>(alloc: Global, name: &'a str, value: &'a str, help: &'a str) -> Arg<'a> {
    Arg::new(alloc, name)
        .long(name)
        .value_name(value)
        .help(help)
}

/// The command as `clap` reads it, with its help.
fn command<'a>(alloc: Global) -> Result<Command<'a>, AllocError> {
    Command::new(alloc, "giop-stat")
        .version("1.0.0")
        .about(ABOUT)
        .after_help(EXAMPLES)
        .arg(option(alloc, "by", "KEY", BY_HELP))?
        .arg(option(alloc, "from", "TIME", FROM_HELP))?
        .arg(option(alloc, "to", "TIME", TO_HELP))?
        .arg(flag(alloc, "connections", CONNECTIONS_HELP))?
        .arg(flag(alloc, "json", JSON_HELP))?
        .arg(Arg::new(alloc, "FILE").help(FILE_HELP))
}

impl<'a> Arguments<'a> {
    /// Reads the words of the command line. The first word is the program's name. An `Err` is also the answer to `--help`
    /// and `--version`.
    pub(crate) fn read(
        alloc: Global,
        words: &'a [String],
    ) -> Result<Arguments<'a>, ArgumentError<'a>> {
        let matches = matches_of(alloc, words)?;
        Ok(Arguments {
            settings: settings_of(&matches)?,
            file: matches.get_str("FILE"),
        })
    }
}

fn matches_of<'a>(alloc: Global, words: &'a [String]) -> Result<ArgMatches<'a>, Error> {
    // If something is wrong with the words, the error's text is made of the marked words.
    command(alloc)?.try_get_matches_from(words_with_stand_ins(alloc, words)?.as_slice())?;
    command(alloc)?.try_get_matches_from(words)
}

fn settings_of<'a>(matches: &ArgMatches<'a>) -> Result<Settings<'a>, ArgumentError<'a>> {
    let by = match matches.get_str("by") {
        None => None,
        Some(word) => match Grouping::of_word(word) {
            None => return Err(ArgumentError::By(word)),
            by => by,
        },
    };
    let window = Window {
        first: time_of(matches.get_str("from"))?,
        last: time_of(matches.get_str("to"))?,
    };
    Ok(Settings {
        by,
        window,
        is_json: matches.get_flag("json"),
        has_connections: matches.get_flag("connections"),
    })
}

/// A time of the command line, if one is given.
fn time_of(word: Option<&str>) -> Result<Option<&str>, ArgumentError<'_>> {
    match word {
        Some(word) if !is_time(word) => Err(ArgumentError::Time(word)),
        word => Ok(word),
    }
}
