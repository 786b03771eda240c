//! The program's arguments: how values are written, how much text is held, and the file with the lines.

use clap::builder::ValueParser;
use clap::{Arg, ArgAction, ArgMatches, Command, Error};
use giop_json_messages::{HOLD_MAX, Settings};
use giop_json_values::{Characters, Options};
use giop_run::words_with_stand_ins;
use std::alloc::{AllocError, Global};

/// How many KiB of text are held if no argument says it.
const DEFAULT_HOLD: u32 = 65_536;

const TEXTS: &[&str] = &["escapes", "latin1", "utf8"];

const ABOUT: &str = "Writes the lines of a dump as JSON, an object in a line for each message";

const TEXT_HELP: &str = "What stands for the octets of texts outside ASCII";

const CALLS_HELP: &str = "An object for each call, flat, with its request and its reply";

const STRINGS_HELP: &str = "Numbers of eight octets are text";

const TYPES_HELP: &str = "All that a TypeCode has; its id and name alone where it is missing";

const HOLD_HELP: &str =
    "How many KiB of text of messages that aren't over are held, 1 to 16777216; more come in parts";

const FILE_HELP: &str = "The lines; standard input where it is missing";

const EXAMPLES: &str = "\
The object keys that an operation was called at:

    giopcap orders.pcap | giop-json |
        jq -c 'select(.type == \"Request\" and .operation == \"place\") | .header.object_key'

The manual page has every member.";

/// What the arguments ask for.
#[derive(Clone, Copy, Debug, Drop)]
pub(crate) struct Arguments<'a> {
    /// How messages are written.
    pub(crate) settings: Settings,
    /// Whether there is an object for each call, instead of one for each message.
    pub(crate) are_calls: bool,
    /// The file with the lines. If there is none, they come from standard input. No name has a special meaning.
    pub(crate) file: Option<&'a str>,
}

fn flag<'a>(alloc: Global, name: &'a str, help: &'a str) -> Arg<'a> {
    Arg::new(alloc, name)
        .long(name)
        .action(ArgAction::SetTrue)
        .help(help)
}

/// The option that says how texts are written.
fn text_option<'a>(alloc: Global) -> Arg<'a> {
    Arg::new(alloc, "text")
        .long("text")
        .value_name("T")
        .value_parser(TEXTS)
        .help(TEXT_HELP)
        .default_value("escapes")
}

/// The option that says how much text is held.
fn hold_option<'a>(alloc: Global) -> Arg<'a> {
    Arg::new(alloc, "hold")
        .long("hold")
        .value_name("KIB")
        .value_parser(ValueParser::unsigned(1, u64::from(HOLD_MAX)))
        .help(HOLD_HELP)
        .default_value("65536")
}

/// The command as `clap` reads it, with its help.
fn command<'a>(alloc: Global) -> Result<Command<'a>, AllocError> {
    Command::new(alloc, "giop-json")
        .version("1.0.0")
        .about(ABOUT)
        .after_help(EXAMPLES)
        .arg(flag(alloc, "calls", CALLS_HELP))?
        .arg(text_option(alloc))?
        .arg(flag(alloc, "strings", STRINGS_HELP))?
        .arg(flag(alloc, "types", TYPES_HELP))?
        .arg(hold_option(alloc))?
        .arg(Arg::new(alloc, "FILE").help(FILE_HELP))
}

impl<'a> Arguments<'a> {
    /// Reads the words of the command line. The first word is the program's name. An `Err` has the text to print and the
    /// status. It is also the answer to `--help` and `--version`, with status 0.
    pub(crate) fn read(alloc: Global, words: &'a [String]) -> Result<Arguments<'a>, Error> {
        // If something is wrong with the words, the error's text is made of the marked words.
        command(alloc)?.try_get_matches_from(words_with_stand_ins(alloc, words)?.as_slice())?;
        let matches = command(alloc)?.try_get_matches_from(words)?;
        Ok(Arguments {
            settings: settings_of(&matches),
            are_calls: matches.get_flag("calls"),
            file: matches.get_str("FILE"),
        })
    }
}

fn settings_of(matches: &ArgMatches<'_>) -> Settings {
    Settings {
        options: Options {
            characters: characters_of(matches.get_str("text")),
            are_strings: matches.get_flag("strings"),
            has_types: matches.get_flag("types"),
        },
        hold: matches.get_one::<u32>("hold").unwrap_or(DEFAULT_HOLD),
    }
}

/// How texts are written, by the word for it. `clap` has checked that it is one of `TEXTS`.
fn characters_of(word: Option<&str>) -> Characters {
    match word {
        Some("latin1") => Characters::Latin1,
        Some("utf8") => Characters::Utf8,
        _ => Characters::Escapes,
    }
}
