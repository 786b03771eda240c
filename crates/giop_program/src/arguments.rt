//! The program's arguments: the files that it reads and saves, and how many messages may be open (docs/FORMATS.md, The
//! program).

ghost use Rattle.std.specs.Prelude.{◌≡◌, ◌≤◌, ℕ, Some, None};
ghost use Rattle.giop_stream.specs.Rules.{most_open};

use clap::builder::ValueParser;
use clap::{Arg, Command, Error};
use giop_run::words_with_stand_ins;
use giop_stream::MOST_OPEN;
use std::alloc::{AllocError, Global};

/// How many messages may be open if no argument says it.
const DEFAULT_OPEN: u32 = 16;

const ABOUT: &str = "Dumps one direction of a GIOP connection, one text line per value";

const SIGNATURES_HELP: &str =
    "The types of the operations; the built-in types alone where it is missing";

const TYPES_HELP: &str = "The same of version 3 too, in the place of --signatures";

const REQUESTS_HELP: &str =
    "The requests that the replies of STREAM answer; none where it is missing";

const RESUME_HELP: &str =
    "The checkpoint that STREAM goes on from; a new stream where it is missing";

const SAVE_HELP: &str =
    "Where a checkpoint is saved at the end of STREAM, in place of the closing lines";

const OPEN_HELP: &str =
    "How many messages may be open at once, 1 to 4096; of a checkpoint its own number holds";

const STREAM_HELP: &str = "The octets of one direction; standard input where it is missing";

const EXAMPLES: &str = "\
A signature file declares operations and the types that they are made of:

    signatures 1;
    enum Colour { red, green };
    struct Point { Colour hue; long x; long y; };
    operation double distance(in Point from, in Point to);

A request list has a line for each request of the other direction, its id and its operation:

    1 distance
    2 distance

A stream in parts is dumped one after the other, with the same two files:

    giopdump --save c first.giop
    giopdump --resume c --save c second.giop
    giopdump --resume c last.giop

FORMATS.md has every line, fault and status, and SIGNATURES.md says how IDL becomes a signature file (docs/ of the
sources, /usr/share/doc/giopdump/docs of the package).";

/// What the arguments ask for. Each file is given by its name; no name has a special meaning.
#[derive(Clone, Copy, Debug, Drop, PartialEq, Eq)]
pub struct Arguments<'a> {
    /// The signature file. If there is none, only the built-in types are known.
    pub signatures: Option<&'a str>,
    /// Whether that file may be of version 3.
    pub version_3: bool,
    /// The request list. If there is none, the list is empty.
    pub requests: Option<&'a str>,
    /// The checkpoint from which the stream is read on. If there is none, the stream is new.
    pub resume: Option<&'a str>,
    /// The file that a checkpoint is saved in. If there is none, the stream is finished.
    pub save: Option<&'a str>,
    /// The greatest number of open messages for a new stream.
    pub most: u32,
    /// The file with the stream's octets. If there is none, they come from standard input.
    pub stream: Option<&'a str>,
    ghost range: { (1 ≤ most) × (most ≤ most_open) },
}

/// An option that takes the name of a file.
fn file_option<'a>(alloc: Global, name: &'a str, help: &'a str) -> Arg<'a> {
    Arg::new(alloc, name)
        .long(name)
        .value_name("FILE")
        .help(help)
}

/// The option for the greatest number of open messages; 16 if it isn't given.
fn open_option<'a>(alloc: Global) -> Arg<'a> {
    Arg::new(alloc, "open")
        .long("open")
        .value_name("N")
        .value_parser(ValueParser::unsigned(1, u64::from(MOST_OPEN)))
        .help(OPEN_HELP)
        .default_value("16")
}

/// The command as `clap` reads it, with its help.
fn command<'a>(alloc: Global) -> Result<Command<'a>, AllocError> {
    Command::new(alloc, "giopdump")
        .version("1.0.0")
        .about(ABOUT)
        .after_help(EXAMPLES)
        .arg(file_option(alloc, "signatures", SIGNATURES_HELP))?
        .arg(file_option(alloc, "types", TYPES_HELP).conflicts_with("signatures")?)?
        .arg(file_option(alloc, "requests", REQUESTS_HELP))?
        .arg(file_option(alloc, "resume", RESUME_HELP))?
        .arg(file_option(alloc, "save", SAVE_HELP))?
        .arg(open_option(alloc))?
        .arg(Arg::new(alloc, "STREAM").help(STREAM_HELP))
}

impl<'a> Arguments<'a> {
    /// Parses the arguments. The first word is the program's name. An `Err` has the text to print and the status. It is
    /// also the answer to `--help` and `--version`, with status 0.
    pub fn read(alloc: Global, words: &'a [String]) -> Result<Arguments<'a>, Error> {
        // If something is wrong with the words, the error's text is made of the marked words.
        command(alloc)?.try_get_matches_from(words_with_stand_ins(alloc, words)?.as_slice())?;
        let matches = command(alloc)?.try_get_matches_from(words)?;
        let types = matches.get_str("types");
        Ok(Arguments {
            signatures: types.or(matches.get_str("signatures")),
            version_3: types.is_some(),
            requests: matches.get_str("requests"),
            resume: matches.get_str("resume"),
            save: matches.get_str("save"),
            most: open_limit(matches.get_one::<u32>("open")),
            stream: matches.get_str("STREAM"),
        })
    }
}

/// The greatest number of open messages, by the argument for it. `clap` has checked its range.
fn open_limit(word: Option<u32>) -> u32
    ensures range { (1 ≤ result) × (result ≤ most_open) }
    ensures word { (n : ℕ) → word ≡ Some n → 1 ≤ n → n ≤ most_open → result ≡ n }
    ensures missing { word ≡ None → result ≡ 16 }
{
    match word {
        None => DEFAULT_OPEN,
        Some(most) => most.max(1).min(MOST_OPEN),
    }
}
