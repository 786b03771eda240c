//! The program's arguments: the capture that it reads, and how much it may remember (docs/FORMATS.md, The program giopcap).

ghost use Rattle.std.specs.Prelude.{◌≡◌, ◌≢◌, ◌≤◌, ◌^◌, ℕ, Some, None, codes, option_map};
ghost use Rattle.giop_stream.specs.Rules.{most_open};

use arrayvec::ArrayVec;
use clap::builder::ValueParser;
use clap::error::ErrorKind;
use clap::{Arg, ArgAction, ArgMatches, Command, Error};
use giop_run::words_with_stand_ins;
use giop_stream::MOST_OPEN;
use std::alloc::{AllocError, Global};

/// The greatest number of ports that may be chosen.
pub const PORTS_ROOM: usize = 64;

/// The greatest number of signature files that may be given.
pub const SIGNATURES_ROOM: usize = 16;

/// The greatest number of known connections, and of outstanding calls in each direction of a connection.
const MOST_KNOWN: u32 = 65_536;

/// The least and the greatest number of blocks of 1,024 octets for payloads that wait.
const LEAST_POOL: u32 = 1_024;

const MOST_POOL: u32 = 1_048_576;

/// The greatest number that a first stream may have: 10^18. A capture has at most 2^63 streams, so their numbers stay below
/// 2^64.
const MOST_FIRST: u64 = 1_000_000_000_000_000_000;

const DEFAULT_CONNECTIONS: u32 = 1_024;

const DEFAULT_OPEN: u32 = 16;

const DEFAULT_CALLS: u32 = 128;

const DEFAULT_POOL: u32 = 16_384;

const ABOUT: &str =
    "Dumps the GIOP conversations of a capture, one text line per value, each reply by its call";

const SIGNATURES_HELP: &str = "\
The types of the operations, up to 16 times, read as one; the built-in types alone where it is missing";

const PORT_HELP: &str =
    "A port at which GIOP is looked for, up to 64 times; every port where it is missing";

const CONNECTIONS_HELP: &str = "How many connections are known at once, 1 to 65536";

const OPEN_HELP: &str = "How many messages of a stream may be open at once, 1 to 4096";

const CALLS_HELP: &str =
    "How many calls of a direction of a connection wait for their replies, 1 to 65536";

const POOL_HELP: &str = "How many KiB wait for octets before them, 1024 to 1048576";

const FIRST_HELP: &str = "The number of the first stream, 1 to 1000000000000000000";

const CAPTURE_HELP: &str =
    "A pcap or pcapng file; standard input where it is missing or -, as of tcpdump -w -";

const EXAMPLES: &str = "\
A capture is dumped as it is written, or from a file:

    tcpdump -i any -U -w - port 2809 | giopcap --signatures orders.sig
    giopcap --signatures orders.sig orders.pcap

The slowest calls are the last of

    giopcap orders.pcap | grep ' answers ' | sort -k8 -n

FORMATS.md has every line, fault and status, and SIGNATURES.md says how IDL becomes a signature file (docs/ of the
sources, /usr/share/doc/giopdump/docs of the package).";

/// What the arguments ask for: each file by its name.
#[derive(Debug, Drop)]
pub struct Arguments<'a> {
    /// The signature files, which are read as one. If there are none, only the built-in types are known.
    pub signatures: ArrayVec<&'a str, 16>,
    /// The ports at which GIOP is looked for. If there are none, it is looked for at every port.
    pub ports: ArrayVec<u16, 64>,
    /// The greatest number of connections that may be known at once.
    pub connections: u32,
    /// The greatest number of messages of a stream that may be open at once.
    pub messages: u32,
    /// The greatest number of calls of a connection's direction that may be outstanding.
    pub calls: u32,
    /// The number of blocks for payloads that wait, of 1,024 octets each.
    pub pool: u32,
    /// The number of the first stream. The numbers of the other streams follow it.
    pub first_stream: u64,
    /// The file with the capture; None for standard input.
    pub capture: Option<&'a str>,
    ghost connections_range: { (1 ≤ connections) × (connections ≤ 65_536) },
    ghost messages_range: { (1 ≤ messages) × (messages ≤ most_open) },
    ghost calls_range: { (1 ≤ calls) × (calls ≤ 65_536) },
    ghost pool_range: { (1_024 ≤ pool) × (pool ≤ 1_048_576) },
    ghost first_range: { (1 ≤ first_stream) × (first_stream ≤ 10 ^ 18) },
}

/// An option that takes a number within a range, and has a default.
fn number_option<'a>(
    alloc: Global,
    name: &'a str,
    help: &'a str,
    range: (u32, u32),
    default: &'a str,
) -> Arg<'a> {
    Arg::new(alloc, name)
        .long(name)
        .value_name("N")
        .value_parser(ValueParser::unsigned(u64::from(range.0), u64::from(range.1)))
        .help(help)
        .default_value(default)
}

/// The option for the memory that payloads may wait in.
fn pool_option<'a>(alloc: Global) -> Arg<'a> {
    number_option(alloc, "pool", POOL_HELP, (LEAST_POOL, MOST_POOL), "16384").value_name("KIB")
}

/// The option for the number of the first stream.
fn first_option<'a>(alloc: Global) -> Arg<'a> {
    Arg::new(alloc, "first-stream")
        .long("first-stream")
        .value_name("N")
        .value_parser(ValueParser::unsigned(1, MOST_FIRST))
        .help(FIRST_HELP)
        .default_value("1")
}

/// The option that chooses a port. It may be given more than once.
fn port_option<'a>(alloc: Global) -> Arg<'a> {
    Arg::new(alloc, "port")
        .long("port")
        .value_name("PORT")
        .value_parser(ValueParser::unsigned(0, u64::from(u16::MAX)))
        .action(ArgAction::Append)
        .help(PORT_HELP)
}

/// The command as `clap` reads it, with its help.
fn command<'a>(alloc: Global) -> Result<Command<'a>, AllocError> {
    Command::new(alloc, "giopcap")
        .version("1.0.0")
        .about(ABOUT)
        .after_help(EXAMPLES)
        .arg(
            Arg::new(alloc, "signatures")
                .long("signatures")
                .value_name("FILE")
                .action(ArgAction::Append)
                .help(SIGNATURES_HELP),
        )?
        .arg(port_option(alloc))?
        .arg(number_option(
            alloc,
            "connections",
            CONNECTIONS_HELP,
            (1, MOST_KNOWN),
            "1024",
        ))?
        .arg(number_option(alloc, "open", OPEN_HELP, (1, MOST_OPEN), "16"))?
        .arg(number_option(alloc, "calls", CALLS_HELP, (1, MOST_KNOWN), "128"))?
        .arg(pool_option(alloc))?
        .arg(first_option(alloc))?
        .arg(Arg::new(alloc, "CAPTURE").help(CAPTURE_HELP))
}

/// The ports that are chosen; `clap` has checked their range. None if there are too many.
fn ports_of(matches: &ArgMatches) -> Option<ArrayVec<u16, 64>> {
    let mut ports = ArrayVec::new();
    let Some(given) = matches.get_many::<u16>("port") else {
        return Some(ports);
    };
    for port in given {
        ports.try_push(port.ok()?).ok()?;
    }
    Some(ports)
}

/// The signature files that are given. None if there are too many.
fn signatures_of<'a>(matches: &ArgMatches<'a>) -> Option<ArrayVec<&'a str, 16>> {
    let mut files = ArrayVec::new();
    for file in matches.get_strs("signatures").unwrap_or(&[]) {
        files.try_push(*file).ok()?;
    }
    Some(files)
}

/// The number that an argument gives, or the default if there is no argument. `clap` has checked the range.
fn number_or_default(word: Option<u32>, range: (u32, u32), default: u32) -> u32
    requires order { range.0 ≤ range.1 }
    requires within { (range.0 ≤ default) × (default ≤ range.1) }
    ensures range { (range.0 ≤ result) × (result ≤ range.1) }
    ensures word { (n : ℕ) → word ≡ Some n → range.0 ≤ n → n ≤ range.1 → result ≡ n }
    ensures missing { word ≡ None → result ≡ default }
{
    match word {
        None => default,
        Some(number) => number.max(range.0).min(range.1),
    }
}

/// The number of the first stream that an argument gives, or 1 if there is no argument. `clap` has checked the range.
fn first_stream_of(word: Option<u64>) -> u64
    ensures range { (1 ≤ result) × (result ≤ 10 ^ 18) }
    ensures word { (n : ℕ) → word ≡ Some n → 1 ≤ n → n ≤ 10 ^ 18 → result ≡ n }
    ensures missing { word ≡ None → result ≡ 1 }
{
    word.unwrap_or(1).clamp(1, MOST_FIRST)
}

/// The file of the capture, by its argument. If there is no argument, or it is `-`, there is no file: the capture is
/// standard input.
fn capture_name<'a>(word: Option<&'a str>) -> Option<&'a str>
    ensures standard { option_map (λ w. w.now) word.entry ≡ Some (codes "-") → result ≡ None }
    ensures file { option_map (λ w. w.now) word.entry ≢ Some (codes "-") → result ≡ word.entry }
{
    match word {
        Some("-") => None,
        word => word,
    }
}

impl<'a> Arguments<'a> {
    /// Parses the arguments. The first word is the program's name. An `Err` has the text to print and the status. It is
    /// also the answer to `--help` and `--version`, with status 0.
    pub fn read(alloc: Global, words: &'a [String]) -> Result<Arguments<'a>, Error> {
        // If something is wrong with the words, the error's text is made of the marked words.
        command(alloc)?.try_get_matches_from(words_with_stand_ins(alloc, words)?.as_slice())?;
        let mut command = command(alloc)?;
        let matches = command.try_get_matches_from_mut(words)?;
        let Some(ports) = ports_of(&matches) else {
            return Err(command.error(ErrorKind::TooManyValues, "more than 64 ports")?);
        };
        let Some(signatures) = signatures_of(&matches) else {
            return Err(command.error(ErrorKind::TooManyValues, "more than 16 signature files")?);
        };
        Ok(Arguments {
            signatures,
            ports,
            connections: number_or_default(
                matches.get_one("connections"),
                (1, MOST_KNOWN),
                DEFAULT_CONNECTIONS,
            ),
            messages: number_or_default(matches.get_one("open"), (1, MOST_OPEN), DEFAULT_OPEN),
            calls: number_or_default(matches.get_one("calls"), (1, MOST_KNOWN), DEFAULT_CALLS),
            pool: number_or_default(
                matches.get_one("pool"),
                (LEAST_POOL, MOST_POOL),
                DEFAULT_POOL,
            ),
            first_stream: first_stream_of(matches.get_one("first-stream")),
            capture: capture_name(matches.get_str("CAPTURE")),
        })
    }
}
