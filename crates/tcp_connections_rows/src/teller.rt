//! A listener that writes what it is told, a line each.

ghost use Rattle.std.specs.Prelude.{◌≡◌, OnErr, true};
ghost use Rattle.tcp_connections_rows.specs.Readers.{fault_in, plain_reader};

use crate::endpoint::shown;
use std::fmt;
use tcp_flow::{CloseCause, Listener, ListenerError, Start};
use tcp_segment::Flow;
use tcp_waiting::Arrival;

/// What is told of the flow of an id, or of octets in which no stream begins.
#[derive(Clone, Copy)]
enum Told<'a> {
    Opens(u32, Flow),
    Begins(u32, Start),
    Delivers(u32, &'a [u8]),
    Closes(u32, CloseCause),
    Passes(&'a [u8]),
}

impl fmt::Display for Told<'_> {
    fn fmt<W: fmt::Write>(&self, f: &mut fmt::Formatter<W>) -> fmt::Result {
        match *self {
            Told::Opens(id, flow) => {
                let from = shown(flow.from);
                let to = shown(flow.to);
                write!(f, "opens {id} {from} > {to}")
            }
            Told::Begins(id, start) => write_start(f, id, start),
            Told::Delivers(id, octets) => {
                write!(f, "delivers {id} ")?;
                write_octets(f, octets)
            }
            Told::Closes(id, cause) => write!(f, "closes {id} {}", cause_word(cause)),
            Told::Passes(octets) => {
                write!(f, "passes ")?;
                write_octets(f, octets)
            }
        }
    }
}

/// Writes the beginning of a stream: its number, and where it holds, how many octets are in no stream and that it is found.
fn write_start<W: fmt::Write>(f: &mut fmt::Formatter<W>, id: u32, start: Start) -> fmt::Result {
    write!(f, "begins {id} {}", start.number)?;
    if start.passed != 0 {
        write!(f, " passed {}", start.passed)?;
    }
    if start.is_found {
        write!(f, " found")?;
    }
    Ok(())
}

/// Writes octets in hexadecimal text.
fn write_octets<W: fmt::Write>(f: &mut fmt::Formatter<W>, octets: &[u8]) -> fmt::Result {
    for octet in octets {
        write!(f, "{octet:02x}")?;
    }
    Ok(())
}

/// The word of why a stream closes.
fn cause_word(cause: CloseCause) -> &'static str {
    match cause {
        CloseCause::Fin => "fin",
        CloseCause::Reset => "reset",
        CloseCause::Syn => "syn",
        CloseCause::Fault => "fault",
        CloseCause::Gap => "gap",
        CloseCause::Room => "room",
        CloseCause::End => "end",
    }
}

/// Where a reader of a stream is at a fault: at its 13th octet, where what it is given begins with the octet 255.
fn fault_at(octets: &[u8]) -> Option<u64>
    ensures { result ≡ fault_in octets.now }
{
    if !octets.is_empty() && octets[0] == 255 {
        return Some(13);
    }
    None
}

/// Writes what it is told. It fails where it may be told no more, or has no memory.
#[derive(Drop)]
pub struct Teller {
    pub told: String,
    pub left: usize,
    pub has_failed: bool,
}

impl Teller {
    fn tell(&mut self, told: Told<'_>) -> Result<(), ListenerError>
        ensures { OnErr result (self.new.has_failed ≡ true) }
    {
        if self.left > 0 && writeln!(self.told, "{told}").is_ok() {
            self.left -= 1;
            return Ok(());
        }
        self.has_failed = true;
        Err(ListenerError)
    }
}

impl Listener for Teller {
    ghost observed = { λ s events. Unit {0} };

    ghost failed = { λ s. s.has_failed ≡ true };

    ghost reader = { plain_reader };

    fn on_new_flow(&mut self, flow: u32, endpoints: Flow) -> Result<(), ListenerError> {
        self.tell(Told::Opens(flow, endpoints))
    }

    fn on_arrival(&mut self, _arrival: Arrival) {}

    fn on_looked_through(&mut self, octets: &[u8]) {
        // It can't say that it fails: it does at what is told next.
        let _told = self.tell(Told::Passes(octets));
    }

    fn on_begin(&mut self, flow: u32, start: Start) -> Result<(), ListenerError> {
        self.tell(Told::Begins(flow, start))
    }

    fn on_octets(&mut self, flow: u32, octets: &[u8]) -> Result<Option<u64>, ListenerError> {
        self.tell(Told::Delivers(flow, octets))?;
        Ok(fault_at(octets))
    }

    fn message_lacks(&mut self, _flow: u32) -> Result<Option<u32>, ListenerError> {
        Ok(None)
    }

    fn on_close(&mut self, flow: u32, cause: CloseCause) -> Result<(), ListenerError> {
        self.tell(Told::Closes(flow, cause))
    }
}
