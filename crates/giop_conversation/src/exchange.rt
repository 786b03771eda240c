//! The calls of a connection, as the engine asks for them that reads a stream of the connection.

ghost use Rattle.std.specs.Prelude.{◌≡◌, ◌≤◌, [], None, length, IfOk, IfSome, MatchOption};
ghost use Rattle.std.specs.Option.{option_map};
ghost use Rattle.giop_print.specs.Output.{Writes};
ghost use Rattle.giop_sig.specs.Table.{Table};
ghost use Rattle.giop_message.specs.MessageState.{AreKnown};
ghost use Rattle.giop_conversation.specs.Lines.{time_line};
ghost use Rattle.giop_conversation.specs.Exchanges.{ExchangeView, kept_name, answer_of, kept_exception};

use crate::both_calls::BothCalls;
use crate::kept_second::KeptSecond;
use crate::lines::time_line_by_kept_second;
use arrayvec::ArrayVec;
use giop_calls::{Call, NAME_ROOM};
use giop_message::Correspondent;
use giop_print::{Line, Out, OutFault};
use giop_sig::{Catalogue, OpId};
use std::alloc::{AllocError, Global};
use std::marker::Model;
use tcp_waiting::Arrival;

/// A Reply that answers a call.
#[derive(Drop)]
pub struct Answering {
    /// The number of the Reply in its stream, from 1.
    pub message: u64,
    /// The call that it answers.
    pub call: Call,
}

/// A Reply that raises an exception.
#[derive(Drop)]
pub struct Raising {
    /// The number of the Reply in its stream, from 1.
    pub message: u64,
    /// The exception's name, its repository id.
    pub name: ArrayVec<u8, NAME_ROOM>,
}

/// The calls of both directions of a connection that have no reply yet. It is the correspondent of the stream that is read:
/// Requests in the stream add calls to its own, and Replies in it answer opposite calls.
#[derive(Drop)]
pub struct Exchange<'a> {
    catalogue: &'a Catalogue,
    calls: BothCalls,
    stream: u64,
    arrival: Arrival,
    replied: u64,
    // The last Reply that answers a call, and whether its line is still to be written.
    answering: Option<Answering>,
    is_answering: bool,
    // The last Reply that raises an exception, and whether its line is still to be written.
    raising: Option<Raising>,
    is_raising: bool,
    // The second of the last time that was written; at first the first second of 1970.
    second: KeptSecond,
    // Room for the line of a time. It is kept since room must be filled when it is made.
    line: Line,
}

impl<'a> Model for Exchange<'a> {
    ghost use Rattle.giop_conversation.specs.Exchanges.{ExchangeView};

    ghost Value = { ExchangeView };

    ghost use Rattle.std.specs.Prelude.{cond, None};
    ghost use Rattle.std.specs.Option.{option_map};

    ghost view = { λ e. record {
      table = e.catalogue.now;
      own = e.calls.own;
      opposite = e.calls.opposite;
      stream = e.stream;
      arrival = e.arrival;
      replied = e.replied;
      answered = cond e.is_answering
          (option_map (λ a. record { message = a.message; call = a.call }) e.answering) None;
      raised = cond e.is_raising
          (option_map (λ r. record { message = r.message; name = r.name.items }) e.raising) None;
    } };
}

impl<'a> Exchange<'a> {
    /// Makes an exchange without calls, with memory for this number of calls in each direction.
    pub fn new(
        alloc: Global,
        catalogue: &'a Catalogue,
        most: u32,
    ) -> Result<Exchange<'a>, AllocError>
        ensures { IfOk result (λ e. e ≡ record {
          table = catalogue.now;
          own = record { most = most; entries = [] };
          opposite = record { most = most; entries = [] };
          stream = 0;
          arrival = record { time = None; packet = 0 };
          replied = 0;
          answered = None;
          raised = None;
        }) }
    {
        Ok(Exchange {
            catalogue,
            calls: BothCalls::new(alloc, most)?,
            stream: 0,
            arrival: Arrival {
                time: None,
                packet: 0,
            },
            replied: 0,
            answering: None,
            is_answering: false,
            raising: None,
            is_raising: false,
            second: KeptSecond::new(),
            line: Line::new(),
        })
    }

    /// Sets the catalogue: from now on the operations of these types are answered.
    pub fn set_catalogue(&mut self, catalogue: &'a Catalogue)
        ensures { self.new ≡ record self.old { table = catalogue.now } }
    {
        self.catalogue = catalogue;
    }

    /// Turns to the other direction: from now on a stream of that is read.
    pub fn swap_directions(&mut self)
        ensures { self.new ≡ record self.old { own = self.old.opposite; opposite = self.old.own } }
    {
        self.calls.swap_directions();
    }

    /// Notes the number of the stream that is read, and the packet in which its next octets came.
    pub fn note_packet(&mut self, stream: u64, arrival: Arrival)
        ensures { self.new ≡ record self.old {
          stream = stream;
          arrival = arrival;
          replied = 0;
          answered = None;
          raised = None;
        } }
    {
        self.stream = stream;
        self.arrival = arrival;
        self.replied = 0;
        self.forget_reply();
    }

    /// The number of the last Reply whose header has ended in the octets that were read since `note_packet`; 0 if
    /// there is none.
    pub fn replied(&self) -> u64
        ensures { result ≡ self.now.replied }
    {
        self.replied
    }

    /// The call that the last Reply answers, if it answers one and `forget_reply` wasn't called since.
    pub fn answering(&self) -> Option<&Answering>
        ensures { option_map (λ a. record { message = a.now.message; call = a.now.call }) result
            ≡ self.now.answered }
    {
        if self.is_answering {
            self.answering.as_ref()
        } else {
            None
        }
    }

    /// The last exception that a Reply raises, if there is one and `forget_reply` wasn't called since.
    pub fn raising(&self) -> Option<&Raising>
        ensures { option_map
            (λ r. record { message = r.now.message; name = r.now.name.items }) result
            ≡ self.now.raised }
    {
        if self.is_raising {
            self.raising.as_ref()
        } else {
            None
        }
    }

    /// Forgets which call the last Reply answers, and which exception it raises.
    pub fn forget_reply(&mut self)
        ensures { self.new ≡ record self.old { answered = None; raised = None } }
    {
        self.is_answering = false;
        self.is_raising = false;
    }

    /// Writes the line that says when the header of the message of this number was complete, in the stream that is read.
    #[inline]
    pub(crate) fn write_time<O: Out>(
        &mut self,
        message: u64,
        arrival: &Arrival,
        out: &mut O,
    ) -> Result<(), OutFault>
        ensures kept { self.new ≡ self.old }
        ensures text { Writes result (O.log out.old) (O.log out.new)
            (time_line message arrival.now) }
    {
        time_line_by_kept_second(&mut self.second, &mut self.line, out, message, arrival)
    }

    /// Forgets the calls of the stream that is read. Their memory is kept.
    pub fn forget_own_calls(&mut self)
        ensures { self.new ≡ record self.old { own = record self.old.own { entries = [] } } }
    {
        self.calls.forget_all_own();
    }
}

/// The name by which a call is kept, if it is kept: a reply is expected, and the name has at most 128 octets.
fn kept_name(name: Option<&[u8]>, expects_reply: bool) -> Option<&[u8]>
    ensures value { option_map (λ x. x.now) result
        ≡ kept_name (option_map (λ x. x.now) name.entry) expects_reply }
    ensures short { IfSome result (λ x. length x.now ≤ 128) }
{
    match name {
        Some(name) => {
            if expects_reply && name.len() <= NAME_ROOM {
                Some(name)
            } else {
                None
            }
        }
        None => None,
    }
}

/// What is kept of an exception that a Reply of this number raises, if its name has at most 128 octets.
fn kept_exception(number: u64, name: &[u8]) -> Option<Raising>
    ensures { option_map (λ r. record { message = r.message; name = r.name.items }) result
        ≡ kept_exception number name.now }
{
    let mut kept = ArrayVec::new();
    if kept.try_extend_from_slice(name).is_err() {
        return None;
    }
    Some(Raising {
        message: number,
        name: kept,
    })
}

/// The number of an operation.
fn operation_number(operation: Option<OpId>) -> Option<u32>
    ensures { result ≡ option_map (λ o. o.0) operation }
{
    Some(operation?.0)
}

impl<'a> Correspondent for Exchange<'a> {
    ghost use Rattle.std.specs.Prelude.{true};
    ghost use Rattle.giop_conversation.specs.Exchanges.{ExchangeView, answer_of, notified, is_reply_line_due};
    ghost use Rattle.giop_conversation.specs.ExchangeLaws.{known_still};

    ghost State = { ExchangeView };

    ghost state = { λ e. e };

    ghost answer = { answer_of };

    ghost notified = { notified };

    ghost due = { is_reply_line_due };

    ghost awaits_messages = { true };

    fn operation(&self, id: u32) -> Option<OpId> {
        let call = self.calls.find_opposite(id)?;
        let operation = OpId(call.operation?);
        if self.catalogue.has_operation(operation) {
            Some(operation)
        } else {
            None
        }
    }

    fn on_call(
        &mut self,
        number: u64,
        id: u32,
        name: Option<&[u8]>,
        operation: Option<OpId>,
        expects_reply: bool,
    ) {
        match kept_name(name, expects_reply) {
            Some(name) => {
                let mut kept = ArrayVec::new();
                kept.try_extend_from_slice(name).unwrap();
                let call = Call {
                    name: kept,
                    operation: operation_number(operation),
                    stream: self.stream,
                    message: number,
                    time: self.arrival.time,
                };
                self.calls.add_own(id, call);
            }
            None => self.calls.forget_own(id),
        }
    }

    fn on_answer(&mut self, number: u64, id: u32) {
        self.replied = number;
        match self.calls.take_opposite(id) {
            Some(call) => {
                self.answering = Some(Answering {
                    message: number,
                    call,
                });
                self.is_answering = true;
            }
            None => self.is_answering = false,
        }
    }

    fn on_exception(&mut self, number: u64, name: &[u8]) {
        self.raising = kept_exception(number, name);
        self.is_raising = true;
    }

    /// Whether a Reply waits for its lines to be written: it answers a call, or raises an exception.
    fn is_due(&self) -> bool {
        self.answering().is_some() || self.raising().is_some()
    }

    fn awaits_messages(&self) -> bool {
        true
    }

    ghost known = { known_still };
}

/// Each operation that an exchange answers is an operation of its catalogue.
pub fn answers_are_known()
    ensures { (s : ExchangeView) → AreKnown s.table (answer_of s) }
{}
