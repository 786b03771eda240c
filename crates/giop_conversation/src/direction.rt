//! One direction of a connection: the engine that reads its streams, and the number of its last stream.

ghost use Rattle.std.specs.Prelude.{◌≡◌, ◌≤◌, ◌<◌, ◌++◌, ℕ, List, [], length, take, Some, None, true, false, IfOk, OnOk, MatchResult, if◌then◌else◌};
ghost use Rattle.std.specs.Option.{option_map};
ghost use Rattle.giop_print.specs.Output.{Writes, WroteFront};
ghost use Rattle.giop_sig.specs.Table.{Table};
ghost use Rattle.giop_message.specs.Signatures.{Answers};
ghost use Rattle.giop_message.specs.HeaderEnds.{after_ends};
ghost use Rattle.giop_message.specs.MessageState.{AreKnown};
ghost use Rattle.giop_stream.specs.Rules.{most_open};
ghost use Rattle.giop_stream.specs.Framing.{cut, fault_of, lacking};
ghost use Rattle.giop_stream.specs.HeaderEndsOfStream.{header_ends_from};
ghost use Rattle.giop_stream.specs.Stream.{closing, final};
ghost use Rattle.giop_stream.specs.EngineHolds.{IsRequestTableOf, HoldsBy, added, rules_with, status_of};
ghost use Rattle.giop_conversation.specs.Tags.{with_tags, stream_tag as spec_stream_tag};
ghost use Rattle.giop_conversation.specs.Lines.{closed_line as spec_closed_line};
ghost use Rattle.giop_conversation.specs.TaggedState.{tagging_log, IsReady, WroteTaggedFront};
ghost use Rattle.giop_message.specs.DueOctets.{TakesFront};
ghost use Rattle.giop_stream.specs.DueOctets.{begun_in};
ghost use Rattle.giop_conversation.specs.Exchanges.{answer_of, notified, is_reply_line_due};
ghost use Rattle.giop_conversation.specs.Stamped.{stamped, after_octets, reply_forgotten, due_time_line, due_answers_line, due_raises_line, begin_lines};
ghost use Rattle.giop_conversation.specs.StreamReads.{AgreeWith, NoLineDueAfter, HasSameSetup, ReadAndWroteThrough, ReadAndWroteBelow, WritesTagged, exchange_for_reading};
ghost use Rattle.giop_conversation.specs.Failing.{FailsByPut};
ghost use Rattle.giop_conversation.specs.Directions.{HasRead, fault_place};

use crate::exchange::{Answering, Exchange, Raising, answers_are_known};
use crate::lines::{Opening, answers_line, closed_line, raises_line, stream_line};
use crate::tag::{Tag, stream_tag};
use crate::tagged::Tagged;
use giop_message::Correspondent;
use giop_print::{Out, OutFault};
use giop_sig::{Catalogue, Requests};
use giop_stream::{Engine, Fed, NewError, Status, Totals, answers_agree, answers_go_on};
use std::alloc::Global;
use std::marker::Model;
use tcp_flow::CloseCause;
use tcp_segment::Flow;
use tcp_waiting::Arrival;

/// One direction of a connection. Its engine is never one that has failed: if a put fails, the engine starts anew and
/// forgets its stream.
#[derive(Drop)]
pub struct Direction<'a> {
    catalogue: &'a Catalogue,
    engine: Engine<'a>,
    stream: u64,
    // Whether that stream lives.
    live: bool,
    // The tag of the stream's lines.
    tag: Tag,
    flow: Option<Flow>,
}

impl<'a> Model for Direction<'a> {
    ghost use Rattle.giop_conversation.specs.Directions.{DirectionView};

    ghost Value = { DirectionView };

    ghost view = { λ d. record {
      engine = d.engine;
      stream = d.stream;
      is_live = d.live;
      flow = d.flow;
    } };

    ghost use Rattle.std.specs.Prelude.{◌≡◌};
    ghost use Rattle.giop_conversation.specs.Tags.{stream_tag};
    ghost use Rattle.giop_conversation.specs.Directions.{IsReading};

    ghost invariant = { λ d. IsReading d.catalogue.now d.engine × (d.tag ≡ stream_tag d.stream) };
}

impl<'a> Direction<'a> {
    /// Makes a direction in which no stream has begun, with memory for this number of open messages.
    pub fn new(
        alloc: Global,
        catalogue: &'a Catalogue,
        requests: &'a Requests,
        messages: u32,
    ) -> Result<Direction<'a>, NewError>
        requires of { IsRequestTableOf catalogue.now requests.now }
        requires range { (1 ≤ messages) × (messages ≤ most_open) }
        ensures read { IfOk result (λ d. HasRead d.engine []) }
        ensures holds { (a : Answers) → IfOk result (λ d. HoldsBy d.engine a []) }
        ensures table { IfOk result (λ d. d.engine.table ≡ catalogue.now) }
        ensures most { IfOk result (λ d. d.engine.most ≡ messages) }
        ensures stream { IfOk result (λ d. d.stream ≡ 0) }
        ensures live { IfOk result (λ d. d.is_live ≡ false) }
        ensures flow { IfOk result (λ d. d.flow ≡ None) }
    {
        answers_agree();
        Ok(Direction {
            catalogue,
            engine: Engine::new(alloc, catalogue, requests, messages)?,
            stream: 0,
            live: false,
            tag: stream_tag(0),
            flow: None,
        })
    }

    /// The number of its stream, if the stream lives.
    pub fn live_stream(&self) -> Option<u64>
        ensures { result ≡ (if self.now.is_live then Some self.now.stream else None) }
    {
        if self.live { Some(self.stream) } else { None }
    }

    /// Notes the flow that this direction has: who sends to whom.
    pub fn set_flow(&mut self, flow: Flow)
        ensures { self.new ≡ record self.old { flow = Some flow } }
    {
        self.flow = Some(flow);
    }

    /// Begins a stream of this number, and writes its first line.
    pub fn begin<O: Out>(
        &mut self,
        stream: u64,
        opening: Opening,
        out: &mut Tagged<O>,
    ) -> Result<(), OutFault>
        ensures read { HasRead self.new.engine [] }
        // After this the engine has read nothing, by any answers to the ids of its messages. Its types and its limit stay.
        ensures holds { (a : Answers) → HoldsBy self.new.engine a [] }
        ensures same { HasSameSetup self.new.engine self.old.engine }
        ensures stream { self.new.stream ≡ stream }
        ensures live { self.new.is_live ≡ true }
        ensures flow { self.new.flow ≡ self.old.flow }
        ensures fails { FailsByPut result out.old out.new }
        // After this the text below ends in the stream's first line, with the tag of the stream. After a failure it ends in
        // a front of that line.
        ensures text { (w : List ℕ) → IsReady out.old w →
            WritesTagged result out.new w (spec_stream_tag stream)
            (begin_lines self.old.flow opening) }
    {
        self.engine.restart();
        self.stream = stream;
        self.live = true;
        self.tag = stream_tag(stream);
        out.set_tag(self.tag.copied());
        write_stream_line(self.flow, opening, out)
    }

    /// Reads a piece of the stream up to the first octet after which a line of the conversation is due, and writes the
    /// lines of the stream that these octets complete.
    fn feed_until_due<O: Out>(
        &mut self,
        exchange: &mut Exchange<'a>,
        piece: &[u8],
        out: &mut Tagged<O>,
    ) -> Result<Fed, OutFault>
        requires known { AreKnown self.old.engine.table (answer_of exchange.old) }
        ensures known { AreKnown self.new.engine.table (answer_of exchange.new) }
        // The stream has grown by the octets that were read.
        ensures read { (p : List ℕ) → HasRead self.old.engine p →
            IfOk result (λ fed. HasRead self.new.engine (p ++ take fed.count piece.now)) }
        ensures begun { (p : List ℕ) → HasRead self.old.engine p →
            IfOk result (λ fed. fed.begun ≡ begun_in p (take fed.count piece.now)) }
        ensures status { (p : List ℕ) → HasRead self.old.engine p →
            IfOk result (λ fed. fed.status
            ≡ status_of (fault_of (cut (p ++ take fed.count piece.now)).stop)) }
        // If answers agree with the calls, the calls are afterwards those after the octets.
        ensures come { (a : Answers) (p : List ℕ) → HoldsBy self.old.engine a p →
            AgreeWith self.old.engine a exchange.old p piece.now →
            IfOk result (λ fed. HoldsBy self.new.engine a (p ++ take fed.count piece.now)
            × (exchange.new ≡ after_ends notified self.old.engine.table exchange.old
            (header_ends_from (rules_with self.old.engine a) p (take fed.count piece.now)))) }
        // What the octets add to the text is written, or after a failure a front of it. A line of the conversation is due
        // at most after the last of them.
        ensures text { (a : Answers) (p : List ℕ) → HoldsBy self.old.engine a p →
            AgreeWith self.old.engine a exchange.old p piece.now →
            is_reply_line_due exchange.old ≡ false →
            TakesFront (λ fed. fed.count) (NoLineDueAfter self.old.engine a exchange.old p)
            (λ octets. Writes result (tagging_log out.old) (tagging_log out.new)
            (added (rules_with self.old.engine a) p octets)) result piece.now }
        ensures some { 0 < length piece.now → IfOk result (λ fed. 0 < fed.count) }
        ensures within { IfOk result (λ fed. fed.count ≤ length piece.now) }
        ensures same { HasSameSetup self.new.engine self.old.engine }
        ensures fails { FailsByPut result out.old out.new }
        ensures stream { self.new.stream ≡ self.old.stream }
        ensures live { self.new.is_live ≡ self.old.is_live }
        ensures flow { self.new.flow ≡ self.old.flow }
    {
        answers_agree();
        answers_go_on::<Exchange<'a>>();
        match self.engine.feed_by(exchange, piece, out) {
            Ok(fed) => Ok(fed),
            Err(_) => {
                self.engine.restart();
                Err(OutFault)
            }
        }
    }

    /// Reads some of the next octets of the stream, the first ones, and writes the lines that are due after each of them.
    /// Returns how many it has read, and whether the stream is running after them.
    fn read_until_due<O: Out>(
        &mut self,
        exchange: &mut Exchange<'a>,
        octets: &[u8],
        arrival: &Arrival,
        out: &mut Tagged<O>,
    ) -> Result<(usize, Status), OutFault>
        requires known { AreKnown self.old.engine.table (answer_of exchange.old) }
        ensures known { AreKnown self.new.engine.table (answer_of exchange.new) }
        ensures within { IfOk result (λ r. r.0 ≤ length octets.now) }
        ensures some { 0 < length octets.now → IfOk result (λ r. 0 < r.0) }
        ensures read { (p : List ℕ) → HasRead self.old.engine p →
            IfOk result (λ r. HasRead self.new.engine (p ++ take r.0 octets.now)) }
        ensures status { (p : List ℕ) → HasRead self.old.engine p →
            IfOk result (λ r. r.1 ≡ status_of (fault_of (cut (p ++ take r.0 octets.now)).stop)) }
        // By answers that agree with the calls, the lines of the octets that it has read are written. After a failure a
        // front of the lines of all octets is written.
        ensures text { (a : Answers) (p : List ℕ) → HoldsBy self.old.engine a p →
            AgreeWith self.old.engine a exchange.old p octets.now →
            exchange.old.table ≡ self.old.engine.table → exchange.old.arrival ≡ arrival.now →
            exchange.old.answered ≡ None → exchange.old.raised ≡ None →
            MatchResult result
            (λ r. ReadAndWroteThrough self.new.engine a (p ++ take r.0 octets.now) out.old out.new
            (stamped (rules_with self.old.engine a) exchange.old p (take r.0 octets.now))
            exchange.new
            (after_octets (rules_with self.old.engine a) exchange.old p (take r.0 octets.now)))
            (λ _. WroteFront (tagging_log out.old) (tagging_log out.new)
            (stamped (rules_with self.old.engine a) exchange.old p octets.now)) }
        ensures same { HasSameSetup self.new.engine self.old.engine }
        ensures fails { FailsByPut result out.old out.new }
        ensures stream { self.new.stream ≡ self.old.stream }
        ensures live { self.new.is_live ≡ self.old.is_live }
        ensures flow { self.new.flow ≡ self.old.flow }
    {
        let fed = self.feed_until_due(exchange, octets, out)?;
        write_due(exchange, fed.begun, arrival, out)?;
        Ok((fed.count, fed.status))
    }

    /// Reads octets of the stream, which came in this packet, and writes the lines that they complete. If the stream has a
    /// stream fault, returns the number of the octet at which it has it, from 1; nothing after that octet is read.
    pub fn read<O: Out>(
        &mut self,
        exchange: &mut Exchange<'a>,
        octets: &[u8],
        arrival: &Arrival,
        out: &mut Tagged<O>,
    ) -> Result<Option<u64>, OutFault>
        // The stream has grown by the octets.
        ensures read { (p : List ℕ) → HasRead self.old.engine p →
            OnOk result (HasRead self.new.engine (p ++ octets.now)) }
        ensures fault { (p : List ℕ) → HasRead self.old.engine p →
            IfOk result (λ at. at ≡ fault_place (cut (p ++ octets.now)).stop) }
        // By answers that agree with the calls of the connection, the text below ends in the lines of the octets, each with
        // the tag of the stream, and the calls are those after the octets. After a failure the text ends in a front of
        // those lines.
        ensures text { (a : Answers) (p w : List ℕ) → HoldsBy self.old.engine a p →
            IsReady out.old w →
            (let calls = exchange_for_reading self.old.engine self.old.stream arrival.now
            exchange.old in
            let lines = stamped (rules_with self.old.engine a) calls p octets.now in
            let tag = spec_stream_tag self.old.stream in
            AgreeWith self.old.engine a calls p octets.now →
            MatchResult result
            (λ _. ReadAndWroteBelow self.new.engine a (p ++ octets.now) out.new
            (w ++ with_tags tag lines)
            exchange.new (after_octets (rules_with self.old.engine a) calls p octets.now))
            (λ _. WroteTaggedFront out.new w tag lines)) }
        ensures same { HasSameSetup self.new.engine self.old.engine }
        ensures fails { FailsByPut result out.old out.new }
        ensures stream { self.new.stream ≡ self.old.stream }
        ensures live { self.new.is_live ≡ self.old.is_live }
        ensures flow { self.new.flow ≡ self.old.flow }
    {
        answers_are_known();
        // The exchange gets the catalogue of the engine, so each operation that is answered is in the engine's catalogue.
        exchange.set_catalogue(self.catalogue);
        exchange.note_packet(self.stream, *arrival);
        out.set_tag(self.tag.copied());
        let mut at = 0;
        loop {
            let (size, status) = self.read_until_due(exchange, &octets[at..], arrival, out)?;
            at += size;
            if at >= octets.len() {
                return Ok(self.fault_place(status));
            }
        }
    }

    /// The number of the octet at which the stream has a stream fault, from 1, if its status says that it has one.
    fn fault_place(&self, status: Status) -> Option<u64>
        ensures { (p : List ℕ) → HasRead self.now.engine p →
            status ≡ status_of (fault_of (cut p).stop) → result ≡ fault_place (cut p).stop }
    {
        match status {
            Status::Running => None,
            Status::Stopped(_) => Some(self.engine.totals().octets),
        }
    }

    /// How many octets are missing until the end of the message that the stream is in, if the message's header is complete.
    /// It is 0 between two messages.
    pub fn lacking(&self) -> Option<u32>
        ensures { (p : List ℕ) → HasRead self.now.engine p → result ≡ lacking (cut p) }
    {
        self.engine.lacking()
    }

    /// Notes that the stream lives no more.
    pub fn mark_ended(&mut self)
        ensures { self.new ≡ record self.old { is_live = false } }
    {
        self.live = false;
    }

    /// Writes why the stream closes, and its closing. Returns the totals of the stream.
    pub fn write_close<O: Out>(
        &self,
        cause: CloseCause,
        out: &mut Tagged<O>,
    ) -> Result<Totals, OutFault>
        ensures fails { FailsByPut result out.old out.new }
        // After this the text below ends in the line that says why the stream closes, and then the closing, each line with
        // the tag of the stream. After a failure it ends in a front of these lines.
        ensures text { (a : Answers) (p w : List ℕ) → HoldsBy self.now.engine a p →
            IsReady out.old w →
            WritesTagged result out.new w (spec_stream_tag self.now.stream)
            (spec_closed_line cause ++ closing (rules_with self.now.engine a) p) }
        ensures totals { (a : Answers) (p : List ℕ) → HoldsBy self.now.engine a p →
            IfOk result (λ t. t ≡ final (rules_with self.now.engine a) p) }
    {
        out.set_tag(self.tag.copied());
        closed_line(out, cause)?;
        match self.engine.close(out) {
            Ok(totals) => Ok(totals),
            Err(_) => Err(OutFault),
        }
    }
}

/// Writes the line with which a stream begins, if it is known who sends to whom.
fn write_stream_line<O: Out>(
    flow: Option<Flow>,
    opening: Opening,
    out: &mut O,
) -> Result<(), OutFault>
    ensures { Writes result (O.log out.old) (O.log out.new) (begin_lines flow opening) }
{
    match flow {
        Some(flow) => stream_line(out, flow, opening),
        None => Ok(()),
    }
}

/// Writes when the message of this number began, if there is one.
#[inline]
fn write_time<O: Out>(
    exchange: &mut Exchange<'_>,
    begun: Option<u64>,
    arrival: &Arrival,
    out: &mut O,
) -> Result<(), OutFault>
    ensures kept { exchange.new ≡ exchange.old }
    ensures text { Writes result (O.log out.old) (O.log out.new) (due_time_line begun arrival.now) }
{
    match begun {
        Some(message) => exchange.write_time(message, arrival, out),
        None => Ok(()),
    }
}

/// Writes which call a Reply answers, if it answers one.
fn write_answered<O: Out>(
    answered: Option<&Answering>,
    time: Option<u128>,
    out: &mut O,
) -> Result<(), OutFault>
    ensures { Writes result (O.log out.old) (O.log out.new) (due_answers_line
        (option_map (λ a. record { message = a.now.message; call = a.now.call }) answered.entry)
        time) }
{
    match answered {
        Some(answered) => answers_line(out, answered.message, &answered.call, time),
        None => Ok(()),
    }
}

/// Writes which exception a Reply raises, if it raises one.
fn write_raised<O: Out>(raised: Option<&Raising>, out: &mut O) -> Result<(), OutFault>
    ensures { Writes result (O.log out.old) (O.log out.new) (due_raises_line
        (option_map (λ r. record { message = r.now.message; name = r.now.name.items })
        raised.entry)) }
{
    match raised {
        Some(raised) => raises_line(out, raised.message, raised.name.as_slice()),
        None => Ok(()),
    }
}

/// Writes which call a Reply answers, if it answers one, and then which exception it raises, if it raises one.
fn write_reply<O: Out>(
    exchange: &Exchange<'_>,
    time: Option<u128>,
    out: &mut O,
) -> Result<(), OutFault>
    ensures { Writes result (O.log out.old) (O.log out.new)
        (due_answers_line exchange.now.answered time ++ due_raises_line exchange.now.raised) }
{
    match write_answered(exchange.answering(), time, out) {
        Ok(()) => write_raised(exchange.raising(), out),
        Err(fault) => Err(fault),
    }
}

/// Writes when a message began, if one did, then which call a Reply answers, and then which exception a Reply raises.
fn write_all_due<O: Out>(
    exchange: &mut Exchange<'_>,
    begun: Option<u64>,
    arrival: &Arrival,
    out: &mut Tagged<O>,
) -> Result<(), OutFault>
    ensures kept { exchange.new ≡ exchange.old }
    ensures fails { FailsByPut result out.old out.new }
    ensures text { Writes result (tagging_log out.old) (tagging_log out.new)
        (due_time_line begun arrival.now
        ++ (due_answers_line exchange.old.answered arrival.now.time
        ++ due_raises_line exchange.old.raised)) }
{
    match write_time(exchange, begun, arrival, out) {
        Ok(()) => write_reply(exchange, arrival.time, out),
        Err(fault) => Err(fault),
    }
}

/// Writes the lines that are due after the octets that were read. Forgets which call the last Reply answers, and which
/// exception it raises.
fn write_due<O: Out>(
    exchange: &mut Exchange,
    begun: Option<u64>,
    arrival: &Arrival,
    out: &mut Tagged<O>,
) -> Result<(), OutFault>
    ensures taken { exchange.new ≡ reply_forgotten exchange.old }
    ensures fails { FailsByPut result out.old out.new }
    ensures text { Writes result (tagging_log out.old) (tagging_log out.new)
        (due_time_line begun arrival.now
        ++ (due_answers_line exchange.old.answered arrival.now.time
        ++ due_raises_line exchange.old.raised)) }
{
    if !exchange.is_due() {
        return write_time(exchange, begun, arrival, out);
    }
    let written = write_all_due(exchange, begun, arrival, out);
    exchange.forget_reply();
    written
}
