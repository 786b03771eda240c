//! One flow of a TCP connection, from its first stream on: what is known of it, and the listener to
//! what happens in it.

ghost use Rattle.std.specs.Prelude.{◌≡◌, ◌<◌, ◌∷◌, ◌++◌, [], List, length};
ghost use Rattle.std.specs.Prelude.{IfOk, IfSome, OnErr, OnOk};
ghost use Rattle.tcp_flow.specs.Flow.{is_header as spec_is_header, index_of_header as spec_index_of_header};

use crate::tail::Tail;
use tcp_segment::Flow as Endpoints;
use tcp_waiting::{Arrival, Pool, WINDOW, ahead};

/// Why a stream closed.
#[derive(Clone, Copy, Debug, Drop, PartialEq, Eq)]
pub enum CloseCause {
    /// Its FIN was reached.
    Fin,
    /// A RST came.
    Reset,
    /// A SYN began its connection anew.
    Syn,
    /// Its reader is at a fault.
    Fault,
    /// Octets of it are missing.
    Gap,
    /// Its connection made room for another.
    Room,
    /// The capture ended.
    End,
}

/// How a stream begins.
#[derive(Clone, Copy, Debug, Drop, PartialEq, Eq)]
pub struct Start {
    /// The sequence number of its first octet.
    pub number: u32,
    /// How many octets before it are in no stream, modulo 2^32. They are counted from the end of
    /// the flow's last stream, or from its first payload.
    pub passed: u32,
    /// Whether its beginning was looked for: the flow didn't wait for it, and octets before it are
    /// in no stream or the flow had a stream before it. It is also true if an earlier stream of the
    /// flow was found.
    pub is_found: bool,
}

/// A listener couldn't go on, as what it writes to failed. Nothing is promised of what comes after.
#[derive(Clone, Copy, Debug, Drop, PartialEq, Eq)]
pub struct ListenerError;

/// Is told what happens in flows. A flow is named by its id.
pub trait Listener {
    ghost use Rattle.tcp_flow.specs.Flow.{Event, Opens, Begins, Delivers, Closes, Reader};
    ghost use Rattle.tcp_flow.specs.Flow.{OfCapture, ComesFrom, Passes};

    /// The listener has observed these events of all flows and of the capture. This is a relation,
    /// so that a listener may forget what it observed.
    ghost observed: { Self → List Event → Type 0 };

    /// The listener has failed: what it writes to failed, or the like. Nothing is promised from
    /// then on.
    ghost failed: { Self → Type 0 };

    /// What the reader of the streams says after these events: at which octet of the stream that
    /// was delivered to last it is at a fault, and how many octets the message lacks that a stream
    /// is in.
    ghost reader: { Reader };

    /// The id stands for the flow between these endpoints from now on. Nothing has come for that
    /// flow.
    fn on_new_flow(&mut self, flow: u32, endpoints: Endpoints) -> Result<(), ListenerError>
        ensures does { (events : List Event) → observed self.old events
            → OnOk result (observed self.new (events ++ Opens flow endpoints ∷ [])) }
        ensures cause { OnErr result (failed self.new) };

    /// What is told next of any flow came in this packet.
    fn on_arrival(&mut self, arrival: Arrival)
        ensures { (events : List Event) → observed self.old events
            → observed self.new (events ++ OfCapture (ComesFrom arrival) ∷ []) };

    /// These octets were looked through, and no stream begins in them.
    fn on_looked_through(&mut self, octets: &[u8])
        ensures { (events : List Event) → observed self.old events
            → observed self.new (events ++ OfCapture (Passes octets.now) ∷ []) };

    /// A stream of a flow begins.
    fn on_begin(&mut self, flow: u32, start: Start) -> Result<(), ListenerError>
        ensures does { (events : List Event) → observed self.old events
            → OnOk result (observed self.new (events ++ Begins flow start ∷ [])) }
        ensures cause { OnErr result (failed self.new) };

    /// The next octets of a flow's live stream. If the stream's reader is at a fault, the answer is
    /// at which octet of the stream, counted from 1.
    fn on_octets(&mut self, flow: u32, octets: &[u8]) -> Result<Option<u64>, ListenerError>
        ensures does { (events : List Event) → observed self.old events → IfOk result (λ fault.
            observed self.new (events ++ Delivers flow octets.now ∷ [])
            × (fault ≡ reader.faulted (events ++ Delivers flow octets.now ∷ []))) }
        ensures cause { OnErr result (failed self.new) };

    /// How many octets the message lacks that a flow's last stream is in, if its header is
    /// complete; 0 if the stream is in no message.
    fn message_lacks(&mut self, flow: u32) -> Result<Option<u32>, ListenerError>
        ensures does { (events : List Event) → observed self.old events → IfOk result (λ count.
            observed self.new events × (count ≡ reader.lacking events flow)) }
        ensures cause { OnErr result (failed self.new) };

    /// A flow's live stream closes.
    fn on_close(&mut self, flow: u32, cause: CloseCause) -> Result<(), ListenerError>
        ensures does { (events : List Event) → observed self.old events
            → OnOk result (observed self.new (events ++ Closes flow cause ∷ [])) }
        ensures cause { OnErr result (failed self.new) };
}

/// A flow from its first stream on.
#[derive(Clone, Copy, Drop)]
pub struct FlowState {
    pub(crate) id: u32,
    pub(crate) next: u32,
    /// The number that the stream begins with that is live or waited for; none if the flow isn't in
    /// step.
    pub(crate) live: Option<u32>,
    /// Whether the flow waits for that stream.
    pub(crate) waits: bool,
    pub(crate) fin: Option<u32>,
    /// The number from which on octets are in no stream, while no stream is live.
    pub(crate) since: u32,
    /// Whether a stream of the flow has begun.
    pub(crate) has_begun: bool,
    /// Whether a stream of the flow was found by looking for its beginning.
    pub(crate) is_found: bool,
    /// The octets that were looked through last, if they may begin a header. There are none while a
    /// stream is live.
    pub(crate) tail: Option<Tail>,
}

impl FlowState {
    ghost use Rattle.std.specs.Prelude.{is_some};
    ghost use Rattle.tcp_waiting.specs.Payload.{Payload, oldest_index};
    ghost use Rattle.tcp_flow.specs.Flow.{Event, fresh, is_near, lives};
    ghost use Rattle.tcp_flow.specs.State.{state};

    /// A flow for which nothing has come. This number is due.
    pub fn new(id: u32, number: u32) -> FlowState
        ensures { (held : List Payload) (events : List Event)
            → state result held events ≡ fresh id number held events }
    {
        FlowState {
            id,
            next: number,
            live: None,
            waits: false,
            fin: None,
            since: number,
            has_begun: false,
            is_found: false,
            tail: None,
        }
    }

    /// Whether a stream is live.
    pub fn is_live(&self) -> bool
        ensures { result ≡ lives self.now.live self.now.waits }
    {
        self.live.is_some() && !self.waits
    }

    /// Whether a stream is live or waited for. If so, it is known which octet is due.
    pub(crate) fn is_in_step(&self) -> bool
        ensures { result ≡ is_some self.now.live }
    {
        self.live.is_some()
    }

    /// The sequence number that the stream begins with that is live or waited for.
    pub fn stream_start(&self) -> Option<u32>
        ensures { result ≡ self.now.live }
    {
        self.live
    }

    /// Whether a number is at most `WINDOW` before or after the one that is due.
    pub fn is_near(&self, number: u32) -> bool
        ensures { result ≡ is_near self.now.next number }
    {
        ahead(self.next, number) as usize <= WINDOW || ahead(number, self.next) as usize <= WINDOW
    }

    /// Whether the flow keeps a FIN that is to come.
    pub fn has_fin(&self) -> bool
        ensures { result ≡ is_some self.now.fin }
    {
        self.fin.is_some()
    }

    /// Whether the flow holds a payload.
    pub fn holds_payload(&self, pool: &Pool) -> bool
        ensures { result ≡ is_some (oldest_index self.now.id self.now.next pool.now.held) }
    {
        pool.len() > 0 && pool.oldest_index(self.id, self.next).is_some()
    }
}

/// Whether octets begin with `GIOP` 01 and 00, 01 or 02.
fn is_header(octets: &[u8]) -> bool
    ensures { result ≡ spec_is_header octets.now }
{
    octets.len() >= 6
        && octets[0] == b'G'
        && octets[1] == b'I'
        && octets[2] == b'O'
        && octets[3] == b'P'
        && octets[4] == 1
        && octets[5] <= 2
}

/// The index of the first GIOP header: `GIOP` 01 and 00, 01 or 02.
pub(crate) fn index_of_header(octets: &[u8]) -> Option<usize>
    ensures at { result ≡ spec_index_of_header octets.now }
    ensures within { IfSome result (λ i. i < length octets.now) }
{
    let mut index = 0;
    while index < octets.len() {
        if is_header(&octets[index..]) {
            return Some(index);
        }
        index += 1;
    }
    None
}
