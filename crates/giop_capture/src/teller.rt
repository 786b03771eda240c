//! The conversations of a capture as a listener, which is told what happens in the capture's flows.

ghost use Rattle.std.specs.Prelude.{◌≡◌, ◌<◌, ◌⊎◌, ◌||◌, [], true, nat_lt};
ghost use Rattle.tcp_flow.specs.Flow.{OfCapture, Passes};
ghost use Rattle.giop_capture.specs.Notices.{is_for_room, seen, seen_after};

use crate::{CaptureListener, Seen, begins_as_tls, begins_as_ziop};
use capture_file::CaptureFault;
use giop_conversation::Conversations;
use giop_print::Flush;
use std::marker::PhantomData;
use tcp_flow::{CloseCause, Listener, ListenerError, Start};
use tcp_segment::Flow;
use tcp_waiting::Arrival;

/// What is known of a dump before it begins. There is no value of such a type: only contracts use it. What a contract says
/// of a dump holds for each setup and each text before it that `begins` allows.
pub trait Beginning {
    ghost use Rattle.std.specs.Prelude.{List, ℕ};
    ghost use Rattle.giop_conversation.specs.Captured.{Setup};

    /// A dump may have this setup, and begin after these octets.
    ghost begins: { Setup → List ℕ → Type 0 };
}

/// Nothing is known of a dump before it begins.
pub struct Unknown;

impl Beginning for Unknown {
    ghost begins = { λ _ _. ⊥ };
}

/// A listener that tells conversations what happens in the flows of a capture, and writes their lines to an out that can be
/// flushed.
#[derive(Drop)]
pub struct Teller<'a, O: Flush + Drop, B: Beginning> {
    conversations: Conversations<'a, O>,
    /// What was seen until now that needs a notice.
    seen: Seen,
    beginning: PhantomData<B>,
}

impl<'a, O: Flush + Drop, B: Beginning> Teller<'a, O, B> {
    /// Makes a listener that tells these conversations.
    pub fn new(conversations: Conversations<'a, O>) -> Teller<'a, O, B>
        ensures conversations { result.conversations ≡ conversations.entry }
        ensures none { result.seen ≡ seen [] }
    {
        Teller {
            conversations,
            seen: Seen {
                room: false,
                tls: false,
                ziop: false,
            },
            beginning: PhantomData,
        }
    }

    /// Whether it has failed without a put, as `Conversations::has_refused` says.
    pub fn has_refused(&self) -> bool
        ensures { result ≡ self.now.conversations.out.refused }
    {
        self.conversations.has_refused()
    }

    /// Gives the out below back.
    pub fn into_out(self) -> O
        ensures written { (O.log result).written ≡ self.entry.conversations.out.whole }
        // If it has failed, the out below has failed, unless it has refused.
        ensures cause { 0 < self.entry.conversations.out.failures →
            (0 < (O.log result).failures) ⊎ (self.entry.conversations.out.refused ≡ true) }
    {
        self.conversations.into_out()
    }
}

/// Whether a connection has made room for another one, after a stream closes: one had before, or the stream closes for this
/// cause.
fn has_made_room(before: bool, cause: CloseCause) -> bool
    ensures { result ≡ (before || is_for_room cause) }
{
    match cause {
        CloseCause::Room => true,
        CloseCause::Fin
        | CloseCause::Reset
        | CloseCause::Syn
        | CloseCause::Fault
        | CloseCause::Gap
        | CloseCause::End => before,
    }
}

/// What was seen, after a payload in which no stream begins.
fn seen_after_payload(before: Seen, octets: &[u8]) -> Seen
    ensures { result ≡ seen_after before (OfCapture (Passes octets.now)) }
{
    Seen {
        room: before.room,
        tls: before.tls || begins_as_tls(octets),
        ziop: before.ziop || begins_as_ziop(octets),
    }
}

impl<'a, O: Flush + Drop, B: Beginning> Listener for Teller<'a, O, B> {
    ghost use Rattle.std.specs.Prelude.{◌≡◌, ◌<◌, List, ℕ};
    ghost use Rattle.giop_conversation.specs.Captured.{Setup};
    ghost use Rattle.giop_capture.specs.Notices.{seen};
    ghost use Rattle.giop_conversation.specs.Follows.{Follows};
    ghost use Rattle.giop_conversation.specs.Followed.{stream_reader};
    ghost use Rattle.giop_conversation.specs.DumpWritten.{IsWritten};

    // The streams are those of the events, and the text below is the text of the events.
    ghost observed = { λ t events. Follows t.conversations events
        × ((S : Setup) (written : List ℕ) → B.begins S written
        → IsWritten S written events t.conversations)
        × (t.seen ≡ seen events) };

    ghost failed = { λ t. 0 < t.conversations.out.failures };

    ghost reader = { stream_reader };

    fn on_new_flow(&mut self, flow: u32, endpoints: Flow) -> Result<(), ListenerError> {
        self.conversations.on_new_flow(flow, endpoints);
        Ok(())
    }

    fn on_arrival(&mut self, arrival: Arrival) {
        self.conversations.on_arrival(arrival);
    }

    fn on_looked_through(&mut self, octets: &[u8]) {
        self.seen = seen_after_payload(self.seen, octets);
        self.conversations.on_looked_through();
    }

    fn on_begin(&mut self, flow: u32, start: Start) -> Result<(), ListenerError> {
        match self.conversations.on_begin(flow, start) {
            Ok(()) => Ok(()),
            Err(_) => Err(ListenerError),
        }
    }

    fn on_octets(&mut self, flow: u32, octets: &[u8]) -> Result<Option<u64>, ListenerError> {
        match self.conversations.on_octets(flow, octets) {
            Ok(fault) => Ok(fault),
            Err(_) => Err(ListenerError),
        }
    }

    fn message_lacks(&mut self, flow: u32) -> Result<Option<u32>, ListenerError> {
        match self.conversations.message_lacks(flow) {
            Ok(count) => Ok(count),
            Err(_) => Err(ListenerError),
        }
    }

    fn on_close(&mut self, flow: u32, cause: CloseCause) -> Result<(), ListenerError> {
        self.seen.room = has_made_room(self.seen.room, cause);
        match self.conversations.on_close(flow, cause) {
            Ok(()) => Ok(()),
            Err(_) => Err(ListenerError),
        }
    }
}

impl<'a, O: Flush + Drop, B: Beginning> CaptureListener for Teller<'a, O, B> {
    ghost use Rattle.std.specs.Prelude.{◌||◌, List, ℕ, nat_lt};
    ghost use Rattle.giop_conversation.specs.Captured.{Setup};
    ghost use Rattle.giop_conversation.specs.Seen.{IsSeen};
    ghost use Rattle.giop_capture.specs.Text.{HasText};

    // All that was put to the out below can be seen.
    ghost flushed = { λ t. IsSeen O.log O.kept t.conversations.out.whole };

    ghost faulty = { λ t. t.conversations.cut || nat_lt 0 t.conversations.totals.faults };

    // The text below is the text of the events and then the last line, and nothing else.
    ghost finished = { λ t events packets octets faulty. (S : Setup) (written : List ℕ) →
        B.begins S written
        → HasText S written events packets octets faulty t.conversations.out.whole };

    fn seen(&self) -> Seen {
        self.seen
    }

    fn on_fault(&mut self, fault: CaptureFault) -> Result<(), ListenerError> {
        match self
            .conversations
            .write_capture_fault(fault.kind.word(), fault.place)
        {
            Ok(()) => Ok(()),
            Err(_) => Err(ListenerError),
        }
    }

    fn flush(&mut self) -> Result<(), ListenerError> {
        match self.conversations.flush() {
            Ok(()) => Ok(()),
            Err(_) => Err(ListenerError),
        }
    }

    /// Writes the last line, and flushes. Returns whether a fault was counted, a stream was cut, or
    /// the capture has a fault.
    fn finish(&mut self, packets: u64, octets: u64) -> Result<bool, ListenerError> {
        let Ok(is_faulty) = self.conversations.finish(packets, octets) else {
            return Err(ListenerError);
        };
        let Ok(()) = self.conversations.flush() else {
            return Err(ListenerError);
        };
        Ok(is_faulty)
    }
}
