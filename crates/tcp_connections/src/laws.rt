//! Laws about connections, whoever drives them.

ghost use Rattle.std.specs.Prelude.{ℕ, ◌≡◌, ◌≤◌, ◌<◌, ◌++◌, ◌∷◌, [], List, length, is_some, None, true};
ghost use Rattle.tcp_segment.specs.Segments.{Segment};
ghost use Rattle.tcp_flow.specs.Flow.{CaptureEvent, OfCapture, Reader};
ghost use Rattle.tcp_streams.specs.Lives.{lives};
ghost use Rattle.tcp_streams.specs.declared.pair.EndpointPair.{EndpointPair};
ghost use Rattle.tcp_connections.specs.Connections.{State, none_known, index_of, after, with_capture_event, ended, heaviest};
ghost use Rattle.tcp_connections.specs.Forgetting.{IsForgottenBy, MakesRoom};
ghost use Rattle.tcp_connections.specs.Gapless.{AreGapless, AreWhole, HaveSlots};
ghost use Rattle.tcp_connections.specs.Heaviest.{IsHeaviest};
ghost use Rattle.tcp_connections.specs.Owned.{AreOwned};
ghost use Rattle.tcp_connections.specs.State.{IsState, HasState};

use crate::connections::Connections;
use tcp_flow::Listener;

/// If the listener of the connections is told of the capture, then the connections have the same
/// state with this event: what is known, held and live stays. This function has no body and is
/// called for its contract.
pub fn capture_event_is_told<L: Listener + Drop>()
    ensures state { (before behind : L) (live : List ℕ) (c : Connections) (w : State)
        (event : CaptureEvent)
        → IsState (L.observed before) live c w
        → L.observed behind (w.events ++ OfCapture event ∷ [])
        → IsState (L.observed behind) live c (with_capture_event w event) }
    ensures holds { (before behind : L) (live : List ℕ) (c : Connections) (w : State)
        (event : CaptureEvent)
        → IsState (L.observed before) live c w
        → L.observed behind (w.events ++ OfCapture event ∷ [])
        → HasState (L.observed behind) live c }
{}

/// A segment makes a known connection be forgotten only in three cases. It is a RST of one of the
/// connection's flows, with a number at most 1,048,576 from the one that is due there. Or it is a
/// segment of the connection that answers or follows the SYN that is kept. Or it is the first
/// payload of another connection, no more may be known, and this is the one that makes room.
pub fn nothing_else_forgets()
    ensures { (reader : Reader) (ports : List ℕ) (blocks most : ℕ) (segments : List Segment)
        (s : Segment) (p : EndpointPair) → 1 ≤ most → most ≤ 65536
        → is_some (index_of p (after reader (none_known ports blocks most []) segments).known)
        ≡ true
        → index_of p (after reader (none_known ports blocks most []) (segments ++ s ∷ [])).known
        ≡ None
        → IsForgottenBy reader (after reader (none_known ports blocks most []) segments) s p }
{}

/// If no more connections may be known, one makes room for another. It has no live stream, if there
/// is such a connection; if not, segments of one flow alone came of it, if there is such a
/// connection. Of several like that it is the one whose last segment came first. What it holds is
/// shown before it is forgotten. This function has no body and is called for its contract.
pub fn the_eldest_makes_room()
    ensures { (reader : Reader) (w : State) → 0 < length w.known
        → length w.lasts ≤ length w.known → MakesRoom reader w }
{}

/// If the pool is short, the flow that gives up holds the most blocks of all whose streams are live
/// or were closed by a gap. Of several like that it is the one whose last stream began first. This
/// function has no body and is called for its contract.
pub fn the_heaviest_gives_up()
    ensures { (w : State) → 0 < length (lives w.events)
        → IsHeaviest w.held (lives w.events) (heaviest w) }
{}

/// Streams have no gaps, whatever segments come: octets come and a stream closes only while it is
/// live, and its octets follow one another as in the segments of the stream's own flow that came.
/// If the capture ends after these, each stream has closed.
pub fn no_stream_has_a_gap()
    ensures gapless { (reader : Reader) (ports : List ℕ) (blocks most : ℕ)
        (segments : List Segment) → 1 ≤ most → most ≤ 65536
        → AreGapless segments (after reader (none_known ports blocks most []) segments).events }
    ensures ended { (reader : Reader) (ports : List ℕ) (blocks most : ℕ) (segments : List Segment)
        → 1 ≤ most → most ≤ 65536
        → AreWhole segments
        (ended reader (after reader (none_known ports blocks most []) segments)).events }
    ensures own { (reader : Reader) (ports : List ℕ) (blocks most : ℕ) (segments : List Segment)
        → 1 ≤ most → most ≤ 65536
        → AreOwned segments (after reader (none_known ports blocks most []) segments).events }
    ensures own_to_the_end { (reader : Reader) (ports : List ℕ) (blocks most : ℕ)
        (segments : List Segment) → 1 ≤ most → most ≤ 65536
        → AreOwned segments
        (ended reader (after reader (none_known ports blocks most []) segments)).events }
    // Each event in a flow is in one of a connection that has a slot.
    ensures slots { (reader : Reader) (ports : List ℕ) (blocks most : ℕ) (segments : List Segment)
        → 1 ≤ most → most ≤ 65536
        → HaveSlots most
        (ended reader (after reader (none_known ports blocks most []) segments)).events }
{}
