//! What holds of the text of a capture.

ghost use Rattle.std.specs.Prelude.{ℕ, ◌≡◌, ◌≤◌, [], List};
ghost use Rattle.tcp_connections.specs.Connections.{none_known};
ghost use Rattle.giop_conversation.specs.Captured.{Setup, Dump, Leads, start};
ghost use Rattle.giop_conversation.specs.StreamTexts.{no_history, history};
ghost use Rattle.giop_conversation.specs.Followed.{stream_reader};
ghost use Rattle.giop_capture.specs.Arrivals.{capture_ended};
ghost use Rattle.giop_capture.specs.Streams.{ShowsEachStream, EachHasSlot};

use crate::no_stream_of_a_capture_has_a_gap;
use giop_conversation::each_stream_is_dumped;

/// In the text to which a capture leads, take the lines of one stream without their tags, and leave out the lines `stream`,
/// `time`, `answers`, `raises` and `closed`. What remains is what `giopdump` writes of the octets that were delivered of
/// the stream, and of its end. This holds whatever the capture is: streams have no gap, so no stream goes on after its
/// close; and each stream whose connection has a slot has closed.
pub fn each_stream_of_a_capture_is_dumped()
    ensures shows { (S : Setup) (written : List ℕ) (ports : List ℕ) (blocks most : ℕ)
        (octets : List ℕ) (d : Dump)
        → 1 ≤ most → most ≤ 65536
        → (leads : Leads S (start S written)
        (capture_ended stream_reader (none_known ports blocks most []) octets).events d)
        → ShowsEachStream S written (history S no_history (start S written)
        (capture_ended stream_reader (none_known ports blocks most []) octets).events d leads)
        d.text }
    // If the dump has slots for as many connections as may be known, the connection of each stream has a slot.
    ensures slots { (S : Setup) (written : List ℕ) (ports : List ℕ) (blocks most : ℕ)
        (octets : List ℕ) (d : Dump)
        → 1 ≤ most → most ≤ 65536 → S.connections ≡ most
        → (leads : Leads S (start S written)
        (capture_ended stream_reader (none_known ports blocks most []) octets).events d)
        → EachHasSlot S (history S no_history (start S written)
        (capture_ended stream_reader (none_known ports blocks most []) octets).events d leads) }
{
    each_stream_is_dumped();
    no_stream_of_a_capture_has_a_gap();
}
