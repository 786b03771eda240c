//! What holds of the streams of a capture, whatever its packets are.

ghost use Rattle.std.specs.Prelude.{ℕ, ◌≤◌, [], List};
ghost use Rattle.tcp_flow.specs.Flow.{Reader};
ghost use Rattle.tcp_connections.specs.Connections.{none_known};
ghost use Rattle.tcp_connections.specs.Gapless.{AreGapless, AreWhole, HaveSlots};
ghost use Rattle.giop_capture.specs.Packets.{PacketView, capture_packets};
ghost use Rattle.giop_capture.specs.Arrivals.{after_packets, segments_of, capture_ended};

/// Streams have no gap. After any packets, and after a whole capture with its fault and its end, this holds in each flow.
/// Octets came and streams closed only while a stream lived. The octets that were delivered of a stream follow one another
/// as the segments of the packets have them. After a whole capture each stream that began has closed. The function has no
/// body; it is called for its contract.
pub fn no_stream_of_a_capture_has_a_gap()
    ensures packets { (reader : Reader) (ports : List ℕ) (blocks most : ℕ)
        (packets : List PacketView)
        → 1 ≤ most → most ≤ 65536 → AreGapless (segments_of packets)
        (after_packets reader (none_known ports blocks most []) packets).events }
    ensures ended { (reader : Reader) (ports : List ℕ) (blocks most : ℕ) (octets : List ℕ)
        → 1 ≤ most → most ≤ 65536 → AreGapless (segments_of (capture_packets octets))
        (capture_ended reader (none_known ports blocks most []) octets).events }
    ensures closed { (reader : Reader) (ports : List ℕ) (blocks most : ℕ) (octets : List ℕ)
        → 1 ≤ most → most ≤ 65536 → AreWhole (segments_of (capture_packets octets))
        (capture_ended reader (none_known ports blocks most []) octets).events }
    // Each event of a flow is of a connection that has a slot.
    ensures slots { (reader : Reader) (ports : List ℕ) (blocks most : ℕ) (octets : List ℕ)
        → 1 ≤ most → most ≤ 65536 → HaveSlots most
        (capture_ended reader (none_known ports blocks most []) octets).events }
{}
