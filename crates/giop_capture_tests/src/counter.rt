//! A listener that counts what it takes.

use capture_file::Packet;
use giop_capture::PacketListener;
use giop_print::OutFault;

/// What a listener has got. It fails at the packet of this number.
#[derive(Clone, Copy, Debug, PartialEq, Eq)]
pub struct Counter {
    pub packets: u32,
    pub octets: usize,
    pub last_time: Option<u128>,
    pub flushes: u32,
    pub fails_at: u32,
}

impl Counter {
    /// Makes a listener that has got nothing yet.
    pub fn new(fails_at: u32) -> Counter {
        Counter {
            packets: 0,
            octets: 0,
            last_time: None,
            flushes: 0,
            fails_at,
        }
    }
}

impl PacketListener for Counter {
    ghost Start = { Unit {0} };

    ghost taken = { λ _ _ _. Unit {0} };

    ghost failed = { λ _. Unit {0} };

    ghost flushed = { λ _. Unit {0} };

    fn on_packet(&mut self, packet: Packet<'_>) -> Result<(), OutFault> {
        self.packets = self.packets.wrapping_add(1);
        if self.packets == self.fails_at {
            return Err(OutFault);
        }
        self.octets = self.octets.wrapping_add(packet.octets.len());
        self.last_time = packet.time;
        Ok(())
    }

    fn flush(&mut self) -> Result<(), OutFault> {
        self.flushes = self.flushes.wrapping_add(1);
        Ok(())
    }
}
