//! A capture that is read in pieces of any size. All its memory is taken once.

ghost use Rattle.std.specs.Prelude.{◌≡◌, ℕ, true, ◌+◌, ◌-◌, ◌^◌, ◌<◌, ◌≤◌, min, Bool, List, [], ◌++◌, length, take, drop, Option, None, IfOk, IfSome, vec_len, vec_capacity};
ghost use Rattle.std.specs.Option.{ForSome};
ghost use Rattle.capture_file.specs.Parts.{front, passed, back, size};
ghost use Rattle.capture_file.specs.Fits.{interfaces_added, HasRoom};
ghost use Rattle.capture_file.specs.Format.{outcome_after, interfaces_behind};

use crate::blocks::MOST_INTERFACES;
use crate::fault::{CaptureFault, FaultKind};
use crate::format::outcome_after;
use crate::part::{Interface, Outcome, PacketInfo, Part};
use crate::progress::{Packet, Progress};
use crate::records::whole_record;
use crate::window::{copy_to_window, push_front};
use std::alloc::{AllocError, Global};

/// Enough for a packet of the greatest length, and the original length that stands before it.
const ROOM: usize = 262_148;

/// Where the last packet stands: in the octets that were taken last, or in those that are held.
#[derive(Clone, Copy)]
struct PacketRange {
    info: PacketInfo,
    start: usize,
    end: usize,
    held: bool,
}

/// A capture, of which some octets were taken.
#[derive(Drop)]
pub struct Capture {
    octets: u64,
    packets: u64,
    /// The part that has begun.
    part: Part,
    /// How many octets of that part were taken.
    taken: u64,
    /// The interfaces of the section.
    interfaces: Vec<Interface>,
    /// The octets at the part's front that have come until now, if they come in pieces.
    packet_octets: Vec<u8>,
    /// The octets at the part's end that have come until now.
    end_octets: [u8; 16],
    packet_range: PacketRange,
    fault: Option<CaptureFault>,
    ghost packet_room: { 262148 ≤ vec_capacity packet_octets },
    ghost packet_come: { min taken (front part) ≤ length packet_octets.items },
    ghost interface_room: { 256 ≤ vec_capacity interfaces },
    ghost end_room: { length end_octets ≡ 16 },
    ghost fits: { front part ≤ 262148 },
    ghost few_interfaces: { length interfaces.items + interfaces_added part ≤ 256 },
    ghost within: { taken < size part },
    ghost few_packets: { packets ≤ octets },
    ghost range_ordered: { packet_range.start ≤ packet_range.end },
    ghost fault_place: { ForSome fault (λ f. f.place ≡ octets) },
}

impl Capture {
    ghost use Rattle.capture_file.specs.CaptureState.{Reads, HasSameRoom, octets_of, Answers, RunsIfMore, PacketIsIn, info_in, octets_in};
    ghost use Rattle.capture_file.specs.Reading.{packets, final_fault};
    ghost use Rattle.capture_file.specs.CaptureSteps.{Completes, PartBegins, EndsPacketAt, HoldsPiece, CountsOctets};
    ghost use Rattle.capture_file.specs.CaptureSteps.{IsRecordDue, TakesRecord};

    /// Makes a capture of which nothing was taken, with memory for one packet.
    pub fn new(alloc: Global) -> Result<Capture, AllocError>
        ensures { IfOk result (λ c. Reads c []) }
    {
        let packet_range = PacketRange {
            info: PacketInfo {
                link: 0,
                time: None,
            },
            start: 0,
            end: 0,
            held: false,
        };
        Ok(Capture {
            octets: 0,
            packets: 0,
            part: Part::Beginning,
            taken: 0,
            interfaces: Vec::with_capacity(alloc, MOST_INTERFACES)?,
            packet_octets: Vec::with_capacity(alloc, ROOM)?,
            end_octets: [0; 16],
            packet_range,
            fault: None,
        })
    }

    /// How many octets were taken.
    pub fn octets(&self) -> u64
        ensures value { result ≡ octets_of self.now }
        ensures octets { (p : List ℕ) → Reads self.now p → result ≡ length p }
    {
        self.octets
    }

    /// How many packets those octets complete.
    pub fn packets(&self) -> u64
        ensures { (p : List ℕ) → Reads self.now p → result ≡ length (packets p) }
    {
        self.packets
    }

    /// Takes octets: all of them, or only those up to the first one that completes a packet or shows a fault. Returns how
    /// many it took, and what they complete or show. If the capture has shown a fault before, it takes no octet, and
    /// returns the fault again. Together all octets that it takes must be fewer than 2^64.
    pub fn take(&mut self, octets: &[u8]) -> (usize, Progress)
        requires { octets_of self.old + length octets.now < 2 ^ 64 }
        ensures reads { (p : List ℕ) → Reads self.old p →
            Reads self.new (p ++ take result.0 octets.now) }
        ensures answers { (p : List ℕ) → Reads self.old p →
            Answers result.1 p (take result.0 octets.now) self.new octets.now }
        ensures packet { result.1 ≡ Progress.Packet → PacketIsIn self.new octets.now }
        ensures octets { octets_of self.new ≡ octets_of self.old + result.0 }
        ensures some { result.1 ≡ Progress.Packet → 0 < result.0 }
        ensures within { result.0 ≤ length octets.now }
        ensures all { result.1 ≡ Progress.More → result.0 ≡ length octets.now }
        ensures memory { HasSameRoom self.old self.new }
    {
        if let Some(fault) = self.fault {
            return (0, Progress::Fault(fault));
        }
        let mut start = 0;
        while start < octets.len() {
            let (count, progress) = self.take_part(octets, start);
            start += count;
            match progress {
                Progress::More => {}
                _ => return (start, progress),
            }
        }
        (start, Progress::More)
    }

    /// Takes octets from this index on: as many as the part that has begun still needs, or all.
    fn take_part(&mut self, octets: &[u8], start: usize) -> (usize, Progress)
        requires running { self.old.fault ≡ None }
        requires some { start < length octets.now }
        requires room { self.old.octets + (length octets.now - start) < 2 ^ 64 }
        ensures reads { (p : List ℕ) → Reads self.old p →
            Reads self.new (p ++ take result.0 (drop start octets.now)) }
        ensures answers { (p : List ℕ) → Reads self.old p →
            Answers result.1 p (take result.0 (drop start octets.now)) self.new octets.now }
        ensures packet { result.1 ≡ Progress.Packet → PacketIsIn self.new octets.now }
        ensures running { RunsIfMore result.1 self.new }
        ensures octets { self.new.octets ≡ self.old.octets + result.0 }
        ensures some { 0 < result.0 }
        ensures within { start + result.0 ≤ length octets.now }
        ensures memory { HasSameRoom self.old self.new }
    {
        if let Some((info, captured)) = self.whole_record_due(&octets[start..]) {
            return (self.take_record(info, start, captured), Progress::Packet);
        }
        let missing = self.part.size() - self.taken;
        let rest = &octets[start..];
        if missing > rest.len() as u64 {
            self.hold_part_piece(rest);
            return (rest.len(), Progress::More);
        }
        let count = missing as usize;
        let piece = &rest[..count];
        if self.taken > 0 {
            return (count, self.complete_held(piece));
        }
        let back = self.part.back() as usize;
        let end = &piece[count - back..];
        self.count_octets(count);
        (count, self.end_part(end, start, false))
    }

    /// What is known of a packet and the number of its octets, if a record may begin here and these octets begin with the
    /// whole record.
    #[inline]
    fn whole_record_due(&self, octets: &[u8]) -> Option<(PacketInfo, usize)>
        ensures { IfSome result (λ r. IsRecordDue self.now octets.now r.0 r.1) }
    {
        let Part::RecordHeader(file) = self.part else {
            return None;
        };
        if self.taken != 0 {
            return None;
        }
        whole_record(file, octets)
    }

    /// Takes a whole record at once, from this index on. Returns how many octets it has.
    #[inline]
    fn take_record(&mut self, info: PacketInfo, start: usize, captured: usize) -> usize
        requires running { self.old.fault ≡ None }
        requires room { self.old.octets + (16 + captured) < 2 ^ 64 }
        requires within { start + (16 + captured) < 2 ^ 64 }
        ensures takes { TakesRecord self.old self.new info start captured }
        ensures count { result ≡ 16 + captured }
        ensures memory { HasSameRoom self.old self.new }
    {
        let count = 16 + captured;
        self.count_octets(count);
        self.note_packet(info, start + 16, start + count, false);
        count
    }

    /// Holds a piece of the part that has begun. The piece doesn't complete the part.
    fn hold_part_piece(&mut self, piece: &[u8])
        requires running { self.old.fault ≡ None }
        requires within { self.old.taken + length piece.now < size self.old.part }
        requires few { size self.old.part < 2 ^ 64 }
        requires room { self.old.octets + length piece.now < 2 ^ 64 }
        ensures kept { HoldsPiece self.old self.new piece.now }
        ensures taken { self.new.taken ≡ self.old.taken + length piece.now }
        ensures octets { self.new.octets ≡ self.old.octets + length piece.now }
        ensures memory { HasSameRoom self.old self.new }
    {
        self.keep_needed(piece);
        self.taken += piece.len() as u64;
    }

    /// Completes a part whose first octets are held, with the octets that it still needs.
    #[tactic(auto, using(crate::proofs::Sizes::back_few))]
    fn complete_held(&mut self, piece: &[u8]) -> Progress
        requires running { self.old.fault ≡ None }
        requires some { 0 < length piece.now }
        requires whole { self.old.taken + length piece.now ≡ size self.old.part }
        requires few { size self.old.part < 2 ^ 64 }
        requires room { self.old.octets + length piece.now < 2 ^ 64 }
        ensures reads { (p : List ℕ) → Reads self.old p → Reads self.new (p ++ piece.now) }
        ensures answers { (p octets : List ℕ) → Reads self.old p →
            Answers result p piece.now self.new octets }
        ensures packet { (octets : List ℕ) → result ≡ Progress.Packet → PacketIsIn self.new octets }
        ensures running { RunsIfMore result self.new }
        ensures octets { self.new.octets ≡ self.old.octets + length piece.now }
        ensures memory { HasSameRoom self.old self.new }
    {
        let back = self.part.back() as usize;
        self.keep_needed(piece);
        let end = self.end_octets;
        self.end_part(&end[..back], 0, true)
    }

    /// Counts octets that are taken.
    fn count_octets(&mut self, count: usize)
        requires running { self.old.fault ≡ None }
        requires room { self.old.octets + count < 2 ^ 64 }
        ensures advances { CountsOctets self.old self.new count }
        ensures memory { HasSameRoom self.old self.new }
    {
        self.octets += count as u64;
    }

    /// Keeps those octets of a piece that will be looked at, or given to the caller, when the part is complete.
    fn keep_needed(&mut self, piece: &[u8])
        requires running { self.old.fault ≡ None }
        requires taken { self.old.taken + length piece.now < 2 ^ 64 }
        requires octets { self.old.octets + length piece.now < 2 ^ 64 }
        ensures kept { HoldsPiece self.old self.new piece.now }
        ensures taken { self.new.taken ≡ self.old.taken }
        ensures octets { self.new.octets ≡ self.old.octets + length piece.now }
        ensures memory { HasSameRoom self.old self.new }
    {
        let front = self.part.front();
        push_front(&mut self.packet_octets, front, self.taken, piece);
        let begin = front + self.part.passed();
        let back = self.part.back();
        copy_to_window(&mut self.end_octets, begin, back, self.taken, piece);
        self.octets += piece.len() as u64;
    }

    /// Ends a part that is complete, by the octets at its end. The part began at this index of the octets that the caller
    /// gave, or is held.
    fn end_part(&mut self, end: &[u8], start: usize, held: bool) -> Progress
        requires running { self.old.fault ≡ None }
        requires back { length end.now ≡ back self.old.part }
        requires some { self.old.packets < self.old.octets }
        requires room { start + front self.old.part < 2 ^ 64 }
        ensures completes { Completes
            (outcome_after self.old.part self.old.interfaces.items end.now)
            self.old self.new result start held }
        ensures memory { HasSameRoom self.old self.new }
    {
        match outcome_after(&self.part, &self.interfaces, end) {
            Outcome::Continues(part) => {
                self.begin_part(part);
                Progress::More
            }
            Outcome::EndsPacket(info, part) => {
                let from = start + self.part.packet_offset() as usize;
                let to = start + self.part.front() as usize;
                self.note_packet(info, from, to, held);
                self.begin_part(part);
                Progress::Packet
            }
            Outcome::Fails(kind) => {
                let place = self.octets;
                let fault = CaptureFault { kind, place };
                self.fault = Some(fault);
                Progress::Fault(fault)
            }
        }
    }

    /// Notes a packet that has just become complete, and counts it: what is known of it, and that its octets stand between
    /// these two indices, of the octets that are held, or else of those that the caller gave.
    #[inline]
    fn note_packet(&mut self, info: PacketInfo, start: usize, end: usize, held: bool)
        requires some { self.old.packets < self.old.octets }
        requires order { start ≤ end }
        ensures ends { EndsPacketAt self.old self.new
            (record { info = info; start = start; end = end; held = held }) }
        ensures memory { HasSameRoom self.old self.new }
    {
        self.packet_range = PacketRange {
            info,
            start,
            end,
            held,
        };
        self.packets += 1;
    }

    /// Begins the part that comes next.
    #[tactic(auto, using(crate::proofs::ReadingSteps::size_some))]
    fn begin_part(&mut self, part: Part)
        requires room { HasRoom
            (256 - length (interfaces_behind self.old.part self.old.interfaces.items)) part }
        ensures begins { PartBegins self.old self.new part }
        ensures packets { self.new.packets ≡ self.old.packets }
        ensures kept { self.new.packet_range ≡ self.old.packet_range }
        ensures memory { HasSameRoom self.old self.new }
    {
        match self.part {
            Part::ByteOrderMagic(_) => self.interfaces.clear(),
            Part::InterfaceEnd(_, interface) => self.interfaces.push_reserved(interface),
            _ => {}
        }
        self.part = part;
        self.taken = 0;
    }

    /// The packet that the last call of `take` completed. The caller gives the same octets again.
    pub fn packet<'a>(&'a self, octets: &'a [u8]) -> Packet<'a>
        requires { PacketIsIn self.now octets.now }
        ensures link { result.link ≡ (info_in self.now).link }
        ensures time { result.time ≡ (info_in self.now).time }
        ensures octets { result.octets.now ≡ octets_in self.now octets.now }
    {
        let PacketRange {
            info,
            start,
            end,
            held,
        } = self.packet_range;
        let octets = if held {
            &self.packet_octets[start..end]
        } else {
            &octets[start..end]
        };
        Packet {
            link: info.link,
            time: info.time,
            octets,
        }
    }

    /// The fault that the capture has if it ends here.
    pub fn finish(&self) -> Option<CaptureFault>
        ensures { (p : List ℕ) → Reads self.now p → result ≡ final_fault p }
    {
        if let Some(fault) = self.fault {
            return Some(fault);
        }
        if self.taken == 0 && self.part.may_come_last() {
            return None;
        }
        Some(CaptureFault {
            kind: FaultKind::Truncated,
            place: self.octets,
        })
    }
}
