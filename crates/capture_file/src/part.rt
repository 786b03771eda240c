//! The parts of a capture: which part comes next, how long it is, and which of its octets are looked at.

ghost use Rattle.std.specs.Prelude.{◌≡◌, ◌<◌, ◌≤◌, ◌^◌};

use crate::fault::FaultKind;

/// The byte order of a number.
#[derive(Clone, Copy)]
pub enum ByteOrder {
    /// The most significant octet first.
    Big,
    /// The least significant octet first.
    Little,
}

/// What the magic of a pcap file says.
#[derive(Clone, Copy)]
pub struct Magic {
    pub order: ByteOrder,
    /// How many nanoseconds a unit of the times' fractions has.
    pub unit: u32,
}

/// What is kept of the header of a pcap file.
#[derive(Clone, Copy)]
pub struct FileHeader {
    pub magic: Magic,
    pub link: u16,
}

/// The length of a section header block in both byte orders, because the order of the section isn't known yet.
#[derive(Clone, Copy)]
pub struct LengthByOrder {
    pub big: u32,
    pub little: u32,
}

/// A block of a pcapng file that has begun.
#[derive(Clone, Copy)]
pub struct Block {
    /// The byte order of its section.
    pub order: ByteOrder,
    /// Its total length.
    pub length: u32,
    /// How many octets come between the part that holds this block and the block's second length.
    pub left: u32,
}

/// An interface of a section.
#[derive(Clone, Copy)]
pub struct Interface {
    pub link: u16,
    /// The greatest number of octets that are captured of a packet; 0 means all.
    pub snapshot: u32,
    /// How many units of its times make a second.
    pub ticks: u64,
}

/// What is known of a packet before its octets come.
#[derive(Clone, Copy)]
pub struct PacketInfo {
    pub link: u16,
    /// Nanoseconds since 1970.
    pub time: Option<u128>,
}

/// The octets of a packet block that belong to the packet, with the original length if that stands directly before them.
#[derive(Clone, Copy)]
pub struct Body {
    pub info: PacketInfo,
    /// How many octets stand before the packet's own: 4 for the original length, or 0.
    pub packet_offset: u32,
    /// How many octets the packet has.
    pub captured: u32,
}

/// The part of a capture that comes next. A part ends where it becomes known what comes next, or where a fault may show.
#[derive(Clone, Copy)]
pub enum Part {
    /// The first four octets of a capture.
    Beginning,
    /// The version of a pcap file.
    FileVersion(Magic),
    /// The rest of a pcap file's header, after the version.
    FileRest(Magic),
    /// The header of a record up to the captured length.
    RecordHeader(FileHeader),
    /// The rest of a record: the original length, and then the packet, of this number of octets.
    Record(FileHeader, PacketInfo, u32),
    /// The length of the first block of a pcapng file.
    SectionLength,
    /// The byte-order magic of a section header block.
    ByteOrderMagic(LengthByOrder),
    /// The version of a section.
    SectionVersion(Block),
    /// The type and the length of a block.
    BlockHeader(ByteOrder),
    /// The fields of an interface description block before its options.
    InterfaceHeader(Block),
    /// This number of octets, which are skipped, and then the code and the length of an option.
    OptionHeader(Block, Interface, u32),
    /// The value of the option that gives the unit of an interface's times.
    TimeUnit(Block, Interface),
    /// The rest of an interface description block.
    InterfaceEnd(Block, Interface),
    /// The number of the interface of an enhanced packet block.
    EnhancedInterface(Block),
    /// The time and the captured length of an enhanced packet block.
    EnhancedHeader(Block, Interface),
    /// The original length of a simple packet block.
    SimpleHeader(Block),
    /// The rest of a packet block.
    Packet(Block, Body),
    /// The rest of a block that has no packet and no interface.
    BlockEnd(Block),
}

/// What comes after a part.
#[derive(Clone, Copy)]
pub enum Outcome {
    /// This part comes.
    Continues(Part),
    /// A packet is complete, and then this part comes.
    EndsPacket(PacketInfo, Part),
    /// The reading ends.
    Fails(FaultKind),
}

impl Part {
    ghost use Rattle.capture_file.specs.Parts.{front, passed, back, packet_offset, size, may_end_before};

    /// How many octets at the part's front belong to a packet, with those that stand before the packet's own.
    pub fn front(&self) -> u64
        ensures value { result ≡ front self.now }
        ensures few { result < 2 ^ 34 }
    {
        match self {
            Part::Record(_, _, captured) => 4 + u64::from(*captured),
            Part::Packet(_, body) => u64::from(body.packet_offset) + u64::from(body.captured),
            _ => 0,
        }
    }

    /// How many octets are skipped after those.
    pub fn passed(&self) -> u64
        ensures value { result ≡ passed self.now }
        ensures few { result < 2 ^ 32 }
    {
        match self {
            Part::OptionHeader(_, _, skip) => u64::from(*skip),
            Part::InterfaceEnd(block, _) | Part::Packet(block, _) | Part::BlockEnd(block) => {
                u64::from(block.left)
            }
            _ => 0,
        }
    }

    /// How many octets at the part's end are looked at.
    pub fn back(&self) -> u64
        ensures value { result ≡ back self.now }
        ensures few { result ≤ 16 }
    {
        match self {
            Part::Record(_, _, _) => 0,
            Part::TimeUnit(_, _) => 1,
            Part::BlockHeader(_) | Part::InterfaceHeader(_) => 8,
            Part::RecordHeader(_) | Part::EnhancedHeader(_, _) => 12,
            Part::FileRest(_) => 16,
            _ => 4,
        }
    }

    /// How many octets the part has.
    pub fn size(&self) -> u64
        ensures { result ≡ size self.now }
    {
        self.front() + self.passed() + self.back()
    }

    /// Whether a capture may end before this part.
    pub fn may_come_last(&self) -> bool
        ensures { result ≡ may_end_before self.now }
    {
        matches!(self, Part::RecordHeader(_) | Part::BlockHeader(_))
    }

    /// How many octets at the part's front stand before the packet's own.
    pub fn packet_offset(&self) -> u32
        ensures value { result ≡ packet_offset self.now }
        ensures few { result ≤ front self.now }
    {
        match self {
            Part::Record(_, _, _) => 4,
            Part::Packet(_, body) => body.packet_offset,
            _ => 0,
        }
    }
}
