//! What comes after each part of a pcapng file.

ghost use Rattle.std.specs.Prelude.{◌≡◌, ◌+◌, ◌≤◌, ◌<◌, ◌⊎◌, ◌-◌, length, slice_get, slice_index, Option};
ghost use Rattle.capture_file.specs.Blocks.{section_length, section, byte_order_magic, section_version, block_of, block_header, interface_header, options, option_header, units_in_second, time_unit, enhanced_interface, packet_of, nanoseconds_of, time_of, enhanced_header, captured_size, simple_header, block_end, least_length, padded, length_by_order};
ghost use Rattle.capture_file.specs.Fits.{Fits};

use crate::fault::FaultKind;
use crate::part::{Block, Body, ByteOrder, Interface, LengthByOrder, Outcome, PacketInfo, Part};
use crate::records::{MOST_CAPTURED, SECTION};

/// The greatest number of interfaces in a section.
pub const MOST_INTERFACES: usize = 256;

const BYTE_ORDER_MAGIC: u32 = 0x1a2b_3c4d;

const INTERFACE: u32 = 1;

const SIMPLE: u32 = 3;

const ENHANCED: u32 = 6;

/// The first nanosecond of the year 10000, counted since 1970. From then on a packet has no time.
const YEAR_10000: u128 = 253_402_300_800_000_000_000;

/// Reads the length of a section header block in both byte orders.
fn length_by_order(octets: &[u8], at: usize) -> Outcome
    requires { at + 4 ≤ length octets.now }
    ensures value { result ≡ length_by_order at octets.now }
    ensures fits { Fits 0 result }
{
    let big = ByteOrder::Big.four_at(octets, at);
    let little = ByteOrder::Little.four_at(octets, at);
    Outcome::Continues(Part::ByteOrderMagic(LengthByOrder { big, little }))
}

/// After the length of the first block.
#[tactic(auto, unfolding(crate::specs::Blocks::section_length))]
pub fn section_length(octets: &[u8]) -> Outcome
    requires { 4 ≤ length octets.now }
    ensures value { result ≡ section_length octets.now }
    ensures fits { Fits 0 result }
{
    length_by_order(octets, 0)
}

/// What comes after the byte-order magic of a section, by the length of its header block.
#[tactic(auto, unfolding(crate::specs::Blocks::section))]
fn section(order: ByteOrder, length: u32) -> Outcome
    ensures value { result ≡ section order length }
    ensures fits { Fits 0 result }
{
    if length % 4 == 0 && length >= 28 {
        let left = length - 20;
        Outcome::Continues(Part::SectionVersion(Block {
            order,
            length,
            left,
        }))
    } else {
        Outcome::Fails(FaultKind::Length)
    }
}

/// After the byte-order magic of a section.
#[tactic(auto, unfolding(crate::specs::Blocks::byte_order_magic))]
pub fn byte_order_magic(either: LengthByOrder, octets: &[u8]) -> Outcome
    requires { 4 ≤ length octets.now }
    ensures value { result ≡ byte_order_magic either octets.now }
    ensures fits { Fits 0 result }
{
    if ByteOrder::Big.four_at(octets, 0) == BYTE_ORDER_MAGIC {
        section(ByteOrder::Big, either.big)
    } else if ByteOrder::Little.four_at(octets, 0) == BYTE_ORDER_MAGIC {
        section(ByteOrder::Little, either.little)
    } else {
        Outcome::Fails(FaultKind::Format)
    }
}

/// After the version of a section.
#[tactic(auto, unfolding(crate::specs::Blocks::section_version))]
pub fn section_version(block: Block, octets: &[u8]) -> Outcome
    requires { 4 ≤ length octets.now }
    ensures value { result ≡ section_version block octets.now }
    ensures fits { Fits 0 result }
{
    if block.order.two_at(octets, 0) == 1 {
        Outcome::Continues(Part::BlockEnd(block))
    } else {
        Outcome::Fails(FaultKind::Version)
    }
}

/// The least total length that a block of this type needs, for its fixed fields.
fn least_length(kind: u32) -> u32
    ensures { result ≡ least_length kind }
{
    match kind {
        INTERFACE => 20,
        ENHANCED => 32,
        SIMPLE => 16,
        _ => 12,
    }
}

/// What comes after the type and the length of a block, in a section that has this number of interfaces.
#[tactic(auto, unfolding(crate::specs::Blocks::block_of))]
fn block_of(order: ByteOrder, kind: u32, length: u32, interfaces: usize) -> Outcome
    requires { least_length kind ≤ length }
    ensures value { result ≡ block_of order kind length interfaces }
    ensures fits { Fits (256 - interfaces) result }
{
    let block = |left: u32| Block {
        order,
        length,
        left,
    };
    match kind {
        INTERFACE if interfaces < MOST_INTERFACES => {
            Outcome::Continues(Part::InterfaceHeader(block(length - 20)))
        }
        INTERFACE => Outcome::Fails(FaultKind::Interface),
        ENHANCED => Outcome::Continues(Part::EnhancedInterface(block(length - 32))),
        SIMPLE => Outcome::Continues(Part::SimpleHeader(block(length - 16))),
        _ => Outcome::Continues(Part::BlockEnd(block(length - 12))),
    }
}

/// After the type and the length of a block, in a section that has this number of interfaces.
#[tactic(auto, unfolding(crate::specs::Blocks::block_header))]
pub fn block_header(order: ByteOrder, interfaces: usize, octets: &[u8]) -> Outcome
    requires { 8 ≤ length octets.now }
    ensures value { result ≡ block_header order interfaces octets.now }
    ensures fits { Fits (256 - interfaces) result }
{
    let kind = order.four_at(octets, 0);
    if kind == SECTION {
        return length_by_order(octets, 4);
    }
    let length = order.four_at(octets, 4);
    if length % 4 == 0 && length >= least_length(kind) {
        block_of(order, kind, length, interfaces)
    } else {
        Outcome::Fails(FaultKind::Length)
    }
}

/// What comes among the options of a block: another option, if there is room for its header after `skip` octets of the one
/// before, else the block's end.
#[tactic(auto, unfolding(crate::specs::Blocks::options))]
fn options(block: Block, interface: Interface, skip: u32) -> Outcome
    requires { skip ≤ 65536 }
    ensures value { result ≡ options block interface skip }
    ensures fits { Fits 1 result }
{
    if skip + 4 <= block.left {
        let left = block.left - (skip + 4);
        Outcome::Continues(Part::OptionHeader(Block { left, ..block }, interface, skip))
    } else {
        Outcome::Continues(Part::InterfaceEnd(block, interface))
    }
}

/// After the fixed fields of an interface description block.
#[tactic(auto, unfolding(crate::specs::Blocks::interface_header))]
pub fn interface_header(block: Block, octets: &[u8]) -> Outcome
    requires { 8 ≤ length octets.now }
    ensures value { result ≡ interface_header block octets.now }
    ensures fits { Fits 1 result }
{
    let link = block.order.two_at(octets, 0);
    let snapshot = block.order.four_at(octets, 4);
    let interface = Interface {
        link,
        snapshot,
        ticks: 1_000_000,
    };
    options(block, interface, 0)
}

/// The number of octets with their padding to a multiple of 4.
fn padded(count: u16) -> u32
    ensures value { result ≡ padded count }
    ensures few { result ≤ 65536 }
{
    (u32::from(count) + 3) / 4 * 4
}

/// After the code and the length of an option.
#[tactic(auto, unfolding(crate::specs::Blocks::option_header))]
pub fn option_header(block: Block, interface: Interface, octets: &[u8]) -> Outcome
    requires { 4 ≤ length octets.now }
    ensures value { result ≡ option_header block interface octets.now }
    ensures fits { Fits 1 result }
{
    let code = block.order.two_at(octets, 0);
    let count = block.order.two_at(octets, 2);
    let skip = padded(count);
    if code == 0 || skip > block.left {
        return Outcome::Continues(Part::InterfaceEnd(block, interface));
    }
    if code == 9 && count == 1 {
        let left = block.left - 1;
        return Outcome::Continues(Part::TimeUnit(Block { left, ..block }, interface));
    }
    options(block, interface, skip)
}

/// How many units of time make a second, by the number of the unit.
fn units_in_second(unit: u8) -> u64
    requires { (unit < 20) ⊎ ((128 ≤ unit) × (unit < 192)) }
    ensures { result ≡ units_in_second unit }
{
    if unit < 128 {
        10u64.pow(u32::from(unit))
    } else {
        2u64.pow(u32::from(unit - 128))
    }
}

/// After the number that gives the unit of an interface's times.
#[tactic(auto, unfolding(crate::specs::Blocks::time_unit))]
pub fn time_unit(block: Block, interface: Interface, octets: &[u8]) -> Outcome
    requires { 1 ≤ length octets.now }
    ensures value { result ≡ time_unit block interface octets.now }
    ensures fits { Fits 1 result }
{
    let unit = octets[0];
    if unit < 20 || (unit >= 128 && unit < 192) {
        let ticks = units_in_second(unit);
        options(block, Interface { ticks, ..interface }, 3)
    } else {
        Outcome::Fails(FaultKind::Format)
    }
}

/// After the number of the interface of an enhanced packet.
#[tactic(auto, unfolding(crate::specs::Blocks::enhanced_interface))]
pub fn enhanced_interface(block: Block, interfaces: &[Interface], octets: &[u8]) -> Outcome
    requires { 4 ≤ length octets.now }
    ensures value { result ≡ enhanced_interface block interfaces.now octets.now }
    ensures fits { Fits 0 result }
{
    let number = block.order.four_at(octets, 0);
    match interfaces.get(number as usize) {
        Some(interface) => Outcome::Continues(Part::EnhancedHeader(block, *interface)),
        None => Outcome::Fails(FaultKind::Interface),
    }
}

/// What comes before the octets of a packet: the packet, if it isn't too long and its block has room for it.
#[tactic(auto, unfolding(crate::specs::Blocks::packet_of))]
fn packet_of(block: Block, body: Body) -> Outcome
    requires { body.packet_offset ≤ 4 }
    ensures value { result ≡ packet_of block body }
    ensures fits { Fits 0 result }
{
    if body.captured > MOST_CAPTURED || body.captured > block.left {
        return Outcome::Fails(FaultKind::Length);
    }
    let left = block.left - body.captured;
    Outcome::Continues(Part::Packet(Block { left, ..block }, body))
}

/// A number of units in nanoseconds, rounded down. The units of most captures need no division.
fn nanoseconds_of(units: u64, ticks: u64) -> u128
    requires { 0 < ticks }
    ensures { result ≡ nanoseconds_of units ticks }
{
    let units = u128::from(units);
    match ticks {
        1_000_000_000 => units,
        1_000_000 => units * 1000,
        _ => units * 1_000_000_000 / u128::from(ticks),
    }
}

/// A number of units in nanoseconds since 1970. From the year 10000 on there is none.
#[tactic(auto, unfolding(crate::specs::Blocks::time_of))]
fn time_of(units: u64, ticks: u64) -> Option<u128>
    ensures { result ≡ time_of units ticks }
{
    if ticks == 0 {
        return None;
    }
    let time = nanoseconds_of(units, ticks);
    if time >= YEAR_10000 { None } else { Some(time) }
}

/// After the time and the captured length of an enhanced packet.
#[tactic(auto, unfolding(crate::specs::Blocks::enhanced_header))]
pub fn enhanced_header(block: Block, interface: Interface, octets: &[u8]) -> Outcome
    requires { 12 ≤ length octets.now }
    ensures value { result ≡ enhanced_header block interface octets.now }
    ensures fits { Fits 0 result }
{
    let high = u64::from(block.order.four_at(octets, 0));
    let low = u64::from(block.order.four_at(octets, 4));
    let time = time_of(high * 0x1_0000_0000 + low, interface.ticks);
    let captured = block.order.four_at(octets, 8);
    let link = interface.link;
    packet_of(
        block,
        Body {
            info: PacketInfo { link, time },
            packet_offset: 4,
            captured,
        },
    )
}

/// How many octets of a packet an interface captures, by the packet's original length.
fn captured_octets(original: u32, snapshot: u32) -> u32
    ensures { result ≡ captured_size original snapshot }
{
    if snapshot == 0 {
        original
    } else {
        original.min(snapshot)
    }
}

/// After the original length of a simple packet.
#[tactic(auto, unfolding(crate::specs::Blocks::simple_header))]
pub fn simple_header(block: Block, interfaces: &[Interface], octets: &[u8]) -> Outcome
    requires { 4 ≤ length octets.now }
    ensures value { result ≡ simple_header block interfaces.now octets.now }
    ensures fits { Fits 0 result }
{
    let original = block.order.four_at(octets, 0);
    let Some(interface) = interfaces.first() else {
        return Outcome::Fails(FaultKind::Interface);
    };
    let link = interface.link;
    packet_of(
        block,
        Body {
            info: PacketInfo { link, time: None },
            packet_offset: 0,
            captured: captured_octets(original, interface.snapshot),
        },
    )
}

/// After the second length of a block: `outcome`, if that length is the first one again.
#[tactic(auto, unfolding(crate::specs::Blocks::block_end))]
pub fn block_end(block: Block, octets: &[u8], outcome: Outcome) -> Outcome
    requires long { 4 ≤ length octets.now }
    requires fits { Fits 0 outcome }
    ensures value { result ≡ block_end block octets.now outcome }
    ensures fits { Fits 0 result }
{
    if block.order.four_at(octets, 0) == block.length {
        outcome
    } else {
        Outcome::Fails(FaultKind::Format)
    }
}
