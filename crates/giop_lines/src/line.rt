//! A line of a dump, as what it was made of (docs/FORMATS.md, Lines). Octets are borrowed from the line.

use giop_cdr::Order;

/// A line of a dump, without its LF.
#[derive(Clone, Copy)]
pub struct DumpLine<'a> {
    /// The number of its stream, from 1; 0 if it names none.
    pub stream: u64,
    /// The number of its message, from 1; 0 if it names none.
    pub message: u64,
    /// What the line says about them.
    pub said: Statement<'a>,
}

/// What a line says about its message, its stream or its capture.
#[derive(Clone, Copy)]
pub enum Statement<'a> {
    /// The header of a message.
    Start(Start<'a>),
    /// A value, after its path (`first_part` takes the path apart).
    Value(&'a [u8], Value<'a>),
    /// A part of what a message has after its body: its offset, and its 1 to 32 octets as hexadecimal digits.
    Rest(u64, &'a [u8]),
    /// The call that a Request is.
    Call(Call<'a>),
    /// When a message began.
    Time(Time<'a>),
    /// The call that a Reply answers.
    Answers(Answers<'a>),
    /// The repository id of the exception that a Reply raises.
    Raises(&'a [u8]),
    /// The message that a Fragment continues.
    Continues(u64),
    /// The CancelRequest by which a message is cancelled.
    Cancelled(u64),
    /// The fault of a message.
    Fault(Fault<'a>),
    /// The stream ended before the message did.
    Unfinished,
    /// The message ended.
    End,
    /// A stream began.
    Stream(StreamStart<'a>),
    /// The fault of a stream.
    StreamFault(Fault<'a>),
    /// The word that a stream closed with.
    Closed(&'a [u8]),
    /// The totals of a stream.
    Total(Total),
    /// The fault of a capture.
    CaptureFault(Fault<'a>),
    /// The totals of a capture.
    CaptureTotal(CaptureTotal),
    /// What comes after the numbers of a line that a later version may have: octets from 20 to 7e.
    Later(&'a [u8]),
}

/// The header of a message (GIOP Message Header).
#[derive(Clone, Copy)]
pub struct Start<'a> {
    /// The minor version of GIOP 1, at most 2.
    pub minor: u8,
    /// The byte order of the message.
    pub order: Order,
    /// The word of the message type, or its number, of at most 255.
    pub kind: &'a [u8],
    /// How many octets follow the header.
    pub size: u32,
    /// Whether fragments follow.
    pub more: bool,
}

/// A value of a message.
#[derive(Clone, Copy)]
pub enum Value<'a> {
    /// An octet.
    Octet(u8),
    /// A short.
    Short(i16),
    /// An unsigned short.
    UShort(u16),
    /// A long.
    Long(i32),
    /// An unsigned long.
    ULong(u32),
    /// An unsigned long and its name: a word, or a word, a space and a number.
    Named(u32, &'a [u8]),
    /// A long long.
    LongLong(i64),
    /// An unsigned long long.
    ULongLong(u64),
    /// The bits of a float.
    Float(u32),
    /// The bits of a double.
    Double(u64),
    /// A boolean.
    Boolean(bool),
    /// A char as text: one octet, or the escape of one (`first_octet` reads it).
    Char(&'a [u8]),
    /// The name of an enum's value.
    Enum(&'a [u8]),
    /// The number of elements in a sequence. The elements follow.
    Count(u32),
    /// The number of octets in an encapsulation.
    Encapsulation(u32),
    /// The byte order of an encapsulation.
    Order(Order),
    /// A piece of a content.
    Piece(Piece<'a>),
}

/// A piece of a content that comes in pieces of 32 octets.
#[derive(Clone, Copy)]
pub struct Piece<'a> {
    /// The content.
    pub content: Content,
    /// How many octets of the content come before the piece.
    pub offset: u32,
    /// At most 32 octets. Those of a string are text (`first_octet` reads them one by one), others are two hexadecimal
    /// digits each.
    pub octets: &'a [u8],
    /// Whether ` more` follows.
    pub more: bool,
}

/// The content that a piece belongs to.
#[derive(Clone, Copy, Debug, PartialEq, Eq)]
pub enum Content {
    /// A string.
    Text,
    /// A sequence of octets.
    Octets,
    /// A wide string.
    WideString,
    /// A wide char.
    WideChar,
    /// The octets that an encapsulation has after its value; no ` more` follows.
    Rest,
}

/// The call that a Request is.
#[derive(Clone, Copy)]
pub struct Call<'a> {
    /// The request id.
    pub id: u32,
    /// The operation: 1 to 128 octets from 21 to 7e.
    pub operation: &'a [u8],
    /// The interface of the operation, if it is known: 1 to 128 octets from 21 to 7e.
    pub interface: Option<&'a [u8]>,
}

/// When a message began.
#[derive(Clone, Copy)]
pub struct Time<'a> {
    /// The time, as `2026-11-23T08:13:25.580228123Z`, or `-` if there is none.
    pub time: &'a [u8],
    /// The number of the packet in its capture, from 1.
    pub packet: Option<u64>,
}

/// The call that a Reply answers.
#[derive(Clone, Copy)]
pub struct Answers<'a> {
    /// The number of the call's stream.
    pub stream: u64,
    /// The number of the call's message.
    pub message: u64,
    /// The operation: 1 to 128 octets from 21 to 7e.
    pub operation: &'a [u8],
    /// The seconds since the call, with nine digits after the point, or `-` if they aren't known.
    pub seconds: &'a [u8],
}

/// A fault.
#[derive(Clone, Copy)]
pub struct Fault<'a> {
    /// Its word.
    pub word: &'a [u8],
    /// How many octets of the stream or of the capture were read.
    pub place: u64,
}

/// The beginning of a stream.
#[derive(Clone, Copy)]
pub struct StreamStart<'a> {
    /// The sender, as `192.0.2.1:2809` or `[2001:db8::1]:2809`.
    pub source: &'a [u8],
    /// The receiver, in the same form as the sender.
    pub target: &'a [u8],
    /// The time, in the same form as the time of a message.
    pub time: &'a [u8],
    /// The number of the other stream of the connection, if one lives.
    pub with: Option<u64>,
    /// How many octets of its flow come before it, if any do.
    pub behind: Option<u64>,
    /// Whether it was found in the middle of a flow.
    pub found: bool,
}

/// The totals of a stream.
#[derive(Clone, Copy)]
pub struct Total {
    /// How many messages began.
    pub messages: u64,
    /// How many faults there are.
    pub faults: u64,
    /// How many octets were read.
    pub octets: u64,
}

/// The totals of a capture.
#[derive(Clone, Copy)]
pub struct CaptureTotal {
    /// How many streams began.
    pub streams: u64,
    /// How many messages began.
    pub messages: u64,
    /// How many faults there are.
    pub faults: u64,
    /// How many packets were read.
    pub packets: u64,
    /// How many octets of the capture were read.
    pub octets: u64,
    /// How many payloads were looked through and in which no stream begins.
    pub other: Option<u64>,
}
