//! What the lines of a message tell in addition to its values.

use crate::message::Key;
use giop_cdr::Order;
use giop_json_values::JsonText;
use giop_lines::{Answers, Call, Fault, Start, Statement, Time, Value};
use std::alloc::{AllocError, Global};

/// What kind of message it is, as far as a view makes a difference.
#[derive(Clone, Copy, Debug, Drop, PartialEq, Eq)]
pub enum Kind {
    /// A Request.
    Request,
    /// A Reply.
    Reply,
    /// Another message that a client sends.
    OfClient,
    /// Another message that a server sends.
    OfServer,
    /// A message that either may send, or whose beginning is missing.
    Other,
}

impl Kind {
    /// The kind of message that the word of a message type names.
    fn of_word(word: &[u8]) -> Kind {
        match word {
            b"Request" => Kind::Request,
            b"Reply" => Kind::Reply,
            b"LocateRequest" | b"CancelRequest" => Kind::OfClient,
            b"LocateReply" => Kind::OfServer,
            _ => Kind::Other,
        }
    }

    /// Whether a server sent it; None if a client may have sent it too.
    pub fn is_of_server(self) -> Option<bool> {
        match self {
            Kind::Request | Kind::OfClient => Some(false),
            Kind::Reply | Kind::OfServer => Some(true),
            Kind::Other => None,
        }
    }
}

/// What the status of a Reply says about its body (GIOP ReplyStatusType).
#[derive(Clone, Copy, Debug, Drop, PartialEq, Eq)]
pub enum Status {
    /// No status came.
    Unknown,
    /// A result.
    Result,
    /// A user exception.
    User,
    /// A system exception.
    System,
    /// A reference to the object that the call should be sent to.
    Forward,
    /// The way in which the object should be named.
    Addressing,
}

impl Status {
    /// The status that has this name.
    fn of_name(name: &[u8]) -> Status {
        match name {
            b"NO_EXCEPTION" => Status::Result,
            b"USER_EXCEPTION" => Status::User,
            b"SYSTEM_EXCEPTION" => Status::System,
            b"LOCATION_FORWARD" | b"LOCATION_FORWARD_PERM" => Status::Forward,
            b"NEEDS_ADDRESSING_MODE" => Status::Addressing,
            _ => Status::Unknown,
        }
    }
}

/// The header of a message, without the word of its type.
#[derive(Clone, Copy, Drop)]
pub struct Header {
    /// The minor version.
    pub minor: u8,
    /// The byte order of the message.
    pub order: Order,
    /// How many octets follow the header.
    pub size: u32,
    /// Whether Fragments continue it.
    pub more: bool,
}

/// What the lines of a message tell in addition to its values. What is empty, or 0, isn't known.
#[derive(Drop)]
pub struct Facts {
    /// The header, if the message's beginning was seen.
    pub header: Option<Header>,
    /// The word of its type.
    pub word: Vec<u8>,
    kind: Kind,
    has_time: bool,
    /// When it began.
    pub time: Vec<u8>,
    /// The packet in which it began.
    pub packet: u64,
    /// The request id of a call.
    pub call: Option<u32>,
    /// The operation of a call, or of the call that it answers.
    pub operation: Vec<u8>,
    /// The interface of a call.
    pub interface: Vec<u8>,
    /// The call that a Reply answers.
    pub answers: Option<Key>,
    /// The seconds since that call.
    pub seconds: Vec<u8>,
    /// Whether it is a Request that expects no reply.
    pub is_oneway: bool,
    /// The status of a Reply.
    pub status: Status,
    has_exception: bool,
    /// The repository id of the exception that a Reply raises.
    pub raises: Vec<u8>,
    /// The message that a Fragment continues.
    pub continues: u64,
    /// The message that cancels it.
    pub cancelled_by: u64,
    /// Whether its stream ended before it did.
    pub is_unfinished: bool,
    /// Why it isn't read to its end, if it isn't.
    pub fault: NotedFault,
}

impl Facts {
    pub(crate) fn new(alloc: Global) -> Facts {
        Facts {
            header: None,
            word: Vec::new(alloc),
            kind: Kind::Other,
            has_time: false,
            time: Vec::new(alloc),
            packet: 0,
            call: None,
            operation: Vec::new(alloc),
            interface: Vec::new(alloc),
            answers: None,
            seconds: Vec::new(alloc),
            is_oneway: false,
            status: Status::Unknown,
            has_exception: false,
            raises: Vec::new(alloc),
            continues: 0,
            cancelled_by: 0,
            is_unfinished: false,
            fault: NotedFault::new(alloc),
        }
    }

    pub(crate) fn clear(&mut self) {
        self.header = None;
        self.word.clear();
        self.kind = Kind::Other;
        self.has_time = false;
        self.time.clear();
        self.packet = 0;
        self.call = None;
        self.operation.clear();
        self.interface.clear();
        self.answers = None;
        self.seconds.clear();
        self.is_oneway = false;
        self.status = Status::Unknown;
        self.has_exception = false;
        self.raises.clear();
        self.continues = 0;
        self.cancelled_by = 0;
        self.is_unfinished = false;
        self.fault.clear();
    }

    /// What kind of message it is.
    pub fn kind(&self) -> Kind {
        self.kind
    }

    /// Whether, after the message's end, a line may still tell its time, the call that it answers, or the exception that it
    /// raises.
    pub(crate) fn may_be_told_more(&self) -> bool {
        let is_other = self.header.is_some() && self.kind != Kind::Reply;
        let is_whole = self.has_time && (is_other || self.answers.is_some());
        let has_raised = self.has_exception || matches!(self.status, Status::User | Status::System);
        !is_whole || has_raised && self.raises.is_empty()
    }

    /// Notes what the header says about replies, and that the id of an exception came.
    #[inline]
    pub(crate) fn note_value(&mut self, path: &[u8], value: Value<'_>) {
        match value {
            Value::Octet(flags) if path == b"header.response_flags".as_slice() => {
                self.is_oneway = flags % 2 == 0;
            }
            Value::Boolean(is_expected) if path == b"header.response_expected".as_slice() => {
                self.is_oneway = !is_expected;
            }
            Value::Enum(status) if path == b"header.reply_status".as_slice() => {
                self.status = Status::of_name(status);
            }
            Value::Piece(_) if path == b"exception".as_slice() => self.has_exception = true,
            _ => {}
        }
    }

    /// Takes a line that isn't a value.
    pub(crate) fn take_statement(&mut self, said: Statement<'_>) -> Result<(), AllocError> {
        match said {
            Statement::Start(start) => self.take_start(start),
            Statement::Time(time) => self.take_time(time),
            Statement::Call(call) => self.take_call(call),
            Statement::Answers(answers) => self.take_answers(answers),
            Statement::Raises(id) => replace_octets(&mut self.raises, id),
            Statement::Fault(fault) => self.fault.note_fault(fault),
            _ => {
                self.take_end(said);
                Ok(())
            }
        }
    }

    fn take_end(&mut self, said: Statement<'_>) {
        match said {
            Statement::Continues(message) => self.continues = message,
            Statement::Cancelled(message) => self.cancelled_by = message,
            Statement::Unfinished => self.is_unfinished = true,
            _ => {}
        }
    }

    fn take_start(&mut self, start: Start<'_>) -> Result<(), AllocError> {
        self.header = Some(Header {
            minor: start.minor,
            order: start.order,
            size: start.size,
            more: start.more,
        });
        self.kind = Kind::of_word(start.kind);
        replace_octets(&mut self.word, start.kind)
    }

    fn take_time(&mut self, time: Time<'_>) -> Result<(), AllocError> {
        self.has_time = true;
        if let Some(packet) = time.packet {
            self.packet = packet;
        }
        replace_if_known(&mut self.time, time.time)
    }

    fn take_call(&mut self, call: Call<'_>) -> Result<(), AllocError> {
        self.call = Some(call.id);
        if let Some(interface) = call.interface {
            replace_octets(&mut self.interface, interface)?;
        }
        replace_octets(&mut self.operation, call.operation)
    }

    fn take_answers(&mut self, answers: Answers<'_>) -> Result<(), AllocError> {
        self.answers = Some(Key {
            stream: answers.stream,
            number: answers.message,
        });
        replace_octets(&mut self.operation, answers.operation)?;
        replace_if_known(&mut self.seconds, answers.seconds)
    }
}

/// A fault, if there is one.
#[derive(Drop)]
pub struct NotedFault {
    /// The word of the fault. It is empty if there is none.
    pub word: Vec<u8>,
    /// The octet at which reading ended.
    pub place: u64,
}

impl NotedFault {
    /// Makes one without a fault.
    pub fn new(alloc: Global) -> NotedFault {
        NotedFault {
            word: Vec::new(alloc),
            place: 0,
        }
    }

    /// Forgets the fault.
    pub fn clear(&mut self) {
        self.word.clear();
    }

    /// Whether there is no fault.
    pub fn is_none(&self) -> bool {
        self.word.is_empty()
    }

    /// Notes a fault.
    pub fn note_fault(&mut self, fault: Fault<'_>) -> Result<(), AllocError> {
        self.place = fault.place;
        replace_octets(&mut self.word, fault.word)
    }

    /// Writes the member `fault`, if there is one.
    pub fn put_member(&self, text: &mut JsonText) -> Result<(), AllocError> {
        if self.is_none() {
            return Ok(());
        }
        text.key("fault")?;
        text.open(false)?;
        text.text_member_if_known("word", &self.word)?;
        text.number_member("at", self.place)?;
        text.close(false)
    }
}

/// Puts octets in place of those that were kept.
pub fn replace_octets(kept: &mut Vec<u8>, octets: &[u8]) -> Result<(), AllocError> {
    kept.clear();
    kept.extend_from_slice(octets)
}

/// Puts a text in place of the one that was kept, unless the text is `-`, which means that nothing is known.
pub fn replace_if_known(kept: &mut Vec<u8>, octets: &[u8]) -> Result<(), AllocError> {
    if octets == b"-".as_slice() {
        return Ok(());
    }
    replace_octets(kept, octets)
}
