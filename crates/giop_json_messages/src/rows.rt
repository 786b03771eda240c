//! The members of a call.

use crate::half::CallHalf;
use crate::message::version_text;
use giop_json_values::{Characters, JsonText, put_line_text, utf8_or_empty};
use giop_view_parts::{Endpoint, Message, Status, append_hex_as_text};
use std::alloc::{AllocError, Global};

/// What became of a call.
#[derive(Clone, Copy, Debug, Drop, PartialEq, Eq)]
pub(crate) enum Outcome {
    Unknown,
    Result,
    User,
    System,
    Forward,
    Addressing,
    Oneway,
    Cancelled,
    NoReply,
}

impl Outcome {
    /// The word for it. It is empty if it can't be told.
    fn word(self) -> &'static str {
        match self {
            Outcome::Unknown => "",
            Outcome::Result => "result",
            Outcome::User => "user_exception",
            Outcome::System => "system_exception",
            Outcome::Forward => "forward",
            Outcome::Addressing => "addressing",
            Outcome::Oneway => "oneway",
            Outcome::Cancelled => "cancelled",
            Outcome::NoReply => "no_reply",
        }
    }
}

/// A Request and the Reply that answers it. One of the two may be unknown.
#[derive(Clone, Copy)]
pub(crate) struct Call<'a> {
    pub(crate) request: Option<&'a Message<CallHalf>>,
    pub(crate) reply: Option<&'a Message<CallHalf>>,
}

impl<'a> Call<'a> {
    /// What became of the call.
    fn outcome(self) -> Outcome {
        if let Some(request) = self.request {
            if request.facts.is_oneway && self.reply.is_none() {
                return Outcome::Oneway;
            }
            if request.facts.cancelled_by > 0 {
                return Outcome::Cancelled;
            }
        }
        match (self.request, self.reply) {
            (_, Some(reply)) => match reply.facts.status {
                Status::Unknown => Outcome::Unknown,
                Status::Result => Outcome::Result,
                Status::User => Outcome::User,
                Status::System => Outcome::System,
                Status::Forward => Outcome::Forward,
                Status::Addressing => Outcome::Addressing,
            },
            (Some(request), None) if request.key.stream > 0 => Outcome::NoReply,
            _ => Outcome::Unknown,
        }
    }

    /// Whether lines are missing, or there was no room.
    fn is_cut(self) -> bool {
        is_cut(self.request) || is_cut(self.reply)
    }

    /// Whether a text was dropped because there was no room.
    pub(crate) fn is_dropped(self) -> bool {
        self.request.is_some_and(|message| message.own.is_dropped)
            || self.reply.is_some_and(|message| message.own.is_dropped)
    }

    /// The endpoints of the client and of the server.
    fn client_and_server(self) -> (&'a [u8], &'a [u8]) {
        match (self.request, self.reply) {
            (Some(request), _) => (&request.own.source, &request.own.target),
            (None, Some(reply)) => (&reply.own.target, &reply.own.source),
            (None, None) => (b"", b""),
        }
    }

    /// Writes the members before those of the bodies.
    pub(crate) fn put_members_before_bodies(
        self,
        alloc: Global,
        text: &mut JsonText,
        characters: Characters,
    ) -> Result<(), AllocError> {
        let (request, reply) = (self.request, self.reply);
        let (client, server) = self.client_and_server();
        text.open(false)?;
        text.text_member_or_null("request_time", request.map_or(b"", |m| &m.facts.time))?;
        text.key("seconds")?;
        match reply {
            Some(reply) if !reply.facts.seconds.is_empty() => text.number(&reply.facts.seconds)?,
            _ => text.null()?,
        }
        put_endpoint(text, ["client", "client_port"], client)?;
        put_endpoint(text, ["server", "server_port"], server)?;
        text.key("object")?;
        put_object_key(
            alloc,
            text,
            request.map_or(b"", |m| m.own.object_key_digits()),
            characters,
        )?;
        text.text_member_or_null("interface", request.map_or(b"", |m| &m.facts.interface))?;
        let called = request.map_or(b"".as_slice(), |m| &m.facts.operation);
        let answered = reply.map_or(b"".as_slice(), |m| &m.facts.operation);
        text.text_member_or_null(
            "operation",
            if called.is_empty() { answered } else { called },
        )?;
        text.text_member_or_null("outcome", self.outcome().word().as_bytes())?;
        text.text_member_or_null("exception", reply.map_or(b"", |m| &m.facts.raises))
    }

    /// The bodies, with the names of their members. A body that there isn't is empty.
    pub(crate) fn bodies(self) -> [(&'static str, &'a [u8]); 4] {
        let arguments = self.request.map_or(b"".as_slice(), |m| &m.own.body);
        let answer = self.reply.map_or(b"".as_slice(), |m| &m.own.body);
        let status = self.reply.map_or(Status::Unknown, |m| m.facts.status);
        let none = b"".as_slice();
        let (result, raised, forward) = match status {
            Status::User | Status::System => (none, answer, none),
            Status::Forward => (none, none, answer),
            _ => (answer, none, none),
        };
        [
            ("arguments", arguments),
            ("result", result),
            ("raised", raised),
            ("forward", forward),
        ]
    }

    /// Writes the members after those of the bodies.
    pub(crate) fn put_members_after_bodies(self, text: &mut JsonText) -> Result<(), AllocError> {
        let (request, reply) = (self.request, self.reply);
        text.text_member_or_null("request_rest", request.map_or(b"", |m| &m.own.rest))?;
        text.text_member_or_null("reply_rest", reply.map_or(b"", |m| &m.own.rest))?;
        text.text_member_or_null("request_fault", request.map_or(b"", fault_word))?;
        text.text_member_or_null("reply_fault", reply.map_or(b"", fault_word))?;
        let id = request.and_then(|m| m.facts.call);
        text.number_member_or_null("request_id", id.map(u64::from))?;
        let some = if request.is_some() { request } else { reply };
        let header = some.and_then(|m| m.facts.header);
        text.text_member_or_null("version", header.map_or("", version_text).as_bytes())?;
        let connection = some.and_then(|m| m.own.connection);
        text.number_member_or_null("connection", connection.map(|of| of.number))?;
        put_message_numbers(
            text,
            [
                "request_stream",
                "request_message",
                "request_packet",
                "request_octets",
            ],
            request,
        )?;
        put_message_numbers(
            text,
            [
                "reply_stream",
                "reply_message",
                "reply_packet",
                "reply_octets",
            ],
            reply,
        )?;
        text.text_member_or_null("reply_time", reply.map_or(b"", |m| &m.facts.time))?;
        text.key("cut")?;
        text.boolean(self.is_cut())?;
        text.close(false)
    }
}

/// Whether lines of a message are missing, or there was no room.
fn is_cut(message: Option<&Message<CallHalf>>) -> bool {
    message.is_some_and(|m| m.own.is_cut() || m.facts.header.is_none() || !m.has_ended)
}

/// The word of a message's fault, or that the message is unfinished.
fn fault_word(message: &Message<CallHalf>) -> &[u8] {
    if message.facts.fault.is_none() && message.facts.is_unfinished {
        return b"unfinished";
    }
    &message.facts.fault.word
}

/// Writes the address and the port of an endpoint.
fn put_endpoint(text: &mut JsonText, names: [&str; 2], end: &[u8]) -> Result<(), AllocError> {
    let end = Endpoint::of_text(utf8_or_empty(end));
    text.text_member_or_null(names[0], end.address.as_bytes())?;
    text.number_member_or_null(names[1], end.port)
}

/// Writes an object key as text.
fn put_object_key(
    alloc: Global,
    text: &mut JsonText,
    digits: &[u8],
    characters: Characters,
) -> Result<(), AllocError> {
    if digits.is_empty() {
        return text.null();
    }
    let mut object = Vec::new(alloc);
    append_hex_as_text(&mut object, digits)?;
    put_line_text(alloc, text, &object, characters)
}

/// Writes which message it is, its packet, and its octets.
fn put_message_numbers(
    text: &mut JsonText,
    names: [&str; 4],
    message: Option<&Message<CallHalf>>,
) -> Result<(), AllocError> {
    let numbers = match message {
        None => [None, None, None, None],
        Some(message) => [
            nonzero(message.key.stream),
            Some(message.key.number),
            nonzero(message.facts.packet),
            Some(message.octets),
        ],
    };
    for (name, number) in names.iter().zip(numbers) {
        text.number_member_or_null(name, number)?;
    }
    Ok(())
}

/// A number from 1. None stands for 0, which means that the number isn't known.
fn nonzero(number: u64) -> Option<u64> {
    if number == 0 { None } else { Some(number) }
}
