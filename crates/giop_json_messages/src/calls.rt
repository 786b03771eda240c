//! An object for each call, after its Request and the Reply that answers it are over.

ghost use Rattle.std.specs.Prelude.{◌≡◌, Some, IfSome};

use crate::half::CallHalf;
use crate::objects::{ReusedBuffer, Settings, put_json_in_ascii};
use crate::rows::Call;
use giop_lines::{Statement, Value};
use giop_print::Out;
use giop_view_parts::{
    ConnectionEnding, ConnectionId, Key, Kind, Maker, Message, Notice, Open, OwnKey, Pool, Stream,
    Streams, ViewError, WaitingKey, greater_rank,
};
use std::alloc::{AllocError, Global};
use std::collections::BTreeMap;

/// A Reply waits under the key of the call that it answers.
#[derive(Drop)]
struct CallKey;

impl WaitingKey for CallKey {
    ghost waiting_key = { λ _ answered. answered };
}

/// Writes an object for each call.
#[derive(Drop)]
pub struct Calls {
    alloc: Global,
    settings: Settings,
    room: ReusedBuffer,
    // The room for the members after those of the bodies.
    back: ReusedBuffer,
    // The Requests that wait for their replies. They can also be found by their connections and by when they began.
    waiting: Pool<CallHalf, OwnKey>,
    by_connection: BTreeMap<(u64, u64), Key>,
    // The Replies that were over before their calls, under the keys of the calls.
    early: Pool<CallHalf, CallKey>,
    cut: u64,
}

impl Calls {
    /// Makes one to which no call has come.
    pub fn new(alloc: Global, settings: Settings) -> Calls {
        Calls {
            alloc,
            settings,
            room: ReusedBuffer::new(alloc),
            back: ReusedBuffer::new(alloc),
            waiting: Pool::new(alloc),
            by_connection: BTreeMap::new(alloc),
            early: Pool::new(alloc),
            cut: 0,
        }
    }

    /// Writes a call: a Request and the Reply that answers it. One of the two may be unknown.
    fn put_call<O: Out>(
        &mut self,
        out: &mut O,
        open: &mut Open<CallHalf>,
        request: Option<Box<Message<CallHalf>>>,
        reply: Option<Box<Message<CallHalf>>>,
    ) -> Result<(), ViewError>
        // The Reply answers the Request.
        requires { IfSome request (λ q. IfSome reply (λ r.
            r.value.facts.answers ≡ Some q.value.key)) }
    {
        let call = Call {
            request: borrowed_message(&request),
            reply: borrowed_message(&reply),
        };
        if call.is_dropped() {
            self.cut = self.cut.saturating_add(1);
        }
        self.put_call_object(out, call)?;
        if let Some(message) = request {
            open.keep_spare(message)?;
        }
        if let Some(message) = reply {
            open.keep_spare(message)?;
        }
        Ok(())
    }

    fn put_call_object<O: Out>(&mut self, out: &mut O, call: Call<'_>) -> Result<(), ViewError> {
        let mut front = self.room.begin_text();
        call.put_members_before_bodies(self.alloc, &mut front, self.settings.options.characters)?;
        let mut row = front.into_octets();
        for (name, body) in call.bodies() {
            row.extend_from_slice(b",\"")?;
            row.extend_from_slice(name.as_bytes())?;
            row.extend_from_slice(b"\":")?;
            row.extend_from_slice(if body.is_empty() { b"null" } else { body })?;
        }
        row.push(b',')?;
        let mut back = self.back.begin_text();
        call.put_members_after_bodies(&mut back)?;
        let back = back.into_octets();
        row.extend_from_slice(&back)?;
        self.back.take_back(back);
        row.push(b'\n')?;
        put_json_in_ascii(out, &row)?;
        self.room.take_back(row);
        Ok(())
    }

    /// Takes a Request that is over.
    fn end_request<O: Out>(
        &mut self,
        out: &mut O,
        open: &mut Open<CallHalf>,
        request: Box<Message<CallHalf>>,
    ) -> Result<(), ViewError> {
        let key = request.key;
        if key.stream == 0 || request.facts.is_oneway {
            return self.put_call(out, open, Some(request), None);
        }
        if let Some(reply) = self.early.remove(key) {
            return self.put_call(out, open, Some(request), Some(reply));
        }
        if let Some(other) = self.take_waiting_request(key) {
            self.put_call(out, open, Some(other), None)?;
        }
        let mut request = request;
        request.own.give_up_buffers(open.spare_message());
        if let Some(connection) = request.own.connection {
            self.by_connection
                .insert((connection.id, request.order), key)?;
        }
        self.waiting.insert(key, request)?;
        Ok(())
    }

    /// Takes a Reply that is over.
    fn end_reply<O: Out>(
        &mut self,
        out: &mut O,
        open: &mut Open<CallHalf>,
        reply: Box<Message<CallHalf>>,
    ) -> Result<(), ViewError> {
        let Some(key) = reply.facts.answers else {
            return self.put_call(out, open, None, Some(reply));
        };
        if let Some(request) = self.take_waiting_request(key) {
            return self.put_call(out, open, Some(request), Some(reply));
        }
        if !open.contains(key) || self.early.contains(key) {
            return self.put_call(out, open, None, Some(reply));
        }
        let mut reply = reply;
        reply.own.give_up_buffers(open.spare_message());
        self.early.insert(key, reply)?;
        Ok(())
    }

    /// Takes a Request that waits.
    fn take_waiting_request(&mut self, key: Key) -> Option<Box<Message<CallHalf>>>
        ensures { IfSome result (λ q. q.value.key ≡ key) }
    {
        let request = self.waiting.remove(key)?;
        if let Some(connection) = request.own.connection {
            let _ = self.by_connection.remove(&(connection.id, request.order));
        }
        Some(request)
    }

    /// Writes the calls of a connection that wait, the oldest first.
    fn put_calls_of_connection<O: Out>(
        &mut self,
        out: &mut O,
        open: &mut Open<CallHalf>,
        connection: ConnectionId,
    ) -> Result<(), ViewError> {
        for _ in 0..self.waiting.len() {
            let Some((place, key)) = self.by_connection.range((connection.id, 0)..).next() else {
                break;
            };
            let (id, key) = (place.0, *key);
            if id != connection.id {
                break;
            }
            match self.take_waiting_request(key) {
                None => break,
                Some(request) => self.put_call(out, open, Some(request), None)?,
            }
        }
        Ok(())
    }

    /// Drops the longest text that is held. Returns whether there was any.
    fn drop_longest_text(&mut self, open: &mut Open<CallHalf>) -> Result<bool, AllocError> {
        let (of_open, of_waiting, of_early) = (
            open.most_text(),
            self.waiting.most_text(),
            self.early.most_text(),
        );
        let most = greater_rank(greater_rank(of_open, of_waiting), of_early);
        let Some((_, key)) = most else {
            return Ok(false);
        };
        if most == of_open {
            let is_current = open.current_key() == Some(key);
            if let Some(mut message) = open.remove(key) {
                message.own.drop_text();
                open.put_back(message, is_current)?;
            }
            return Ok(true);
        }
        if most == of_waiting {
            drop_text_of(&mut self.waiting, key)?;
        } else {
            drop_text_of(&mut self.early, key)?;
        }
        Ok(true)
    }

    /// Writes the oldest call that waits, because there is no room for it. Returns whether there was one.
    fn put_oldest_request<O: Out>(
        &mut self,
        out: &mut O,
        open: &mut Open<CallHalf>,
    ) -> Result<bool, ViewError> {
        let Some(key) = self.waiting.first_begun() else {
            return Ok(false);
        };
        if let Some(mut request) = self.take_waiting_request(key) {
            request.own.drop_text();
            self.put_call(out, open, Some(request), None)?;
        }
        Ok(true)
    }
}

impl Maker for Calls {
    type ViewData = CallHalf;

    #[inline]
    fn take_value(
        &mut self,
        message: &mut Message<CallHalf>,
        path: &[u8],
        value: Value<'_>,
    ) -> Result<(), AllocError> {
        message.own.take_value(self.settings.options, path, value)
    }

    fn take_rest_or_later(
        &mut self,
        message: &mut Message<CallHalf>,
        said: Statement<'_>,
    ) -> Result<(), AllocError> {
        message.own.take_after_body(said)
    }

    fn end_message<O: Out>(
        &mut self,
        out: &mut O,
        streams: &Streams,
        open: &mut Open<CallHalf>,
        message: Box<Message<CallHalf>>,
    ) -> Result<(), ViewError> {
        let mut message = message;
        let kind = message.facts.kind();
        let stream = streams.get(message.key.stream);
        message.own.finish_body(stream)?;
        match kind {
            Kind::Request => self.end_request(out, open, message),
            Kind::Reply => self.end_reply(out, open, message),
            _ => Ok(open.keep_spare(message)?),
        }
    }

    fn take_stream_line<O: Out>(
        &mut self,
        _out: &mut O,
        _stream: &Stream,
        _said: Statement<'_>,
    ) -> Result<(), ViewError> {
        Ok(())
    }

    fn end_stream<O: Out>(
        &mut self,
        out: &mut O,
        stream: &Stream,
        ending: ConnectionEnding,
        open: &mut Open<CallHalf>,
    ) -> Result<(), ViewError> {
        match stream.connection {
            Some(connection) if ending.ends_connection() => self.put_calls_of_connection(
                out, open, connection,
            ),
            _ => Ok(()),
        }
    }

    fn finish<O: Out>(&mut self, out: &mut O, open: &mut Open<CallHalf>) -> Result<(), ViewError> {
        for _ in 0..self.waiting.len() {
            let Some(key) = self.waiting.first_begun() else {
                break;
            };
            if let Some(request) = self.take_waiting_request(key) {
                self.put_call(out, open, Some(request), None)?;
            }
        }
        for _ in 0..self.early.len() {
            let Some(key) = self.early.first_begun() else {
                break;
            };
            if let Some(reply) = self.early.remove(key) {
                self.put_call(out, open, None, Some(reply))?;
            }
        }
        Ok(())
    }

    #[inline]
    fn holds_too_much(&self, open_octets: u64) -> bool {
        let held = self
            .waiting
            .held_octets()
            .saturating_add(self.early.held_octets());
        self.settings.is_over_hold(open_octets.saturating_add(held))
    }

    fn reduce_held_text<O: Out>(
        &mut self,
        out: &mut O,
        _streams: &Streams,
        open: &mut Open<CallHalf>,
    ) -> Result<(), ViewError> {
        for _ in 0..u64::MAX {
            let has_more = self.holds_too_much(open.held_octets())
                && (self.drop_longest_text(open)? || self.put_oldest_request(out, open)?);
            if !has_more {
                break;
            }
        }
        Ok(())
    }

    fn notice(&self) -> Option<Notice> {
        Some(Notice {
            count: self.cut,
            noun: "call",
            fate: "cut",
            is_loss: true,
        })
    }
}

/// Drops the text of the message under this key.
fn drop_text_of<P: WaitingKey>(pool: &mut Pool<CallHalf, P>, key: Key) -> Result<(), AllocError> {
    let Some(mut message) = pool.remove(key) else {
        return Ok(());
    };
    message.own.drop_text();
    pool.insert(key, message)
}

/// The message, if it is known.
fn borrowed_message(message: &Option<Box<Message<CallHalf>>>) -> Option<&Message<CallHalf>> {
    match message {
        None => None,
        Some(message) => Some(message),
    }
}
