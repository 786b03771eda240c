//! At which octet a correspondent is told of the exception that a Reply raises.
ghost use Rattle.std.specs.Prelude.{ℕ, Option, None, false};
ghost use Rattle.giop_message_tests.specs.Listened.{listened};

use crate::expecting::expect_same;
use giop_message::{Correspondent, Message};
use giop_print::Sheet;
use giop_sig::{Catalogue, OpId};
use giop_testing::spelled;
use std::process::Abort;

/// A correspondent that listens only for exceptions, answers no operation, and is never due.
#[derive(Clone, Copy, Debug, PartialEq, Eq)]
struct Listener {
    /// The number of the message that raised the last exception, and how many octets the
    /// exception's name has.
    raised: Option<(u64, usize)>,
}

impl Correspondent for Listener {
    ghost State = { Option (ℕ × ℕ) };

    ghost state = { λ listener. listener.raised };

    ghost answer = { λ raised id. None };

    ghost notified = { listened };

    ghost due = { λ _. false };

    ghost awaits_messages = { false };

    fn operation(&self, _id: u32) -> Option<OpId> {
        None
    }

    fn on_call(
        &mut self,
        _number: u64,
        _id: u32,
        _name: Option<&[u8]>,
        _operation: Option<OpId>,
        _expects_reply: bool,
    ) {}

    fn on_answer(&mut self, _number: u64, _id: u32) {}

    fn on_exception(&mut self, number: u64, name: &[u8]) {
        self.raised = Some((number, name.len()));
    }

    fn is_due(&self) -> bool {
        false
    }

    fn awaits_messages(&self) -> bool {
        false
    }

    ghost known = { λ C s event k h id. tt };
}

/// A Reply; how many octets it has up to and with the one that is tried; and the length of the name
/// that is told at that octet, if one is told.
#[derive(Clone, Copy)]
struct Reply {
    name: &'static str,
    octets: &'static str,
    tried: usize,
    told: Option<usize>,
}

const REPLIES: [Reply; 6] = [
    Reply {
        name: "a repository id",
        octets: "47494f50 0100 00 01 0000001c 00000000 00000001 00000001 0000000a 49444c3a593a312e3000 aabb",
        tried: 38,
        told: Some(9),
    },
    Reply {
        name: "a repository id with a space",
        octets: "47494f50 0100 00 01 0000001c 00000000 00000001 00000001 0000000a 49444c20593a312e3000 aabb",
        tried: 38,
        told: None,
    },
    Reply {
        name: "a system exception, whose body ends",
        octets: "47494f50 0102 01 01 37000000 01000000 02000000 01000000 07000000 01000000 aa 99999999999999 0a000000 49444c3a593a312e3000 eeee 2a000000 01000000 010203",
        tried: 64,
        told: Some(9),
    },
    Reply {
        name: "a system exception, whose id ends",
        octets: "47494f50 0102 01 01 37000000 01000000 02000000 01000000 07000000 01000000 aa 99999999999999 0a000000 49444c3a593a312e3000",
        tried: 54,
        told: None,
    },
    Reply {
        name: "a forward, whose type id ends",
        octets: "47494f50 0100 00 01 00000022 00000000 00000001 00000003 0000000a 49444c3a593a312e3000 eeee 00000000",
        tried: 38,
        told: None,
    },
    Reply {
        name: "results",
        octets: "47494f50 0100 00 01 0000001a 00000000 00000001 00000000 0000000a 49444c3a593a312e3000",
        tried: 38,
        told: None,
    },
];

/// The correspondent is told of an exception at the octet that completes its name.
pub fn each_reply_tells(rt: &impl Abort, catalogue: &Catalogue) {
    for reply in &REPLIES {
        let differs = reply_differs(catalogue, reply);
        expect_same(rt, differs, reply.name);
    }
}

/// What differs in what is told before the octet that is tried, at it and after it.
fn reply_differs(catalogue: &Catalogue, reply: &Reply) -> &'static str {
    let mut room = [0; 256];
    let octets = &*spelled(reply.octets, &mut room);
    let Some((header, behind)) = octets.split_first_chunk::<12>() else {
        return "the header";
    };
    if reply.tried < 13 || reply.tried > octets.len() || octets.len() > 256 {
        return "the octets";
    }
    let (before, rest) = behind.split_at(reply.tried - 13);
    let (tried, after) = rest.split_at(1);
    let mut lines = [0; 1024];
    let mut sheet = Sheet::new(&mut lines);
    let mut listener = Listener { raised: None };
    let mut message = Message::start(catalogue, 7, *header);
    let place = reply.tried as u64 - 1;
    if message.take(catalogue, &mut listener, before, 12, &mut sheet) != Ok((before.len(), false)) {
        return "the octets before it";
    }
    if listener.raised.is_some() {
        return "what is told before it";
    }
    if message.take(catalogue, &mut listener, tried, place, &mut sheet) != Ok((1, false)) {
        return "the octet";
    }
    if listener.raised != reply.told.map(|length| (7, length)) {
        return "what is told at it";
    }
    listener.raised = None;
    if message.take(catalogue, &mut listener, after, place + 1, &mut sheet)
        != Ok((after.len(), false))
    {
        return "the octets behind it";
    }
    if listener.raised.is_some() {
        return "what is told behind it";
    }
    ""
}
