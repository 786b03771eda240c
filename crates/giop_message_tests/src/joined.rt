//! Messages that are joined from a first piece and a Fragment of GIOP 1.1: padding after the first
//! piece is counted by the Fragment.
ghost use Rattle.std.specs.Prelude.{◌≤◌, length};
ghost use Rattle.giop_message.specs.MessageState.{IsRequestTableOf};

use crate::expecting::expect_same;
use crate::stored::again;
use giop_message::Message;
use giop_print::{OutFault, Sheet};
use giop_sig::{Catalogue, Requests};
use giop_testing::spelled;
use std::process::Abort;

/// A message: the octets of its first piece, with the header, and those of the payload of the
/// Fragment, in hexadecimal digits; what its offset lacks after the first piece; and its lines.
#[derive(Clone, Copy)]
struct Joined<'a> {
    name: &'a str,
    front: &'a str,
    back: &'a str,
    lacks: u8,
    lines: &'a str,
}

const REPLY: &str = "m1 header.service_contexts count 0
m1 header.request_id ulong 7
m1 header.reply_status enum SYSTEM_EXCEPTION
m1 body.exception_id string @0 \"A\"
m1 body.minor ulong 1
m1 body.completed enum COMPLETED_YES
m1 end
";

const ROWS: [Joined; 4] = [
    Joined {
        name: "a Fragment before a section",
        front: "47494f50 0101 02 01 0000000b 00000000 00000007 000000",
        back: "02 000000 00000002 4100 0000 00000001 00000000",
        lacks: 5,
        lines: REPLY,
    },
    Joined {
        name: "a Fragment before an aligned number",
        front: "47494f50 0101 02 01 00000012 00000000 00000007 00000002 00000002 4100",
        back: "00000001 00000000",
        lacks: 6,
        lines: REPLY,
    },
    Joined {
        name: "a Fragment in a number",
        front: "47494f50 0101 02 01 00000016 00000000 00000007 00000002 00000002 4100 0000 0000",
        back: "0001 0000 00000000",
        lacks: 2,
        lines: REPLY,
    },
    Joined {
        name: "a Fragment in padding",
        front: "47494f50 0101 02 01 00000013 00000000 00000007 00000002 00000002 4100 00",
        back: "00000001 00000000",
        lacks: 5,
        lines: REPLY,
    },
];

/// The octet of a message in a checkpoint that has what its offset lacks.
fn lacks_of(message: &Message) -> u8 {
    let mut fixed = [0; 224];
    let mut frames = [0; 576];
    let _count = message.store(&mut fixed, &mut frames);
    fixed[14]
}

/// What differs if a message is joined, and is stored and restored between the pieces; there its
/// offset lacks this. The text is empty if nothing differs.
fn joined_differs(
    catalogue: &Catalogue,
    requests: &Requests,
    lacks: u8,
    front: &[u8],
    back: &[u8],
    out: &mut Sheet,
) -> Result<&'static str, OutFault>
    requires of { IsRequestTableOf catalogue.now requests.now }
    requires front { length front.now ≤ 1000 }
    requires back { length back.now ≤ 1000 }
{
    let mut requests = requests;
    let Some((header, front)) = front.split_first_chunk::<12>() else {
        return Ok("the header");
    };
    let mut message = Message::start(catalogue, 1, *header);
    let (count, is_over) = message.take(catalogue, &mut requests, front, 12, out)?;
    if is_over || count != front.len() {
        return Ok("the first piece");
    }
    message.seam();
    if message.is_unbroken() || lacks_of(&message) != lacks {
        return Ok("what the offset lacks");
    }
    let Some(mut message) = again(catalogue, &message) else {
        return Ok("what is stored");
    };
    if message.octets_taken() > 2000 {
        return Ok("the offset");
    }
    let (count, is_over) = message.take(catalogue, &mut requests, back, 2000, out)?;
    if is_over || count != back.len() {
        return Ok("the Fragment");
    }
    if message.close(catalogue, 3000, out)? {
        return Ok("the closing");
    }
    Ok("")
}

/// What differs in a row.
fn row_differs(catalogue: &Catalogue, requests: &Requests, row: Joined) -> &'static str
    requires of { IsRequestTableOf catalogue.now requests.now }
{
    let (mut front, mut back, mut room) = ([0; 256], [0; 256], [0; 1024]);
    let front = &*spelled(row.front, &mut front);
    let back = &*spelled(row.back, &mut back);
    if front.len() > 1000 || back.len() > 1000 {
        return "the octets";
    }
    let mut sheet = Sheet::new(&mut room);
    match joined_differs(catalogue, requests, row.lacks, front, back, &mut sheet) {
        Ok("") => {}
        Ok(differs) => return differs,
        Err(_) => return "the room",
    }
    if sheet.held() == row.lines.as_bytes() {
        ""
    } else {
        "the lines"
    }
}

/// Each of these messages is joined.
pub fn each_is_joined(rt: &impl Abort, catalogue: &Catalogue, requests: &Requests)
    requires of { IsRequestTableOf catalogue.now requests.now }
{
    for row in &ROWS {
        let differs = row_differs(catalogue, requests, *row);
        expect_same(rt, differs, row.name);
    }
}
