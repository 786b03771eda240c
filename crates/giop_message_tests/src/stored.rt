//! Messages that are stored and restored between two octets, and the octets that are stored of
//! them.
ghost use Rattle.std.specs.Prelude.{◌≡◌, ◌≤◌, length, IfSome};
ghost use Rattle.giop_message.specs.MessageState.{IsRequestTableOf, Fits};

use crate::expecting::{expect, expect_same, expect_same_in};
use crate::rows::{Closing, Row, row_of, rows};
use giop_message::Message;
use giop_print::{OutFault, Sheet};
use giop_sig::{Catalogue, Requests};
use giop_testing::spelled;
use std::process::Abort;
use std::str::Split;

/// The message that is restored from what is stored of a message.
pub fn again(catalogue: &Catalogue, message: &Message) -> Option<Message>
    ensures { IfSome result (λ m. Fits catalogue.now m) }
{
    let mut fixed = [0; 224];
    let mut frames = [0; 576];
    let count = usize::from(message.store(&mut fixed, &mut frames));
    let (number, header) = (message.number(), message.header());
    Message::restore(catalogue, number, header, &fixed, &frames[..24 * count])
}

/// Takes the octets after a header in two pieces, as message 1 of a stream, and closes the message.
/// The message is stored and restored between the pieces. The result is None if the message can't
/// be restored, or doesn't take a whole piece.
fn takes_restored(
    catalogue: &Catalogue,
    requests: &Requests,
    header: [u8; 12],
    front: &[u8],
    back: &[u8],
    out: &mut Sheet,
) -> Result<Option<Closing>, OutFault>
    requires of { IsRequestTableOf catalogue.now requests.now }
    requires front { length front.now ≤ 1000 }
    requires back { length back.now ≤ 1000 }
{
    let mut requests = requests;
    let mut message = Message::start(catalogue, 1, header);
    let (count, is_over) = message.take(catalogue, &mut requests, front, 12, out)?;
    if is_over {
        return Ok(Some(Closing::Fault(12 + count)));
    }
    if count != front.len() {
        return Ok(None);
    }
    let place = 12 + front.len();
    let Some(mut message) = again(catalogue, &message) else {
        return Ok(None);
    };
    if message.octets_taken() != place as u64 {
        return Ok(None);
    }
    let (count, is_over) = message.take(catalogue, &mut requests, back, place as u64, out)?;
    if is_over {
        return Ok(Some(Closing::Fault(place + count)));
    }
    if count != back.len() {
        return Ok(None);
    }
    let place = place + back.len();
    if message.close(catalogue, place as u64, out)? {
        Ok(Some(Closing::Short))
    } else {
        Ok(Some(Closing::Ends))
    }
}

/// In each of these rows, a restored message goes on as the stored one does.
pub fn each_row_is_restored(
    rt: &impl Abort,
    catalogue: &Catalogue,
    requests: &Requests,
    rows: Split<'static, &'static str>,
)
    requires of { IsRequestTableOf catalogue.now requests.now }
{
    for text in rows {
        let row = row_of(text);
        let mut room = [0; 256];
        let octets = &*spelled(row.octets, &mut room);
        for cut in 12..octets.len() + 1 {
            let differs = restored_differs(catalogue, requests, row, octets, cut);
            expect_same_in(rt, differs, row.name, cut);
        }
    }
}

/// What differs if the message is stored and restored after this many of its octets.
fn restored_differs(
    catalogue: &Catalogue,
    requests: &Requests,
    row: Row,
    octets: &[u8],
    cut: usize,
) -> &'static str
    requires of { IsRequestTableOf catalogue.now requests.now }
{
    if octets.len() > 1000 || cut < 12 || cut > octets.len() {
        return "the octets";
    }
    let mut room = [0; 1024];
    let mut sheet = Sheet::new(&mut room);
    let (front, back) = octets.split_at(cut);
    let Some((header, front)) = front.split_first_chunk::<12>() else {
        return "the header";
    };
    if takes_restored(catalogue, requests, *header, front, back, &mut sheet)
        != Ok(Some(row.closing))
    {
        return "the closing";
    }
    if sheet.held() == row.lines.as_bytes() {
        ""
    } else {
        "the lines"
    }
}

/// The first octets of a message, with the 12 of its header; the octets that are stored of it after
/// them, as message 1 of a stream; and the octets that are stored of its frames.
#[derive(Clone, Copy)]
struct Case {
    name: &'static str,
    octets: &'static str,
    own: &'static str,
    part: &'static str,
    frames: &'static str,
}

/// A message in padding, in its rest, and after "IDL:" in the first string of a body or of a system
/// exception.
const CASES: [Case; 5] = [
    Case {
        name: "in front of a forward",
        octets: "47494f50 0102 01 01 37000000 01000000 03000000 01000000 07000000 01000000 aa",
        own: "03 0000000000000021 01 00000001 0000",
        part: "01 00000015 00*203",
        frames: "",
    },
    Case {
        name: "in a rest, behind its first line",
        octets: "47494f50 0100 00 05 00000023 aa*32 010203",
        own: "04 000000000000002f 00 00000000 0000",
        part: "0000000000000020 03 010203 00*29 00*167",
        frames: "",
    },
    Case {
        name: "in the type id of a forward",
        octets: "47494f50 0100 00 01 00000036 00000001 00000007 00000004 aabbccdd 00000001 00000003 0000000a 49444c3a",
        own: "02 000000000000002c 01 00000001 0000",
        part: "00 02 0000000000000001 04 01 0000000b 00000009 00000000 00 00*8 04 49444c3a 00*28 00*5 00*5 00 00*129 00*2",
        frames: "00000015 00000000 00000002 00*12 0000000b 00*20",
    },
    Case {
        name: "in front of a system exception",
        octets: "47494f50 0102 01 01 37000000 01000000 02000000 01000000 07000000 01000000 aa",
        own: "03 0000000000000021 01 00000001 0000",
        part: "03 00000000 00*203",
        frames: "",
    },
    Case {
        name: "in the id of a system exception",
        octets: "47494f50 0100 00 01 0000002a 00000000 00000001 00000002 0000000a 49444c3a",
        own: "05 0000000000000020 01 00000001 0000",
        part: "00 02 0000000000000001 00 01 0000000b 00000009 00000000 00 00*8 04 49444c3a 00*28 00*5 00*5 00 00*129 00*2",
        frames: "00000019 00000000 00000003 00*12 0000000b 00*20",
    },
];

/// The octets that are stored of each case are those of the case.
fn each_case_is_stored(rt: &impl Abort, catalogue: &Catalogue, requests: &Requests)
    requires of { IsRequestTableOf catalogue.now requests.now }
{
    for case in &CASES {
        let differs = case_differs(catalogue, requests, case);
        expect_same(rt, differs, case.name);
    }
}

/// What differs in what is stored of a case.
fn case_differs(catalogue: &Catalogue, requests: &Requests, case: &Case) -> &'static str
    requires of { IsRequestTableOf catalogue.now requests.now }
{
    let (mut octets, mut own, mut part, mut frames) = ([0; 256], [0; 16], [0; 208], [0; 256]);
    let octets = spelled(case.octets, &mut octets);
    let own = spelled(case.own, &mut own);
    let part = spelled(case.part, &mut part);
    let frames = spelled(case.frames, &mut frames);
    stored_differs(catalogue, requests, octets, own, part, frames)
}

/// What differs in what is stored of a message with these octets.
fn stored_differs(
    catalogue: &Catalogue,
    requests: &Requests,
    octets: &[u8],
    own: &[u8],
    part: &[u8],
    frames: &[u8],
) -> &'static str
    requires of { IsRequestTableOf catalogue.now requests.now }
{
    let mut requests = requests;
    let Some((header, behind)) = octets.split_first_chunk::<12>() else {
        return "the header";
    };
    if behind.len() > 1000 {
        return "the octets";
    }
    let mut room = [0; 1024];
    let mut sheet = Sheet::new(&mut room);
    let mut message = Message::start(catalogue, 1, *header);
    if message.take(catalogue, &mut requests, behind, 12, &mut sheet) != Ok((behind.len(), false)) {
        return "the answer";
    }
    let mut fixed = [0; 224];
    let mut all = [0; 576];
    let count = usize::from(message.store(&mut fixed, &mut all));
    if &fixed[..16] != own {
        return "its own octets";
    }
    if &fixed[16..] != part {
        return "the octets of its part";
    }
    if &all[..24 * count] != frames {
        return "the frames";
    }
    ""
}

/// Octets that no message stores, each in a line: the case, the octet's index, the octet's value in
/// the place of the right one, and a name.
static WRONG: &str = r#"0 0 6 a part of no kind
0 8 11 a next octet in the message header
0 9 2 a request id that was neither said nor not
0 14 8 an offset that lacks a whole alignment
0 15 1 an octet without a use behind the id
0 16 4 a body of no kind
0 20 41 a type that the catalogue doesn't have
0 223 1 an octet without a use behind a type
1 23 45 more octets of a rest than there were
1 24 32 a last part that is full
1 28 1 an octet without a use behind a last part
2 0 0 a request id beside that of the header's decoder
3 20 1 a type beside a system exception
4 223 1 an octet without a use behind a system exception"#;

/// The first line of the table whose octet isn't refused. The text is empty if no message stores
/// any of the octets.
fn not_refused(catalogue: &Catalogue) -> &'static str {
    for line in WRONG.split('\n') {
        if !is_refused(catalogue, line) {
            return line;
        }
    }
    ""
}

/// Whether the octets of a line's case are restored, and are refused if one of them has another
/// value.
fn is_refused(catalogue: &Catalogue, line: &str) -> bool {
    let mut words = line.split(' ');
    let case = usize::from_str_radix(words.next().unwrap_or(""), 10);
    let at = usize::from_str_radix(words.next().unwrap_or(""), 10);
    let octet = u8::from_str_radix(words.next().unwrap_or(""), 10);
    let (Ok(case), Ok(at), Ok(octet)) = (case, at, octet) else {
        return false;
    };
    let mut fixed = fixed_of(&CASES[case % 5]);
    let mut room = [0; 256];
    let frames = spelled(CASES[case % 5].frames, &mut room);
    if !is_restored(catalogue, &fixed, frames) {
        return false;
    }
    match fixed.get_mut(at) {
        Some(place) => *place = octet,
        None => return false,
    }
    !is_restored(catalogue, &fixed, frames)
}

/// The octets that are stored of a case before its frames.
fn fixed_of(case: &Case) -> [u8; 224] {
    let (mut own, mut part, mut fixed) = ([0; 16], [0; 208], [0; 224]);
    let _sixteen = spelled(case.own, &mut own);
    let _others = spelled(case.part, &mut part);
    fixed[..16].copy_from_slice(&own);
    fixed[16..].copy_from_slice(&part);
    fixed
}

/// Whether a message is stored in these octets and frames.
fn is_restored(catalogue: &Catalogue, fixed: &[u8; 224], frames: &[u8]) -> bool {
    Message::restore(catalogue, 1, [0; 12], fixed, frames).is_some()
}

/// Whether a case is restored without a frame, and is refused with one: padding and a rest have no
/// frames.
fn has_no_frame(catalogue: &Catalogue, case: usize) -> bool {
    let fixed = fixed_of(&CASES[case % 5]);
    is_restored(catalogue, &fixed, &[]) && !is_restored(catalogue, &fixed, &[0; 24])
}

/// Messages are stored and restored.
pub fn each_is_stored(rt: &impl Abort, catalogue: &Catalogue, requests: &Requests)
    requires of { IsRequestTableOf catalogue.now requests.now }
{
    each_row_is_restored(rt, catalogue, requests, rows());
    each_case_is_stored(rt, catalogue, requests);
    expect(rt, has_no_frame(catalogue, 0), CASES[0].name);
    expect(rt, has_no_frame(catalogue, 1), CASES[1].name);
    expect_same(rt, not_refused(catalogue), "stored by no message");
}
