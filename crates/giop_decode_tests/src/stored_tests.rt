//! Decoders in mid-value, stored in octets and restored from them.
ghost use Rattle.std.specs.Prelude.{IfSome};
ghost use Rattle.giop_decode.specs.DecoderState.{Fits};

use crate::expecting::{expect, expect_same};
use crate::known::{built_in, declared};
use giop_cdr::Order;
use giop_decode::{Decoder, Progress};
use giop_print::{Root, Sheet};
use giop_sig::{Catalogue, TypeId};
use giop_testing::{front, spelled};

/// A sequence of structs whose one member is an array: its parameters' type is numbered 44, the sequence 43, the struct
/// 42, the array 41, and the built-in short 3.
const DOTS: &[u8] =
    b"signatures 1; struct Dot { short spot[2]; }; operation void add(in sequence<Dot> dots);";

/// Two dots, but for the last octet of the last short.
const TAKEN: &str = "00000002 ffff0002 000700";

/// The decoder of these: big endian, a body of message 1, offset 59, and an octet of a short; then the parameters, the
/// sequence with its second element of two, the struct, the array with its second element of two, and the short.
const DOTS_STORED: &str =
    "00 02 0000000000000001 03 00 00000003 00000000 00000000 01 00 00*7 00 00*32 00*5 00*5 00 00 00*128 00*2 0000002c 00000000 00000001 00*12 0000002b 00000001 00000002 00*12 0000002a 00000000 00000001 00*12 00000029 00000001 00000002 00*12 00000003 00*20";

/// A repository id of 34 octets, with one octet of its second piece.
const NAMED: &str = "00000023 61*33";

/// The decoder of these: big endian, a repository id of message 1, offset 85, a content of 34 octets whose piece begins
/// at 32 and has one octet, and a name that has begun with 32; the string is the built-in type 11.
const NAMED_STORED: &str =
    "00 01 0000000000000001 05 01 0000000b 00000022 00000020 00 00*8 01 61 00*31 00*5 00*5 00 20 61*32 00*96 00*2 0000000b 00*20";

/// The decoder of the same string in a body, as a checkpoint has it that was saved before bodies were heard: without the
/// first 32 octets of the name.
const UNNOTED_STORED: &str =
    "00 02 0000000000000001 05 01 0000000b 00000022 00000020 00 00*8 01 61 00*31 00*5 00*5 00 00*129 00*2 0000000b 00*20";

/// A struct in an encapsulation: the parameters' type is numbered 43, the encapsulation 42, the struct 41, and the
/// built-in ulonglong 8.
const HELD: &[u8] =
    b"signatures 2; struct P { octet a; ulonglong b; }; operation void enc(in encapsulation<P> e);";

/// An encapsulation of 16 octets, in little endian, but for the last octet of its ulonglong.
const HELD_TAKEN: &str = "00000010 01 07 ee*6 05 00*6";

/// The decoder of these: big endian, a body of message 1, offset 67, and seven octets of a ulonglong; then the
/// parameters, the encapsulation, in little endian with 15 of its 16 octets taken, the struct with its second member,
/// and the ulonglong.
const HELD_STORED: &str =
    "00 02 0000000000000001 03 00 00000008 00000000 00000000 07 05 00*7 00 00*32 00*5 00*5 00 00 00*128 00*2 0000002b 00000000 00000001 00*12 0000002a 0000000f 00000010 02 00*11 00000029 00000001 00000002 00*12 00000008 00*20";

/// The octets of a value that are taken first, what is stored then, and the answer and the lines at an octet more.
#[derive(Clone, Copy)]
struct Stored<'a> {
    taken: &'a str,
    stored: &'a str,
    octet: u8,
    answer: Progress,
    lines: &'a str,
}

/// The struct of an operation's parameters.
pub fn parameters_of(catalogue: &Catalogue, operation: &str) -> Option<TypeId> {
    let operation = catalogue.operation(operation.as_bytes())?;
    Some(catalogue.request_of(operation))
}

/// A decoder of a value at offset 48 of message 1 that has taken octets, and goes on.
fn taken(catalogue: &Catalogue, of: TypeId, root: Root, octets: &[u8]) -> Option<Decoder>
    ensures { IfSome result (λ d. Fits catalogue.now d) }
{
    if !catalogue.has(of) {
        return None;
    }
    let mut decoder = Decoder::start(catalogue, of, Order::Big, 48, 1, root, 2);
    if decoder.is_done() {
        return None;
    }
    let mut room = [0; 512];
    let mut sheet = Sheet::new(&mut room);
    match decoder.take_run(catalogue, octets, &mut sheet) {
        Ok((_, Progress::More)) => Some(decoder),
        _ => None,
    }
}

/// Whether this is stored of a decoder: its own octets and those of its frames.
fn is_stored_as(decoder: &Decoder, stored: &[u8]) -> bool {
    let mut fixed = [0; 208];
    let mut frames = [0; 576];
    let count = usize::from(decoder.store(&mut fixed, &mut frames));
    match stored.split_first_chunk::<208>() {
        Some((own, behind)) => fixed == *own && &frames[..24 * count] == behind,
        None => false,
    }
}

/// The decoder that is stored in octets.
fn restored(catalogue: &Catalogue, stored: &[u8]) -> Option<Decoder>
    ensures { IfSome result (λ d. Fits catalogue.now d) }
{
    let (fixed, frames) = stored.split_first_chunk::<208>()?;
    Decoder::restore(catalogue, fixed, frames, 2)
}

/// What differs of a decoder that is stored and restored, or nothing.
fn differs(catalogue: &Catalogue, of: TypeId, root: Root, wanted: &Stored) -> &'static str {
    let mut room = [0; 512];
    let octets = spelled(wanted.taken, &mut room);
    let Some(decoder) = taken(catalogue, of, root, octets) else {
        return "the answer to the octets";
    };
    let mut room = [0; 512];
    let stored = spelled(wanted.stored, &mut room);
    if !is_stored_as(&decoder, stored) {
        return "what is stored";
    }
    restored_differs(catalogue, stored, wanted)
}

/// What differs of the decoder that is restored from octets, or nothing.
fn restored_differs(catalogue: &Catalogue, stored: &[u8], wanted: &Stored) -> &'static str {
    let Some(mut again) = restored(catalogue, stored) else {
        return "nothing is restored";
    };
    if !is_stored_as(&again, stored) {
        return "what is stored again";
    }
    let mut room = [0; 512];
    let mut sheet = Sheet::new(&mut room);
    if again.take(catalogue, wanted.octet, &mut sheet) != Ok(wanted.answer) {
        return "the answer to an octet more";
    }
    if sheet.held() != wanted.lines.as_bytes() {
        return "the lines";
    }
    ""
}

/// What differs of the decoder of an operation's parameters, or nothing.
fn parameters_differ(catalogue: &Catalogue, operation: &str, wanted: &Stored) -> &'static str {
    match parameters_of(catalogue, operation) {
        Some(of) => differs(catalogue, of, Root::Body, wanted),
        None => "the operation",
    }
}

/// The parameters of an operation of a signature file, the last octet with its answer and its lines.
type Row = (&'static [u8], &'static str, Stored<'static>);

static ROWS: [Row; 2] = [
    (
        DOTS,
        "add",
        Stored {
            taken: TAKEN,
            stored: DOTS_STORED,
            octet: 8,
            answer: Progress::Done,
            lines: "m1 body.dots[1].spot[1] short 8\n",
        },
    ),
    (
        HELD,
        "enc",
        Stored {
            taken: HELD_TAKEN,
            stored: HELD_STORED,
            octet: 0,
            answer: Progress::Done,
            lines: "m1 body.e.b ulonglong 5\n",
        },
    ),
];

#[test]
fn a_decoder_in_an_array_or_an_encapsulation_is_restored(rt: HostRuntime) {
    for (file, operation, wanted) in &ROWS {
        let differs = match declared(rt.alloc(), file) {
            Some(catalogue) => parameters_differ(&catalogue, operation, wanted),
            None => "the signature file",
        };
        expect_same(&rt, differs, operation);
    }
}

static PIECE: Stored<'static> = Stored {
    taken: NAMED,
    stored: NAMED_STORED,
    octet: 98,
    answer: Progress::More,
    lines: "",
};

#[test]
fn a_decoder_in_a_piece_is_restored(rt: HostRuntime) {
    let differs = match built_in(rt.alloc()) {
        Some(catalogue) => differs(&catalogue, TypeId(11), Root::Exception, &PIECE),
        None => "the built-in types",
    };
    expect_same(&rt, differs, "a piece");
}

/// What differs of a decoder that was saved before bodies were heard, or nothing: it goes on, and its line is right.
fn unnoted_differs(catalogue: &Catalogue) -> &'static str {
    let mut room = [0; 512];
    let stored = spelled(UNNOTED_STORED, &mut room);
    let Some(mut decoder) = restored(catalogue, stored) else {
        return "nothing is restored";
    };
    if !is_stored_as(&decoder, stored) {
        return "what is stored again";
    }
    let mut room = [0; 512];
    let mut sheet = Sheet::new(&mut room);
    let Ok((2, Progress::Done)) = decoder.take_run(catalogue, b"b\0", &mut sheet) else {
        return "the answer to the rest";
    };
    if sheet.held() != "m1 body string @32 \"ab\"\n".as_bytes() {
        return "the line";
    }
    ""
}

/// Octets that no decoder stores, each in a line: its index, and its value instead of the one of the decoder in an array.
static REFUSED: &str = r#"0 2 a byte order
1 3 a root
10 8 an offset
11 2 an innermost part
11 1 a content of a short
12 1 a type that isn't in the table
15 6 a type that isn't that of the last part
19 1 octets of a content, in a number
23 1 a piece's place, in a number
24 2 a number that is whole
24 9 more octets of a number than there is room for
26 1 an octet behind those of a number
33 1 a piece, in a number
34 1 an octet behind a piece
66 1 a request id of a body
66 2 whether there is an id
70 1 an id that isn't there
71 2 an interface, in a body
71 3 whether there is a status
76 2 a name that is too long, in no string
76 3 an object key, in a body
76 4 an object key that is too long, in a body
76 5 a name buffer
77 1 a name that has begun, in no string
77 129 more octets than a name has
78 1 an octet behind a name
207 1 the last octet
211 43 a frame of another type
215 1 a place behind the last member
219 2 a count that isn't the struct's
220 1 a byte order of a struct
231 1 the last octet of a frame
287 2 a place behind the last element
311 1 a place in the innermost part"#;

/// The same of the decoder in an encapsulation.
static REFUSED_HELD: &str = r#"244 0 no byte order
244 3 a third byte order
245 1 an octet behind a byte order
239 0 an encapsulation of which no octet was taken
239 17 more octets than an encapsulation has"#;

/// The same of the decoder in a piece of a repository id.
static REFUSED_NAMED: &str = r#"76 1 a whole name, in a string
76 2 no name where 32 octets of it were read
77 33 more octets of a name than were read"#;

/// The same of the decoder in a piece of a string in a body, of which nothing was noted.
static REFUSED_UNNOTED: &str = r#"1 0 a header of which nothing was noted
1 1 a repository id of which nothing was noted
76 1 a whole name, in a string
76 2 no name where 32 octets of it were read
77 33 more octets of a name than were read"#;

#[test]
fn names_that_no_decoder_in_a_string_notes_are_refused(rt: HostRuntime) {
    let differs = match built_in(rt.alloc()) {
        Some(catalogue) => names_differ(&catalogue),
        None => "the built-in types",
    };
    expect_same(&rt, differs, "names");
}

/// The first line of these tables whose octet isn't refused, what differs of the decoder that noted nothing, or nothing.
fn names_differ(catalogue: &Catalogue) -> &'static str {
    let line = not_refused(catalogue, NAMED_STORED, REFUSED_NAMED);
    if !line.is_empty() {
        return line;
    }
    let line = not_refused(catalogue, UNNOTED_STORED, REFUSED_UNNOTED);
    if !line.is_empty() {
        return line;
    }
    unnoted_differs(catalogue)
}

#[test]
fn octets_that_no_decoder_in_an_encapsulation_stores_are_refused(rt: HostRuntime) {
    let differs = match declared(rt.alloc(), HELD) {
        Some(catalogue) => not_refused(&catalogue, HELD_STORED, REFUSED_HELD),
        None => "the signature file",
    };
    expect_same(&rt, differs, "in an encapsulation");
}

/// The first line of a table whose octet isn't refused, or nothing.
fn not_refused(catalogue: &Catalogue, stored: &str, table: &'static str) -> &'static str {
    for line in table.split('\n') {
        if !is_refused(catalogue, stored, line) {
            return line;
        }
    }
    ""
}

/// Whether stored octets are restored, and refused with the octet of a line instead of one of them.
fn is_refused(catalogue: &Catalogue, stored: &str, line: &str) -> bool {
    let mut room = [0; 512];
    let octets = spelled(stored, &mut room);
    if restored(catalogue, octets).is_none() {
        return false;
    }
    let mut words = line.split(' ');
    let at = usize::from_str_radix(words.next().unwrap_or(""), 10);
    let octet = u8::from_str_radix(words.next().unwrap_or(""), 10);
    let (Ok(at), Ok(octet)) = (at, octet) else {
        return false;
    };
    match octets.get_mut(at) {
        Some(place) => *place = octet,
        None => return false,
    }
    restored(catalogue, octets).is_none()
}

#[test]
fn octets_and_frames_that_no_decoder_in_an_array_stores_are_refused(rt: HostRuntime) {
    match declared(rt.alloc(), DOTS) {
        Some(catalogue) => {
            let differs = not_refused(&catalogue, DOTS_STORED, REFUSED);
            expect_same(&rt, differs, "in an array");
            expect_same(&rt, frames_differ(&catalogue), "frames");
        }
        None => expect(&rt, false, "the signature file"),
    }
}

/// Where the octets of the decoder in an array are restored with others after them, or without their last ones, or
/// nothing.
fn frames_differ(catalogue: &Catalogue) -> &'static str {
    let mut room = [0; 512];
    let count = spelled(DOTS_STORED, &mut room).len();
    if restored(catalogue, front(&room, count)).is_none() {
        return "neither";
    }
    for fewer in [208, 232, 304, 327] {
        if fewer >= count || restored(catalogue, front(&room, fewer)).is_some() {
            return "fewer octets";
        }
    }
    for more in [1, 24] {
        // After them the room has zeros.
        if restored(catalogue, front(&room, count.saturating_add(more))).is_some() {
            return "zeros behind them";
        }
    }
    match room.get_mut(count.saturating_add(3)) {
        Some(place) => *place = 3,
        None => return "the room",
    }
    if restored(catalogue, front(&room, count.saturating_add(24))).is_some() {
        return "a short's frame behind them";
    }
    ""
}
