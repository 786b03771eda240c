//! Lines with tags, put in pieces of each size, and when the out below is full.

use crate::expecting::{expect, expect_at};
use giop_conversation::{Tagged, no_tag, stream_tag};
use giop_print::{Line, Out, OutFault, Sheet, put_all};

static LINES: &[u8] = b"m1 end\n\nm2 end\nm3 ";

/// The lines with the tag of stream 12, and after them a line without a tag.
static TAGGED: &[u8] = b"s12 m1 end\ns12 \ns12 m2 end\ns12 m3 total\n";

/// An out with the tag of a stream.
fn tagged(stream: u64, room: &mut [u8]) -> Tagged<Sheet<'_>> {
    let mut tagged = Tagged::new(Sheet::new(room));
    tagged.set_tag(stream_tag(stream));
    tagged
}

/// Whether the out below has this text.
fn holds(tagged: Tagged<Sheet<'_>>, want: &[u8]) -> bool {
    tagged.into_out().held() == want
}

/// Puts octets in pieces of this size.
fn put_pieces(out: &mut Tagged<Sheet<'_>>, octets: &[u8], size: usize) -> Result<(), OutFault> {
    for piece in octets.chunks(size.max(1)) {
        put_all(out, piece)?;
    }
    Ok(())
}

/// Puts a line without a tag.
fn put_untagged(out: &mut Tagged<Sheet<'_>>) -> Result<(), OutFault> {
    out.set_tag(no_tag());
    put_all(out, b"total\n")
}

/// Whether each of the lines, put in pieces of this size, has the tag.
fn is_tagged_in_pieces(size: usize) -> bool {
    let mut room = [0; 64];
    let mut tagged = tagged(12, &mut room);
    put_pieces(&mut tagged, LINES, size).is_ok()
        && put_untagged(&mut tagged).is_ok()
        && holds(tagged, TAGGED)
}

#[test]
fn each_line_has_its_tag_in_pieces_of_any_size(rt: HostRuntime) {
    for size in 1..20 {
        expect_at(&rt, is_tagged_in_pieces(size), size);
    }
}

/// Whether an out with only this much room has a front of the lines.
fn has_front(size: usize) -> bool {
    let mut room = [0; 64];
    let (front, _) = room.split_at_mut(size.min(64));
    let mut tagged = tagged(12, front);
    put_all(&mut tagged, LINES).is_err() && holds(tagged, TAGGED.split_at(size.min(30)).0)
}

#[test]
fn a_full_out_has_a_front_of_the_lines(rt: HostRuntime) {
    for size in 1..30 {
        expect_at(&rt, has_front(size), size);
    }
}

/// Puts a text as one spelled line.
fn put_spelled(out: &mut Tagged<Sheet<'_>>, text: &[u8]) -> Result<(), OutFault> {
    let mut line = Line::new();
    if text.len() > line.room() {
        return Err(OutFault);
    }
    line.put_octets(text);
    out.put_line(&mut line)
}

/// The number of a stream; what is put without an end; two texts that are each put as one line; and what the out below then
/// has.
static SPELLED: [(u64, &[u8], [&[u8]; 2], &[u8]); 7] = [
    // One line, two, a line without its end, no octet, and an end alone.
    (12, b"", [b"m1 end\n", b""], b"s12 m1 end\n"),
    (
        12,
        b"",
        [b"m1 end\nm2 end\n", b""],
        b"s12 m1 end\ns12 m2 end\n",
    ),
    (12, b"", [b"m3", b""], b"s12 m3"),
    (12, b"", [b"", b""], b""),
    (12, b"", [b"\n", b""], b"s12 \n"),
    // The longest tag.
    (
        u64::MAX,
        b"",
        [b"m1 end\n", b""],
        b"s18446744073709551615 m1 end\n",
    ),
    // The end of a line has no tag.
    (
        12,
        b"m1 ",
        [b"end\n", b"m2 end\n"],
        b"s12 m1 end\ns12 m2 end\n",
    ),
];

/// Whether texts that are put as lines have the tag of a stream.
fn is_spelled(stream: u64, before: &[u8], lines: &[&[u8]], want: &[u8]) -> bool {
    let mut room = [0; 64];
    let mut tagged = tagged(stream, &mut room);
    if put_all(&mut tagged, before).is_err() {
        return false;
    }
    for line in lines {
        if put_spelled(&mut tagged, line).is_err() {
            return false;
        }
    }
    holds(tagged, want)
}

#[test]
fn a_spelled_line_has_its_tag(rt: HostRuntime) {
    for (stream, before, lines, want) in &SPELLED {
        let is_wanted = is_spelled(*stream, before, lines, want);
        expect(&rt, is_wanted, str::from_utf8(want).unwrap_or(""));
    }
}

/// Whether a line of so many octets, the last its end, has its tag.
fn is_long_tagged(size: usize) -> bool {
    let mut text = [b'x'; 256];
    text[255] = b'\n';
    let mut room = [0; 260];
    let mut tagged = tagged(12, &mut room);
    let (_, line) = text.split_at(256usize.saturating_sub(size));
    if put_spelled(&mut tagged, line).is_err() {
        return false;
    }
    let sheet = tagged.into_out();
    let held = sheet.held();
    held.len() == size.saturating_add(4) && held.starts_with(b"s12 x")
}

#[test]
fn a_line_that_leaves_no_room_has_its_tag(rt: HostRuntime) {
    for size in 249..257 {
        expect_at(&rt, is_long_tagged(size), size);
    }
}

/// Whether an out with only this much room has a front of a spelled line.
fn has_front_of_line(size: usize) -> bool {
    let mut room = [0; 64];
    let (front, _) = room.split_at_mut(size.min(64));
    let mut tagged = tagged(12, front);
    put_spelled(&mut tagged, b"m1 end\n").is_err()
        && tagged.has_failed()
        && !tagged.has_refused()
        && holds(tagged, TAGGED.split_at(size.min(11)).0)
}

#[test]
fn a_full_out_has_a_front_of_a_spelled_line(rt: HostRuntime) {
    for size in 1..11 {
        expect_at(&rt, has_front_of_line(size), size);
    }
}

/// Whether want of room is no failure of the out.
fn is_refused() -> bool {
    let mut room = [0; 64];
    let mut tagged = Tagged::new(Sheet::new(&mut room));
    let is_put = put_all(&mut tagged, b"total\n").is_ok();
    let is_free = !tagged.has_failed() && !tagged.has_refused();
    let OutFault = tagged.refuse();
    is_put && is_free && tagged.has_failed() && tagged.has_refused()
}

#[test]
fn want_of_room_is_no_failure_of_the_out(rt: HostRuntime) {
    assert!(&rt; is_refused());
}
