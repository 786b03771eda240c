//! Octets in hexadecimal digits, and the parts of a row.

use std::io::Write;

/// The octets that words of hexadecimal digits spell, where `xx*n` is n times, in the front of this
/// room; none where it is another text, or there is no room for them.
pub fn spelled<'r>(text: &str, room: &'r mut [u8]) -> &'r mut [u8] {
    let size = room.len();
    let mut left = &mut room[..];
    let count = match put_words(text, &mut left) {
        Some(()) => size.saturating_sub(left.len()),
        None => 0,
    };
    room.split_at_mut(count.min(size)).0
}

/// The part of a row at a place, counted from 0, between `|`; nothing after the last.
pub fn part(row: &str, place: usize) -> &str {
    row.split('|').nth(place).unwrap_or("")
}

/// So many octets, from the front.
pub fn front(octets: &[u8], count: usize) -> &[u8] {
    octets.split_at(count.min(octets.len())).0
}

fn put_words<W: Write>(text: &str, out: &mut W) -> Option<()> {
    for word in text.split(' ') {
        let (digits, times) = word.split_once('*').unwrap_or((word, "1"));
        for _ in 0..u32::from_str_radix(times, 10).ok()? {
            put_digits(digits, out)?;
        }
    }
    Some(())
}

fn put_digits<W: Write>(digits: &str, out: &mut W) -> Option<()> {
    let mut high = None;
    for digit in digits.chars() {
        let digit = digit.to_digit(16)?;
        match high.take() {
            None => high = Some(digit),
            // A digit is below 16; the remainders show that to the check.
            Some(first) => out.write_all(&[(first % 16 * 16 + digit % 16) as u8]).ok()?,
        }
    }
    if high.is_some() {
        return None;
    }
    Some(())
}
