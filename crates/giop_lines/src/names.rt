//! The octets that names and words may have, and the names and words that they make.

ghost use Rattle.std.specs.Prelude.{◌≡◌, ℕ, ◌<◌, ◌||◌, true, decimal};
ghost use Rattle.std.specs.List.{list_all};
ghost use Rattle.giop_lines.specs.Names.{is_graphic_name, is_graphic_octet, is_printable_text, is_printable_octet, is_name_octet, is_member_name, is_fault_or_closing_word, is_word_octet, is_message_type_word, is_lower_case, is_upper_case};
ghost use Rattle.giop_lines.specs.Lines.{IsTypeWordOrNumber};

use crate::numbers::{is_hex_digit, number, ulong};
use crate::words::{after, before, split_at_space};

/// The greatest length of the name of an operation or interface, or of a repository id, in octets.
const NAME_MAX: usize = 128;
/// The greatest length of the name of a type's member, in octets.
const PART_MAX: usize = 64;

/// Whether this is a name of 1 to 128 octets from 21 to 7e.
pub fn is_graphic_name(name: &[u8]) -> bool
    ensures { result ≡ is_graphic_name name.now }
{
    !name.is_empty() && name.len() <= NAME_MAX && are_graphic_octets(name)
}

/// Whether each octet is from 21 to 7e.
fn are_graphic_octets(name: &[u8]) -> bool
    ensures { result ≡ list_all is_graphic_octet name.now }
{
    name.iter().all(|b| is_graphic_octet(*b))
}

/// Whether an octet is from 21 to 7e.
fn is_graphic_octet(octet: u8) -> bool
    ensures { result ≡ is_graphic_octet octet }
{
    octet >= 0x21 && octet <= 0x7e
}

/// Whether an octet is from 20 to 7e.
fn is_printable_octet(octet: u8) -> bool
    ensures { result ≡ is_printable_octet octet }
{
    octet == b' ' || is_graphic_octet(octet)
}

/// Whether each octet is from 20 to 7e.
pub fn is_printable_text(text: &[u8]) -> bool
    ensures { result ≡ is_printable_text text.now }
{
    text.iter().all(|b| is_printable_octet(*b))
}

/// Whether an octet may stand in the name of a member: it is a letter, a digit or `_`.
pub fn is_name_octet(octet: u8) -> bool
    ensures { result ≡ is_name_octet octet }
{
    if octet >= b'a' {
        octet <= b'z'
    } else {
        octet.is_ascii_uppercase() || octet.is_ascii_digit() || octet == b'_'
    }
}

/// Whether this is the name of a type's member: 1 to 64 letters, digits and `_`, and the first of them isn't a digit.
pub fn is_member_name(name: &[u8]) -> bool
    ensures { result ≡ is_member_name name.now }
{
    are_name_octets(name) && is_member_name_of_octets(name)
}

/// Whether this is the name of a type's member, for octets that are known to be letters, digits and `_`.
pub fn is_member_name_of_octets(name: &[u8]) -> bool
    requires { list_all is_name_octet name.now ≡ true }
    ensures { result ≡ is_member_name name.now }
{
    !name.is_empty() && name.len() <= PART_MAX && !name[0].is_ascii_digit()
}

fn are_name_octets(name: &[u8]) -> bool
    ensures { result ≡ list_all is_name_octet name.now }
{
    name.iter().all(|b| is_name_octet(*b))
}

/// Whether this is the word of a fault or of a stream's end: it begins with a small letter, and has only small letters,
/// digits, points and hyphens.
pub fn is_fault_or_closing_word(word: &[u8]) -> bool
    ensures { result ≡ is_fault_or_closing_word word.now }
{
    !word.is_empty() && word[0].is_ascii_lowercase() && are_word_octets(word)
}

fn are_word_octets(word: &[u8]) -> bool
    ensures { result ≡ list_all is_word_octet word.now }
{
    word.iter().all(|b| is_word_octet(*b))
}

/// Whether an octet may stand in a word.
fn is_word_octet(octet: u8) -> bool
    ensures { result ≡ is_word_octet octet }
{
    octet.is_ascii_lowercase() || octet.is_ascii_digit() || octet == b'.' || octet == b'-'
}

/// Whether this is a message type: a word that begins with a capital letter, or a number of at most 255.
pub fn is_message_type(kind: &[u8]) -> bool
    ensures { result ≡ true → IsTypeWordOrNumber kind.now }
{
    is_message_type_word(kind) || is_message_type_number(kind)
}

/// Whether this is a number of at most 255.
fn is_message_type_number(digits: &[u8]) -> bool
    ensures { result ≡ true → (n : ℕ) × (n < 256) × (digits.now ≡ decimal n) }
{
    match number(digits) {
        Some(n) => n <= 255,
        None => false,
    }
}

/// Whether this is a word of letters that begins with a capital letter.
fn is_message_type_word(word: &[u8]) -> bool
    ensures { result ≡ is_message_type_word word.now }
{
    !word.is_empty() && word[0].is_ascii_uppercase() && are_ascii_letters(word)
}

fn are_ascii_letters(word: &[u8]) -> bool
    ensures { result ≡ list_all (λ b. is_lower_case b || is_upper_case b) word.now }
{
    word.iter().all(|b| is_ascii_letter(*b))
}

/// Whether an octet is a letter.
fn is_ascii_letter(octet: u8) -> bool
    ensures { result ≡ (is_lower_case octet || is_upper_case octet) }
{
    octet.is_ascii_lowercase() || octet.is_ascii_uppercase()
}

/// Whether this is the name of a number: a word of at most 64 octets from 21 to 7e that begins with a letter; a space and a
/// number may follow.
pub fn is_number_name(name: &[u8]) -> bool {
    match split_at_space(name) {
        Some((front, digits)) => is_number_name_word(front) && ulong(digits).is_some(),
        None => is_number_name_word(name),
    }
}

fn is_number_name_word(name: &[u8]) -> bool {
    match name {
        [first, ..] => first.is_ascii_alphabetic()
            && name.len() <= PART_MAX
            && is_graphic_name(name),
        [] => false,
    }
}

/// The form of a time. A 0 stands for any digit.
const TIME: &[u8; 30] = b"0000-00-00T00:00:00.000000000Z";

/// Whether this is a time or `-`.
pub fn is_time(time: &[u8]) -> bool {
    time == b"-".as_slice()
        || time.len() == TIME.len()
            && time
                .iter()
                .zip(TIME)
                .all(|(b, of)| fits_form_octet(*b, *of))
}

/// Whether an octet may stand where the form of a time has `form_octet`.
fn fits_form_octet(octet: u8, form_octet: u8) -> bool {
    if form_octet == b'0' {
        octet.is_ascii_digit()
    } else {
        octet == form_octet
    }
}

/// Whether these are seconds with nine digits after the point, or `-`.
pub fn are_seconds(text: &[u8]) -> bool {
    if text == b"-".as_slice() {
        return true;
    }
    let digits = match after(text, b"-") {
        Some(rest) => rest,
        None => text,
    };
    if digits.len() < 11 {
        return false;
    }
    let whole = digits.len() - 10;
    number(&digits[..whole]).is_some()
        && digits[whole] == b'.'
        && digits[whole + 1..].iter().all(|b| b.is_ascii_digit())
}

/// Whether this is an address and a port.
pub fn is_endpoint(text: &[u8]) -> bool {
    let mut colon = None;
    for i in 0..text.len() {
        if text[i] == b':' {
            colon = Some(i);
        }
    }
    match colon {
        Some(i) if i < text.len() => are_decimal_digits(&text[i + 1..], 5)
            && is_address(&text[..i]),
        _ => false,
    }
}

/// Whether these are decimal digits, at least one and at most `most`.
fn are_decimal_digits(text: &[u8], most: usize) -> bool {
    !text.is_empty() && text.len() <= most && text.iter().all(|b| b.is_ascii_digit())
}

/// Whether this is an address: four numbers, or an IPv6 address between brackets.
fn is_address(text: &[u8]) -> bool {
    if let Some(behind) = after(text, b"[") {
        return match before(behind, b"]") {
            Some(inner) => {
                inner.len() >= 2 && inner.len() <= 45 && inner.iter().all(|b| is_ipv6_octet(*b))
            }
            None => false,
        };
    }
    let mut groups = 0u32;
    for group in text.split(|b| *b == b'.') {
        if groups == 4 || !are_decimal_digits(group, 3) {
            return false;
        }
        groups += 1;
    }
    groups == 4
}

/// Whether an octet may stand in an IPv6 address.
fn is_ipv6_octet(octet: u8) -> bool {
    is_hex_digit(octet) || octet == b':' || octet == b'.'
}
