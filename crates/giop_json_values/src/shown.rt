//! The octets of a text as JSON has them. Printable ASCII stays as it is; other octets are `\xHH`, or the characters that
//! they are, as the user chose.

use crate::options::Characters;
use crate::text::{JsonText, json_ascii_size, utf8_or_empty};
use arrayvec::ArrayVec;
use giop_lines::first_octet;
use std::alloc::{AllocError, Global};
use unicode::properties::GeneralCategory;

/// The greatest number of octets of a character in UTF-8.
const CHARACTER_MAX: usize = 4;

/// A text that comes in pieces.
#[derive(Drop)]
pub(crate) struct ShownText {
    text: String,
    size: u64,
    // The first octets of a character in UTF-8 that isn't whole yet.
    begun: ArrayVec<u8, 4>,
}

impl ShownText {
    pub(crate) fn new(alloc: Global) -> ShownText {
        ShownText {
            text: String::new(alloc),
            size: 0,
            begun: ArrayVec::new(),
        }
    }

    /// The text until now.
    pub(crate) fn text(&self) -> &str {
        &self.text
    }

    /// How many octets the text has between the quotes of JSON in ASCII.
    pub(crate) fn size(&self) -> u64 {
        self.size
    }

    pub(crate) fn clear(&mut self) {
        self.text.clear();
        self.size = 0;
        self.begun.clear();
    }

    /// Adds text that stands for itself.
    pub(crate) fn add_plain(&mut self, text: &str) -> Result<(), AllocError> {
        self.size = self
            .size
            .saturating_add(json_ascii_size(text.as_bytes()) as u64);
        self.text.push_str(text)
    }

    /// Adds a piece of a text as its line has it.
    pub(crate) fn add_line_text(
        &mut self,
        piece: &[u8],
        characters: Characters,
    ) -> Result<(), AllocError> {
        if characters == Characters::Escapes {
            return self.add_plain(utf8_or_empty(piece));
        }
        let mut rest = piece;
        for _ in 0..piece.len() {
            let Some((octet, next)) = first_octet(rest) else {
                break;
            };
            self.add_octet(octet, characters)?;
            rest = next;
        }
        Ok(())
    }

    fn add_octet(&mut self, octet: u8, characters: Characters) -> Result<(), AllocError> {
        match characters {
            Characters::Escapes => self.add_escaped(octet),
            Characters::Latin1 => self.add_character_or_octets(char::from(octet), &[octet]),
            Characters::Utf8 => {
                if self.begun.try_push(octet).is_ok() {
                    self.add_whole_characters()
                } else {
                    Ok(())
                }
            }
        }
    }

    /// Adds those of the characters that have begun that are whole.
    fn add_whole_characters(&mut self) -> Result<(), AllocError> {
        for _ in 0..CHARACTER_MAX {
            let mut octets = [0; CHARACTER_MAX];
            let count = self.begun.len().min(CHARACTER_MAX);
            octets[..count].copy_from_slice(&self.begun.as_slice()[..count]);
            match str::from_utf8(&octets[..count]) {
                Ok(text) => {
                    self.begun.clear();
                    return match text.chars().next() {
                        None => Ok(()),
                        Some(character) => self.add_character_or_octets(
                            character,
                            &octets[..count],
                        ),
                    };
                }
                Err(error) if error.error_len().is_none() => return Ok(()),
                Err(_) => self.escape_first_begun(octets[0])?,
            }
        }
        Ok(())
    }

    /// Adds the first of the octets that have begun, because no character begins with it.
    fn escape_first_begun(&mut self, octet: u8) -> Result<(), AllocError> {
        if !self.begun.is_empty() {
            self.begun.remove(0);
        }
        self.add_escaped(octet)
    }

    /// Adds a character, or its octets if it isn't one that is shown.
    fn add_character_or_octets(
        &mut self,
        character: char,
        octets: &[u8],
    ) -> Result<(), AllocError> {
        if is_shown_character(character) {
            let mut room = [0; CHARACTER_MAX];
            return self.add_plain(character.encode_utf8(&mut room));
        }
        for octet in octets {
            self.add_escaped(*octet)?;
        }
        Ok(())
    }

    /// Adds an octet in the way that a line has it.
    fn add_escaped(&mut self, octet: u8) -> Result<(), AllocError> {
        if is_plain(octet) {
            let room = [octet];
            return self.add_plain(utf8_or_empty(&room));
        }
        let digits = b"0123456789abcdef";
        let escape = [
            b'\\',
            b'x',
            digits[usize::from(octet / 16)],
            digits[usize::from(octet % 16)],
        ];
        self.add_plain(utf8_or_empty(&escape))
    }

    /// Ends the text. If a character has begun, it isn't complete, so its octets are shown one by one.
    pub(crate) fn end_text(&mut self) -> Result<(), AllocError> {
        for _ in 0..CHARACTER_MAX {
            let Some(octet) = self.begun.as_slice().first().copied() else {
                break;
            };
            self.escape_first_begun(octet)?;
        }
        Ok(())
    }
}

/// Writes the text of a line as a text of JSON.
pub fn put_line_text(
    alloc: Global,
    text: &mut JsonText,
    octets: &[u8],
    characters: Characters,
) -> Result<(), AllocError> {
    let mut letters = ShownText::new(alloc);
    letters.add_line_text(octets, characters)?;
    letters.end_text()?;
    text.string(letters.text())
}

/// Whether an octet stands for itself in the text of a line.
fn is_plain(octet: u8) -> bool {
    octet >= 0x20 && octet <= 0x7e && octet != b'"' && octet != b'\\'
}

/// Whether a character outside ASCII is shown: it isn't a control, format, private or unassigned one, and doesn't separate
/// lines.
fn is_shown_character(character: char) -> bool {
    if character < '\u{a0}' {
        return character.is_ascii() && is_plain(character as u8);
    }
    !matches!(
        GeneralCategory::for_char(character),
        GeneralCategory::Control
            | GeneralCategory::Format
            | GeneralCategory::LineSeparator
            | GeneralCategory::ParagraphSeparator
            | GeneralCategory::Surrogate
            | GeneralCategory::PrivateUse
            | GeneralCategory::Unassigned
    )
}
