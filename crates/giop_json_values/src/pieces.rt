//! The content whose pieces come.

ghost use Rattle.std.specs.Prelude.{◌≡◌};

use giop_lines::{Content, Piece};

/// What a piece belongs to.
#[derive(Clone, Copy, Debug, PartialEq, Eq)]
pub(crate) enum Form {
    /// A string. Its octets are text.
    Text,
    /// Octets, a wide string or a wide char, in hexadecimal.
    Hex,
    /// What an encapsulation has after its value, in hexadecimal.
    Left,
    /// What a message has after its body, in hexadecimal.
    Rest,
}

/// A piece at a path.
#[derive(Clone, Copy)]
pub(crate) struct ContentPiece<'a> {
    pub(crate) path: &'a [u8],
    pub(crate) form: Form,
    pub(crate) is_octets: bool,
    pub(crate) offset: u64,
    pub(crate) octets: &'a [u8],
    pub(crate) more: bool,
}

impl<'a> ContentPiece<'a> {
    /// Makes the piece that a value is.
    pub(crate) fn of_value(path: &'a [u8], piece: Piece<'a>) -> ContentPiece<'a>
        ensures { result.path.now ≡ path.now }
    {
        let form = match piece.content {
            Content::Text => Form::Text,
            Content::Octets | Content::WideString | Content::WideChar => Form::Hex,
            Content::Rest => Form::Left,
        };
        ContentPiece {
            path,
            form,
            is_octets: piece.content == Content::Octets,
            offset: u64::from(piece.offset),
            octets: piece.octets,
            more: piece.more || form == Form::Left,
        }
    }

    /// Makes a piece of what a message has after its body.
    pub(crate) fn of_rest(offset: u64, octets: &'a [u8]) -> ContentPiece<'a> {
        ContentPiece {
            path: b"rest",
            form: Form::Rest,
            is_octets: false,
            offset,
            octets,
            more: true,
        }
    }

    /// The offset at which the next piece of the content begins.
    pub(crate) fn next_offset(&self) -> u64 {
        let mut count: u64 = 0;
        if self.form == Form::Text {
            // An escape has four letters, but is one octet.
            count = self.octets.len() as u64;
            for letter in self.octets {
                if *letter == b'\\' {
                    count = count.saturating_sub(3);
                }
            }
        } else {
            count = count.saturating_add(self.octets.len() as u64 / 2);
        }
        self.offset.saturating_add(count)
    }
}
