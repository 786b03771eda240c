//! JSON that is written token by token, and how many octets it has.

ghost use Rattle.std.specs.Prelude.{◌≡◌, ◌++◌, [], decimal, if◌then◌else◌};
ghost use Rattle.std.specs.Fmt.{signed_decimal};
ghost use Rattle.std.specs.Str.{IsUtf8};
ghost use Rattle.json.specs.Token.{begin_object, end_object, begin_array, end_array, key, string, number, boolean, null};
ghost use Rattle.json.specs.Print.{print, IsNumber};
ghost use Rattle.json.specs.Written.{Writes};

use json::{Writer, is_number};
use ryu::Float;
use std::alloc::{AllocError, Global};
use std::marker::Model;

/// JSON that is written token by token. The caller nests the tokens.
#[derive(Drop)]
pub struct JsonText {
    writer: Writer,
    size: u64,
    // Whether a comma comes before the next member or element.
    is_after_value: bool,
}

/// A contract sees the tokens that were written.
impl Model for JsonText {
    ghost use Rattle.json.specs.Written.{Written, written_code};

    ghost Value = { Written };

    ghost coded = { written_code };

    ghost view = { λ text. text.writer };
}

impl JsonText {
    /// Makes a text with nothing written, in a room that may have been used before.
    pub fn new(room: Vec<u8>) -> JsonText
        ensures before { result.before ≡ [] }
        ensures tokens { result.tokens ≡ [] }
    {
        let mut room = room;
        room.clear();
        JsonText {
            writer: Writer::new(room),
            size: 0,
            is_after_value: false,
        }
    }

    /// How many octets the text has, if each character outside ASCII is written as its escape.
    pub fn size(&self) -> u64 {
        self.size
    }

    /// Gives what was written.
    pub fn into_octets(self) -> Vec<u8>
        ensures { result.items ≡ self.before ++ print self.tokens }
    {
        let JsonText { writer, .. } = self;
        writer.into_inner()
    }

    /// Counts the octets that are written next.
    fn count_octets(&mut self, size: usize)
        ensures { self.new ≡ self.old }
    {
        self.size = self
            .size
            .saturating_add(size as u64)
            .saturating_add(u64::from(self.is_after_value));
        self.is_after_value = true;
    }

    /// Writes the name of a member. Its value comes next.
    #[inline]
    pub fn key(&mut self, name: &str) -> Result<(), AllocError>
        ensures { Writes result self.old self.new (key name.now) }
    {
        self.count_octets(name.len().saturating_add(3));
        self.is_after_value = false;
        self.writer.key(name)
    }

    /// Writes the beginning of a list or an object.
    pub fn open(&mut self, is_list: bool) -> Result<(), AllocError>
        ensures { Writes result self.old self.new
            (if is_list then begin_array else begin_object) }
    {
        self.count_octets(1);
        self.is_after_value = false;
        if is_list {
            self.writer.begin_array()
        } else {
            self.writer.begin_object()
        }
    }

    /// Writes the end of a list or an object.
    pub fn close(&mut self, is_list: bool) -> Result<(), AllocError>
        ensures { Writes result self.old self.new
            (if is_list then end_array else end_object) }
    {
        self.is_after_value = false;
        self.count_octets(1);
        if is_list {
            self.writer.end_array()
        } else {
            self.writer.end_object()
        }
    }

    /// Writes a text.
    pub fn string(&mut self, text: &str) -> Result<(), AllocError>
        ensures { Writes result self.old self.new (string text.now) }
    {
        self.count_octets(json_ascii_size(text.as_bytes()).saturating_add(2));
        self.writer.string(text)
    }

    /// Writes the text that octets are. If they aren't UTF-8, it is empty.
    pub fn octets(&mut self, octets: &[u8]) -> Result<(), AllocError>
        ensures { IsUtf8 octets.now → Writes result self.old self.new (string octets.now) }
    {
        self.string(utf8_or_empty(octets))
    }

    /// Writes a number by its digits.
    fn digits(&mut self, digits: &str) -> Result<(), AllocError>
        ensures { IsNumber digits.now → Writes result self.old self.new (number digits.now) }
    {
        if !is_number(digits) {
            return self.null();
        }
        self.count_octets(digits.len());
        self.writer.number(digits)
    }

    /// Writes a number that is already text. If the octets aren't a number of JSON, writes `null`.
    pub fn number(&mut self, octets: &[u8]) -> Result<(), AllocError>
        ensures { IsUtf8 octets.now → IsNumber octets.now
            → Writes result self.old self.new (number octets.now) }
    {
        self.digits(utf8_or_empty(octets))
    }

    /// Writes a number that isn't below 0.
    pub fn unsigned(&mut self, value: u64) -> Result<(), AllocError>
        ensures { Writes result self.old self.new (number (decimal value)) }
    {
        self.count_octets(digit_count(value));
        self.writer.u64(value)
    }

    /// Writes a number.
    pub fn signed(&mut self, value: i64) -> Result<(), AllocError>
        ensures { Writes result self.old self.new (number (signed_decimal value)) }
    {
        self.count_octets(digit_count(value.unsigned_abs()).saturating_add(usize::from(value < 0)));
        self.writer.i64(value)
    }

    /// Writes a number with a point or an exponent, in a form that is read back as the same number. If it isn't finite,
    /// writes `null`, because JSON has no text for it.
    pub fn float<F: Float>(&mut self, value: F) -> Result<(), AllocError> {
        let mut buffer = ryu::Buffer::new();
        self.digits(buffer.format(value))
    }

    /// Writes a truth value.
    pub fn boolean(&mut self, is_true: bool) -> Result<(), AllocError>
        ensures { Writes result self.old self.new (boolean is_true) }
    {
        self.count_octets(if is_true { 4 } else { 5 });
        self.writer.boolean(is_true)
    }

    /// Writes `null`.
    pub fn null(&mut self) -> Result<(), AllocError>
        ensures { Writes result self.old self.new null }
    {
        self.count_octets(4);
        self.writer.null()
    }
}

/// How many decimal digits a number has.
fn digit_count(number: u64) -> usize {
    match number {
        0..=9 => 1,
        10..=99 => 2,
        100..=999 => 3,
        1_000..=9_999 => 4,
        10_000..=99_999 => 5,
        _ => itoa::Buffer::new().format(number).len(),
    }
}

/// Whether all octets of a text are ASCII that needs no escape in JSON.
fn needs_no_escape(text: &[u8]) -> bool {
    let mut is_plain = true;
    for octet in text {
        is_plain &= *octet < 0x80 && *octet != b'"' && *octet != b'\\';
    }
    is_plain
}

/// How many octets a text has between the quotes of JSON in ASCII.
pub(crate) fn json_ascii_size(text: &[u8]) -> usize {
    if needs_no_escape(text) {
        return text.len();
    }
    let mut size: usize = 0;
    for octet in text {
        size = size.saturating_add(match *octet {
            b'"' | b'\\' => 2,
            0..=0x7f => 1,
            0x80..=0xbf => 0,
            0xc0..=0xef => 6,
            0xf0..=0xff => 12,
        });
    }
    size
}

/// Octets as the text that they are in UTF-8. If they aren't UTF-8, it is empty.
pub fn utf8_or_empty(octets: &[u8]) -> &str
    ensures { IsUtf8 octets.now → result.now ≡ octets.now }
{
    str::from_utf8(octets).unwrap_or_default()
}
