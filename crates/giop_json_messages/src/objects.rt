//! Objects that are written to an out, each in a line of ASCII.

ghost use Rattle.std.specs.Prelude.{◌<◌, ◌*◌, ◌↔◌, IsTrue};

use giop_json_values::{JsonText, Options, utf8_or_empty};
use giop_print::Out;
use giop_view_parts::ViewError;
use std::alloc::{AllocError, Global};
use std::mem;

/// The greatest number of KiB of text that may be held.
pub const HOLD_MAX: u32 = 16_777_216;

/// What a user may choose.
#[derive(Clone, Copy, Debug, Drop)]
pub struct Settings {
    /// How values are written.
    pub options: Options,
    /// The greatest number of KiB of text that may be held, 1 to 16,777,216.
    pub hold: u32,
}

impl Settings {
    /// Whether more octets are held than may be.
    #[inline]
    pub(crate) fn is_over_hold(&self, held: u64) -> bool
        ensures { IsTrue result ↔ self.now.hold * 1024 < held }
    {
        held > u64::from(self.hold) * 1_024
    }
}

/// The room of an object, which is kept for the next one.
#[derive(Drop)]
pub(crate) struct ReusedBuffer {
    alloc: Global,
    octets: Vec<u8>,
}

impl ReusedBuffer {
    pub(crate) fn new(alloc: Global) -> ReusedBuffer {
        ReusedBuffer {
            alloc,
            octets: Vec::new(alloc),
        }
    }

    /// Makes a text with nothing written.
    pub(crate) fn begin_text(&mut self) -> JsonText {
        JsonText::new(mem::replace(&mut self.octets, Vec::new(self.alloc)))
    }

    /// Takes back the room of a text.
    pub(crate) fn take_back(&mut self, octets: Vec<u8>) {
        self.octets = octets;
    }

    /// Writes a text with its LF.
    pub(crate) fn put_line<O: Out>(
        &mut self,
        out: &mut O,
        text: JsonText,
    ) -> Result<(), ViewError> {
        let mut octets = text.into_octets();
        octets.push(b'\n')?;
        put_json_in_ascii(out, &octets)?;
        self.octets = octets;
        Ok(())
    }
}

/// Writes the list of the lines of later versions, if there are any. Each line ends with its LF.
pub(crate) fn put_later_lines(text: &mut JsonText, lines: &[u8]) -> Result<(), AllocError> {
    if lines.is_empty() {
        return Ok(());
    }
    text.key("later")?;
    text.open(true)?;
    for line in lines.split(|octet| *octet == b'\n') {
        if !line.is_empty() {
            text.octets(line)?;
        }
    }
    text.close(true)
}

/// Writes a text of JSON. Each character outside ASCII is written as its escape; such characters stand only in its strings.
pub(crate) fn put_json_in_ascii<O: Out>(out: &mut O, text: &[u8]) -> Result<(), ViewError> {
    if text.is_ascii() {
        out.put_all(text)?;
        return Ok(());
    }
    for character in utf8_or_empty(text).chars() {
        let mut room = [0; 4];
        if character.is_ascii() {
            out.put_all(character.encode_utf8(&mut room).as_bytes())?;
        } else {
            let mut units = [0; 2];
            for unit in character.encode_utf16(&mut units) {
                out.put_all(&unicode_escape(*unit))?;
            }
        }
    }
    Ok(())
}

/// The escape of a UTF-16 unit in JSON.
fn unicode_escape(unit: u16) -> [u8; 6] {
    let [high, low] = unit.to_be_bytes();
    let digits = b"0123456789abcdef";
    [
        b'\\',
        b'u',
        digits[usize::from(high / 16)],
        digits[usize::from(high % 16)],
        digits[usize::from(low / 16)],
        digits[usize::from(low % 16)],
    ]
}
