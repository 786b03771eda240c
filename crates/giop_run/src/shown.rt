//! How the programs show words of the command line. An octet outside 20 to 7e is shown as `\xHH`, so that the terminal gets
//! no line feed and no escape sequence from a word.

ghost use Rattle.std.specs.Prelude.{◌≡◌, ◌<◌, Some, option_map, IfOk, map, string_bytes, encode_utf8};
ghost use Rattle.std.specs.Fmt.{WritesOnOk, IsPlainFormatter, HasWritten};
ghost use Rattle.giop_print.specs.Text.{hex_digit};
ghost use Rattle.giop_run.specs.CommandLine.{with_stand_ins, escaped, escaped_with_stand_ins, escaped_octet, escaped_octet_or_stand_in};

use std::alloc::{AllocError, Global};
use std::fmt;
use std::fmt::{Display, Formatter, Write};

/// The octet that stands for a line feed of a word while `clap` reads the words. No word has this octet, because it ends a
/// word.
const STAND_IN: u8 = 0;

/// A file's name, to be shown.
#[derive(Clone, Copy)]
pub struct ShownName<'a>(pub &'a str);

impl Display for ShownName<'_> {
    ghost output = { λ name. Some (escaped name.0.now) };

    fn fmt<W: Write>(&self, f: &mut Formatter<W>) -> fmt::Result {
        for octet in self.0.as_bytes() {
            put_escaped(f, *octet)?;
        }
        Ok(())
    }
}

/// The words for `clap`, with the stand-in for each line feed. So in a text of `clap` about the words, the line feeds of
/// the words differ from those of `clap`.
pub fn words_with_stand_ins(alloc: Global, words: &[String]) -> Result<Vec<String>, AllocError>
    ensures { IfOk result (λ marked. map string_bytes marked.items
        ≡ map (λ word. with_stand_ins (string_bytes word)) words.now) }
{
    let mut marked = Vec::new(alloc);
    for word in words {
        marked.push(with_stand_ins(alloc, word)?)?;
    }
    Ok(marked)
}

/// A word with the stand-in for each of its line feeds.
fn with_stand_ins(alloc: Global, word: &str) -> Result<String, AllocError>
    ensures { IfOk result (λ marked. string_bytes marked ≡ with_stand_ins word.now) }
{
    let mut marked = String::new(alloc);
    for letter in word.chars() {
        marked.push(letter_or_stand_in(letter))?;
    }
    Ok(marked)
}

/// A letter of a word, or the stand-in if the letter is a line feed.
fn letter_or_stand_in(letter: char) -> char
    ensures { encode_utf8 result ≡ with_stand_ins (encode_utf8 letter) }
{
    if letter == '\n' {
        char::from(STAND_IN)
    } else {
        letter
    }
}

/// A text that `clap` gives about words with stand-ins, to be shown.
#[derive(Drop)]
pub(crate) struct ShownText<'a, D: Display>(pub(crate) &'a D);

impl<D: Display> Display for ShownText<'_, D> {
    ghost output = { λ text. option_map escaped_with_stand_ins (D.output text.0.now) };

    fn fmt<W: Write>(&self, f: &mut Formatter<W>) -> fmt::Result {
        let mut escaping = Escaping(f);
        let written = escaping.write(self.0);
        // The call does nothing. By the reference that it returns, a proof knows what `f` holds.
        escaping.into_inner();
        written
    }
}

/// Writes a text about words with stand-ins. A line feed in it isn't a word's, and stays.
#[derive(Drop)]
struct Escaping<'f, W: Write>(&'f mut Formatter<W>);

impl<'f, W: Write> Escaping<'f, W> {
    /// The formatter that is written to.
    fn into_inner(self) -> &'f mut Formatter<W>
        ensures { result ≡ self.entry.0 }
    {
        self.0
    }
}

impl<W: Write> Write for Escaping<'_, W> {
    ghost write_str_gives = { λ old text new. (IsPlainFormatter old.0.now
        → HasWritten W.write_str_gives old.0.now (escaped_with_stand_ins text) new.0.now)
        × (new.0.ghost_name ≡ old.0.ghost_name) };

    fn write_str(&mut self, text: &str) -> fmt::Result {
        for octet in text.as_bytes() {
            put_escaped_or_stand_in(self.0, *octet)?;
        }
        Ok(())
    }
}

/// Writes an octet of a text about words with stand-ins.
fn put_escaped_or_stand_in<W: Write>(f: &mut Formatter<W>, octet: u8) -> fmt::Result
    ensures { WritesOnOk W.write_str_gives f.old result (escaped_octet_or_stand_in octet) f.new }
{
    match octet {
        b'\n' => f.write_char('\n'),
        STAND_IN => put_escaped(f, b'\n'),
        octet => put_escaped(f, octet),
    }
}

/// Writes an octet in the way that it is shown.
fn put_escaped<W: Write>(f: &mut Formatter<W>, octet: u8) -> fmt::Result
    ensures { WritesOnOk W.write_str_gives f.old result (escaped_octet octet) f.new }
{
    if (0x20..=0x7e).contains(&octet) {
        return f.write_char(char::from(octet));
    }
    f.write_str("\\x")?;
    f.write_char(hex_char(octet / 16))?;
    f.write_char(hex_char(octet % 16))
}

/// The hexadecimal digit of a number.
fn hex_char(number: u8) -> char
    requires { number < 16 }
    ensures digit { result ≡ hex_digit number }
    ensures ascii { result < 128 }
{
    char::from(b"0123456789abcdef"[usize::from(number)])
}
