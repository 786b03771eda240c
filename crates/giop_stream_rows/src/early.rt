//! What is written if the stream of a row ends before its last octet.

use std::alloc::Global;

/// What is written if the stream ends after some of its octets: how many of the row's lines, and which closing.
#[derive(Clone, Copy)]
pub struct Early<'a> {
    /// How many lines the octets until then have.
    pub lines: usize,
    messages: &'a str,
    faults: &'a str,
    is_truncated: bool,
    /// The numbers of the messages that are unfinished, with commas between them.
    unfinished: &'a str,
    /// The number of octets that is counted, if it is smaller because the stream has stopped before.
    octets: Option<&'a str>,
}

impl<'a> Early<'a> {
    /// Parses a word. Also returns how many ends of the stream, one octet after another, the word holds for.
    pub fn read(word: &'a str) -> Option<(Early<'a>, usize)> {
        let (word, count) = times(word)?;
        let (word, octets) = split(word, '@');
        let (word, unfinished) = split(word, 'u');
        let (word, is_truncated) = match word.strip_suffix('t') {
            Some(word) => (word, true),
            None => (word, false),
        };
        let (lines, totals) = word.split_once(':')?;
        let (messages, faults) = totals.split_once('.')?;
        let early = Early {
            lines: lines.parse().ok()?,
            messages,
            faults,
            is_truncated,
            unfinished: unfinished.unwrap_or(""),
            octets,
        };
        Some((early, count))
    }

    /// What is written of a stream with these lines if it ends after this number of octets, without the last line feed.
    pub fn text(&self, alloc: Global, lines: &str, at: usize) -> Option<String> {
        let mut text = self.front(alloc, lines)?;
        if self.is_truncated {
            writeln!(text, "stream fault truncated at {at}").ok()?;
        }
        for number in self.unfinished.split(',') {
            unfinished(&mut text, number)?;
        }
        let (messages, faults) = (self.messages, self.faults);
        write!(text, "total messages {messages} faults {faults} octets ").ok()?;
        match self.octets {
            Some(octets) => write!(text, "{octets}").ok()?,
            None => write!(text, "{at}").ok()?,
        }
        Some(text)
    }

    /// The lines of the octets until then.
    pub fn front(&self, alloc: Global, lines: &str) -> Option<String> {
        let mut text = String::new(alloc);
        for line in lines.split('\n').take(self.lines) {
            writeln!(text, "{line}").ok()?;
        }
        Some(text)
    }

    /// Whether the stream has a stream fault until then, so that no more of it is read.
    pub fn is_stopped(&self, lines: &str) -> bool {
        let Some(last) = self.lines.checked_sub(1) else {
            return false;
        };
        match lines.split('\n').nth(last) {
            Some(line) => line.starts_with("stream fault"),
            None => false,
        }
    }

    /// The status of the program after such a closing.
    pub fn status(&self) -> u8 {
        if self.faults == "0" { 0 } else { 1 }
    }
}

fn unfinished(text: &mut String, number: &str) -> Option<()> {
    if number.is_empty() {
        return Some(());
    }
    writeln!(text, "m{number} unfinished").ok()
}

/// The word before `*` and a number, and that number. The number of a word alone is 1.
pub fn times(word: &str) -> Option<(&str, usize)> {
    match word.split_once('*') {
        Some((word, count)) => Some((word, count.parse().ok()?)),
        None => Some((word, 1)),
    }
}

/// The part of a word before a letter, and the part after it, if the word has the letter.
fn split(word: &str, letter: char) -> (&str, Option<&str>) {
    match word.split_once(letter) {
        Some((front, behind)) => (front, Some(behind)),
        None => (word, None),
    }
}
