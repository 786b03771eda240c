//! The text of a row, parsed.

use std::alloc::Global;

/// A row: its name, the status of the program, how many messages may be open, what is written if its stream ends early (may
/// be empty), its checkpoints (may be empty), the octets in hexadecimal text, and the lines without the last line feed.
#[derive(Clone, Copy)]
pub struct Row<'a> {
    pub name: &'a str,
    pub status: u8,
    pub most: u32,
    pub early: &'a str,
    pub checkpoints: &'a str,
    pub stream: &'a str,
    pub lines: &'a str,
}

impl<'a> Row<'a> {
    /// Parses a row.
    pub fn read(text: &'a str) -> Option<Row<'a>> {
        let (head, lines) = text.split_once("\nlines\n")?;
        let mut parts = head.splitn(3, '\n');
        let name = parts.next()?;
        let status = parts.next()?.strip_prefix("status ")?.parse().ok()?;
        let (open, rest) = named(parts.next().unwrap_or(""), "open ");
        let (early, rest) = named(rest, "early ");
        let (checkpoints, stream) = named(rest, "checkpoints ");
        Some(Row {
            name,
            status,
            most: most_of(open)?,
            early,
            checkpoints,
            stream,
            lines,
        })
    }
}

/// How many messages may be open, by this word; 16 if it is empty.
fn most_of(word: &str) -> Option<u32> {
    if word.is_empty() {
        return Some(16);
    }
    word.parse().ok()
}

/// What follows a name in the first line of a text, and the other lines. If the first line doesn't begin with the name: an
/// empty text, and the whole text.
pub fn named<'a>(text: &'a str, name: &str) -> (&'a str, &'a str) {
    let Some(behind) = text.strip_prefix(name) else {
        return ("", text);
    };
    behind.split_once('\n').unwrap_or((behind, ""))
}

/// The octets of hexadecimal text, with spaces and line feeds anywhere. `None` if the text is no such text, or if there
/// isn't enough memory.
pub fn octets(alloc: Global, text: &str) -> Option<Vec<u8>> {
    let mut octets = Vec::new(alloc);
    let mut high = None;
    for digit in text.chars().filter(|c| *c != ' ' && *c != '\n') {
        let digit = digit.to_digit(16)?;
        match high.take() {
            None => high = Some(digit),
            // A digit is below 16. The remainders show that to the checker.
            Some(first) => octets.push((first % 16 * 16 + digit % 16) as u8).ok()?,
        }
    }
    if high.is_some() {
        return None;
    }
    Some(octets)
}

/// The request list of a text in which `I..J NAME` stands for a line for each id from I to J.
pub fn list(alloc: Global, text: &str) -> Option<String> {
    let mut list = String::new(alloc);
    for line in text.lines() {
        entry(&mut list, line)?;
    }
    Some(list)
}

fn entry(list: &mut String, line: &str) -> Option<()> {
    match line.split_once("..") {
        None => writeln!(list, "{line}").ok(),
        Some((first, rest)) => entries(list, first, rest),
    }
}

fn entries(list: &mut String, first: &str, rest: &str) -> Option<()> {
    let (last, name) = rest.split_once(' ')?;
    let first = first.parse::<u32>().ok()?;
    let last = last.parse::<u32>().ok()?;
    for id in first..=last {
        writeln!(list, "{id} {name}").ok()?;
    }
    Some(())
}
