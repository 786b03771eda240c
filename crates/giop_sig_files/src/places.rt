//! The file and the line that a line of the joined text comes from.

ghost use Rattle.std.specs.Prelude.{◌≡◌};
ghost use Rattle.giop_sig_files.specs.Places.{line_count, place};

/// A signature file: its name and its text.
#[derive(Debug, Drop)]
pub struct SignatureText<'a> {
    pub name: &'a str,
    pub text: Vec<u8>,
}

/// How many lines a text has. What follows its last LF is a line too.
fn line_count(text: &[u8]) -> usize
    ensures { result ≡ line_count text.now }
{
    let mut count = 1;
    for octet in text {
        count += usize::from(*octet == b'\n');
    }
    count
}

/// The file that a line of the joined text comes from, and the number of the line in the file.
pub fn place<'s, 'a>(
    first: &'s SignatureText<'a>,
    others: &'s [SignatureText<'a>],
    line: u32,
) -> (&'s SignatureText<'a>, u32)
    ensures { (result.0.now, result.1) ≡ place first.entry.now others.entry.now line }
{
    let mut file = first;
    let mut line = line;
    for next in others {
        let count = line_count(file.text.as_slice());
        if line as usize <= count {
            return (file, line);
        }
        line -= count as u32;
        file = next;
    }
    (file, line)
}
