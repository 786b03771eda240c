//! What the lines of a value begin with: the number of their message, and their root.

ghost use Rattle.std.specs.Prelude.{◌≡◌, ◌≤◌, ◌+◌, [], ◌++◌, codes, drop, length};
ghost use Rattle.giop_print.specs.Line.{line_text, line_room, headed};
ghost use Rattle.giop_print.specs.Paths.{root_word};

use crate::line::Line;
use crate::path::Root;
use itoa::write_digits;
use std::marker::Model;

/// The most octets that a head can have is 31: `m`, 20 digits, a space, and `exception`.
const SIZE: usize = 32;

/// The number of a message and a root, spelled once for all lines that begin with them. A contract
/// sees the number and the root.
#[derive(Clone, Debug, Drop)]
pub struct Head {
    message: u64,
    root: Root,
    // The text stands at the end of these octets.
    octets: [u8; SIZE],
    count: u8,
}

impl Model for Head {
    ghost use Rattle.std.specs.Prelude.{◌≡◌, ◌≤◌, ◌-◌, [], drop};
    ghost use Rattle.giop_print.specs.Line.{headed};
    ghost use Rattle.giop_print.specs.Paths.{HeadView, root_word};

    ghost Value = { HeadView };

    ghost view = { λ head. record { message = head.message; root = head.root } };

    ghost invariant = { λ head. (head.count ≤ 32)
        × (drop (32 - head.count) head.octets ≡ headed head.message (root_word head.root) []) };
}

/// The octets of a head without the number of its message, and the index at which that number ends.
#[inline(always)]
fn head_after_number(root: Root) -> ([u8; SIZE], usize)
    ensures text { drop result.1 result.0 ≡ codes " " ++ root_word root }
    ensures room { 21 ≤ result.1 }
    ensures within { result.1 ≤ 31 }
{
    match root {
        Root::Header => (*b"                          header", 25),
        Root::Exception => (*b"                       exception", 22),
        Root::Body => (*b"                            body", 27),
    }
}

impl Head {
    /// The head of the lines of a message below a root.
    pub fn new(message: u64, root: Root) -> Head
        ensures { result ≡ record { message = message; root = root } }
    {
        let (mut octets, end) = head_after_number(root);
        let at = write_digits(message, &mut octets, end);
        octets[at - 1] = b'm';
        Head {
            message,
            root,
            octets,
            count: (SIZE + 1 - at) as u8,
        }
    }

    /// The number of the message.
    #[inline(always)]
    pub fn message(&self) -> u64
        ensures { result ≡ self.now.message }
    {
        self.message
    }

    /// The root.
    #[inline(always)]
    pub fn root(&self) -> Root
        ensures { result ≡ self.now.root }
    {
        self.root
    }

    /// Puts the head before what was spelled of a line.
    #[inline(always)]
    pub fn put(&self, line: &mut Line)
        requires { 32 ≤ line_room line.old }
        ensures text { line_text line.new
            ≡ headed self.now.message (root_word self.now.root) [] ++ line_text line.old }
        ensures room { line_room line.new
            + length (headed self.now.message (root_word self.now.root) []) ≡ line_room line.old }
        ensures most { line_room line.old ≤ line_room line.new + 32 }
    {
        line.put_blocks(&self.octets, usize::from(self.count));
    }
}
