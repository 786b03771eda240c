//! Where a value stands in its message.

ghost use Rattle.std.specs.Prelude.{◌≡◌, ◌≤◌, ◌<◌, ◌+◌, ◌++◌, length};
ghost use Rattle.giop_print.specs.Line.{line_text, line_room};
ghost use Rattle.giop_print.specs.Paths.{root_word, name_segment, index_segment};

use crate::line::Line;
use arrayvec::ArrayVec;
use itoa::Buffer;
use std::marker::Model;

/// What a path begins with.
#[derive(Clone, Copy, Debug, PartialEq, Eq, Hash)]
pub enum Root {
    /// The header of a message.
    Header,
    /// The repository id of a user exception.
    Exception,
    /// The body of a message.
    Body,
}

/// A path: its root and at most 24 segments. A contract sees its text and how many segments it has.
#[derive(Clone, Debug, Drop, PartialEq, Eq)]
pub struct Path {
    // Room for a root of at most 9 octets, and for 24 segments of at most 65.
    text: ArrayVec<u8, 1569>,
    segments: u8,
}

impl Model for Path {
    ghost use Rattle.std.specs.Prelude.{ℕ, ◌≤◌, ◌+◌, ◌*◌, List, length};
    ghost use Rattle.giop_print.specs.Paths.{PathText};

    ghost Value = { PathText };

    ghost view = { λ path. record { text = path.text.items; segments = path.segments } };

    ghost inverse = { λ shown. record {
      text = record { items = shown.text };
      segments =
          shown.segments;
    } };

    ghost invariant = { λ path. (path.segments ≤ 24)
        × (length path.text.items ≤ 9 + 65 * path.segments) };
}

impl Path {
    /// The path of the whole that the root names. It takes some 1,600 octets, so a caller that
    /// writes many lines keeps one path and begins it again with `restart`.
    #[inline]
    pub fn new(root: Root) -> Path
        ensures { result ≡ record { text = root_word root; segments = 0 } }
    {
        let mut path = Path {
            text: ArrayVec::new(),
            segments: 0,
        };
        path.restart(root);
        path
    }

    /// Begins the path again, in the same memory.
    #[inline]
    pub fn restart(&mut self, root: Root)
        ensures { self.new ≡ record { text = root_word root; segments = 0 } }
    {
        self.text.clear();
        self.segments = 0;
        self.text.try_extend_from_slice(root_word(root)).unwrap();
    }

    /// The text of the path.
    #[inline]
    pub fn text(&self) -> &[u8]
        ensures { result.now ≡ self.now.text }
    {
        &self.text
    }

    /// Another path with the same text.
    pub fn copied(&self) -> Path
        ensures { result ≡ self.now }
    {
        let mut text = ArrayVec::new();
        text.try_extend_from_slice(&self.text).unwrap();
        Path {
            text,
            segments: self.segments,
        }
    }

    /// How many segments stand after the root.
    pub fn segments(&self) -> usize
        ensures value { result ≡ self.now.segments }
        ensures within { result ≤ 24 }
    {
        usize::from(self.segments)
    }

    /// Goes to a member or a case; with the name `switch`, it goes to the discriminator.
    #[inline]
    pub fn push_name(&mut self, name: &[u8])
        requires room { self.old.segments < 24 }
        requires name { length name.now ≤ 64 }
        ensures text { self.new.text ≡ self.old.text ++ name_segment name.now }
        ensures segments { self.new.segments ≡ self.old.segments + 1 }
    {
        self.text.push(b'.');
        self.text.try_extend_from_slice(name).unwrap();
        self.segments += 1;
    }

    /// Goes to an element, counted from 0.
    #[inline]
    pub fn push_index(&mut self, index: u32)
        requires { self.old.segments < 24 }
        ensures text { self.new.text ≡ self.old.text ++ index_segment index }
        ensures segments { self.new.segments ≡ self.old.segments + 1 }
    {
        let mut digits = Buffer::new();
        self.text.push(b'[');
        self.text
            .try_extend_from_slice(digits.format(index).as_bytes())
            .unwrap();
        self.text.push(b']');
        self.segments += 1;
    }
}

/// The word of a root.
fn root_word(root: Root) -> &'static [u8]
    ensures value { result.now ≡ root_word root }
    ensures short { length result.now ≤ 9 }
{
    match root {
        Root::Header => b"header",
        Root::Exception => b"exception",
        Root::Body => b"body",
    }
}
