//! The parts of a message, and what each keeps of the octets of it that have come.

ghost use Rattle.std.specs.Prelude.{◌≡◌, ℕ, ◌+◌, ◌-◌, ◌^◌, ◌<◌, ◌≤◌, List, [], ◌++◌, length, OnOk};
ghost use Rattle.arrayvec.specs.ArrayVec.{array_vec_len};
ghost use Rattle.giop_print.specs.Output.{Writes};

use crate::body_type::BodyTypeId;
use arrayvec::ArrayVec;
use giop_print::{Out, OutFault, Root, rest_line, split_rest_line};

/// A part that is read as a value.
#[derive(Clone, Copy)]
pub enum Section {
    Header,
    /// The repository id of an exception.
    Exception,
    /// The body of a system exception.
    SystemException,
    Body,
}

impl Section {
    ghost use Rattle.giop_message.specs.Messages.{root_of};

    /// The root of the section's lines.
    pub(crate) fn root(self) -> Root
        ensures { result ≡ root_of self }
    {
        match self {
            Section::Header => Root::Header,
            Section::Exception => Root::Exception,
            Section::SystemException => Root::Body,
            Section::Body => Root::Body,
        }
    }
}

/// The part of a message to which the next octet belongs.
#[derive(Drop)]
pub enum Part {
    /// A value that has begun and not ended. The message's decoder reads it.
    Typed(Section),
    /// The padding before a body of this type.
    Padding(BodyTypeId),
    Rest(Rest),
}

/// The octets after the body, or after a header without a body.
#[derive(Drop)]
pub struct Rest {
    // How many octets of the rest are before its last part: a multiple of 32.
    pub(crate) offset: u64,
    // The last part of the rest.
    pub(crate) held: ArrayVec<u8, 32>,
    ghost room: { array_vec_len held < 32 },
}

impl Rest {
    ghost use Rattle.giop_message.specs.Messages.{In_rest, message_lines, stage_of};
    ghost use Rattle.giop_message.specs.StageSteps.{rest_step};
    ghost use Rattle.giop_message.specs.MessageState.{message_lines_text};
    ghost use Rattle.giop_message.specs.MessageSteps.{held_text};

    /// A rest without octets.
    pub(crate) fn new() -> Rest
        ensures offset { result.offset ≡ 0 }
        ensures held { result.held.items ≡ [] }
    {
        Rest {
            offset: 0,
            held: ArrayVec::new(),
        }
    }

    /// For how many octets the last part has room.
    pub(crate) fn room(&self) -> usize
        ensures { result ≡ 32 - length self.now.held.items }
    {
        32 - self.held.len()
    }

    /// Takes octets of the last part, and writes that part if it is full: the octets that are held,
    /// and these octets, which are not copied.
    pub(crate) fn take<O: Out>(
        &mut self,
        number: u64,
        octets: &[u8],
        out: &mut O,
    ) -> Result<(), OutFault>
        requires limit { self.old.offset ≤ 2 ^ 48 }
        requires room { length self.old.held.items + length octets.now ≤ 32 }
        ensures writes { (place offset at : ℕ) →
            Writes result (O.log out.old) (O.log out.new) (message_lines_text number place offset
            (message_lines (rest_step self.old.offset (self.old.held.items ++ octets.now) at))) }
        ensures holds { OnOk result ((at : ℕ) →
            stage_of (rest_step self.old.offset (self.old.held.items ++ octets.now) at)
            ≡ In_rest self.new.offset self.new.held.items) }
        ensures more { OnOk result (self.new.offset + length self.new.held.items
            ≡ self.old.offset + length self.old.held.items + length octets.now) }
    {
        if octets.len() < self.room() {
            self.held.try_extend_from_slice(octets).unwrap();
            return Ok(());
        }
        let written = split_rest_line(out, number, self.offset, self.held.as_slice(), octets);
        self.held.clear();
        self.offset += 32;
        written
    }

    /// Writes the last part, if it has octets.
    pub(crate) fn write_held<O: Out>(&self, number: u64, out: &mut O) -> Result<(), OutFault>
        ensures { Writes result (O.log out.old) (O.log out.new)
            (held_text number self.now.offset self.now.held.items) }
    {
        if self.held.is_empty() {
            return Ok(());
        }
        rest_line(out, number, self.offset, self.held.as_slice())
    }
}
