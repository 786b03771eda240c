//! The last TypeCode. It decides which lines are left out (docs/FORMATS.md, JSON).

ghost use Rattle.std.specs.Prelude.{◌≡◌, ◌↔◌, [], IsTrue, OnOk};
ghost use Rattle.giop_json_values.specs.TypeCodes.{IsParametersAfterEnum, IsLeftOut, is_left_out_parameter};

use crate::options::Options;
use std::alloc::{AllocError, Global};

/// The TypeCode whose kind came last.
#[derive(Drop)]
pub(crate) struct LastTypeCode {
    // The path of its parameters. It is empty if no TypeCode came.
    parameters: Vec<u8>,
}

impl LastTypeCode {
    /// Makes one for when no TypeCode came.
    pub(crate) fn new(alloc: Global) -> LastTypeCode
        ensures { result.parameters.items ≡ [] }
    {
        LastTypeCode {
            parameters: Vec::new(alloc),
        }
    }

    /// Forgets the TypeCode, before the next message.
    pub(crate) fn forget_message(&mut self)
        ensures { self.new.parameters.items ≡ [] }
    {
        self.parameters.clear();
    }

    /// Takes the name of an enum's value at a path. It may be the kind of a TypeCode.
    pub(crate) fn note_enum_name(&mut self, path: &[u8], word: &[u8]) -> Result<(), AllocError>
        ensures { OnOk result (IsParametersAfterEnum self.old.parameters.items path.now word.now
            self.new.parameters.items) }
    {
        if !word.starts_with(b"tk_") {
            return Ok(());
        }
        let Some(of_type) = path.strip_suffix(b".kind") else {
            return Ok(());
        };
        self.parameters.clear();
        self.parameters.extend_from_slice(of_type)?;
        self.parameters.extend_from_slice(b".parameters")
    }

    /// Whether a value at a path is a parameter of the last TypeCode that is written only if the user chose it. `is_head`
    /// tells whether an encapsulation begins with the value.
    pub(crate) fn leaves_out(&self, options: Options, path: &[u8], is_head: bool) -> bool
        ensures { IsTrue result
            ↔ IsLeftOut options.has_types self.now.parameters.items path.now is_head }
    {
        if options.has_types || self.parameters.is_empty() {
            return false;
        }
        match path.strip_prefix(self.parameters.as_slice()) {
            None => false,
            Some(below) => is_left_out_parameter(below, is_head),
        }
    }
}

/// Whether a value is left out whose path goes on like this after the path of the parameters.
fn is_left_out_parameter(below: &[u8], is_head: bool) -> bool
    ensures { result ≡ is_left_out_parameter below.now is_head }
{
    match below {
        [] => !is_head,
        [b'.' | b'[', ..] => below != b".id".as_slice() && below != b".name".as_slice(),
        _ => false,
    }
}
