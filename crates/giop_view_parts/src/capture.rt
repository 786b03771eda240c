//! What a capture tells about itself.

use crate::facts::NotedFault;
use giop_json_values::JsonText;
use giop_lines::{CaptureTotal, Statement};
use std::alloc::{AllocError, Global};

/// The totals of a capture and its fault, if their lines came.
#[derive(Drop)]
pub struct Capture {
    /// The totals, if their line came.
    pub total: Option<CaptureTotal>,
    /// The fault, if its line came.
    pub fault: NotedFault,
}

impl Capture {
    /// Makes one for a capture before its first line.
    pub fn new(alloc: Global) -> Capture {
        Capture {
            total: None,
            fault: NotedFault::new(alloc),
        }
    }

    /// Takes a line of a capture.
    pub fn take_statement(&mut self, said: Statement<'_>) -> Result<(), AllocError> {
        match said {
            Statement::CaptureTotal(total) => {
                self.total = Some(total);
                Ok(())
            }
            Statement::CaptureFault(fault) => self.fault.note_fault(fault),
            _ => Ok(()),
        }
    }

    /// Whether no line came.
    pub fn is_empty(&self) -> bool {
        self.total.is_none() && self.fault.is_none()
    }

    /// Writes the capture's object. If `says_cut` is true, it says whether the totals are missing.
    pub fn put_object(&self, text: &mut JsonText, says_cut: bool) -> Result<(), AllocError> {
        text.open(false)?;
        if let Some(total) = self.total {
            for (name, number) in named_totals(total) {
                text.number_member(name, number)?;
            }
            if let Some(other) = total.other {
                text.number_member("other", other)?;
            }
        }
        self.fault.put_member(text)?;
        text.true_member_if("cut", says_cut && self.total.is_none())?;
        text.close(false)
    }

    /// Appends the lines of the capture.
    pub fn put_lines(&self, text: &mut Vec<u8>) -> Result<(), AllocError> {
        if !self.fault.is_none() {
            text.extend_from_slice(b"capture fault ")?;
            text.extend_from_slice(&self.fault.word)?;
            put_name_and_number(text, "at", self.fault.place)?;
            text.push(b'\n')?;
        }
        let Some(total) = self.total else {
            return Ok(());
        };
        text.extend_from_slice(b"total")?;
        for (name, number) in named_totals(total) {
            put_name_and_number(text, name, number)?;
        }
        if let Some(other) = total.other {
            put_name_and_number(text, "other", other)?;
        }
        text.extend_from_slice(b"\n")
    }
}

/// The totals that every capture has, with their names.
fn named_totals(total: CaptureTotal) -> [(&'static str, u64); 5] {
    [
        ("streams", total.streams),
        ("messages", total.messages),
        ("faults", total.faults),
        ("packets", total.packets),
        ("octets", total.octets),
    ]
}

fn put_name_and_number(text: &mut Vec<u8>, name: &str, number: u64) -> Result<(), AllocError> {
    text.push(b' ')?;
    text.extend_from_slice(name.as_bytes())?;
    text.push(b' ')?;
    text.extend_from_slice(itoa::Buffer::new().format(number).as_bytes())
}
