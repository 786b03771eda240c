//! Whole members of an object.

use crate::text::JsonText;
use std::alloc::AllocError;

impl JsonText {
    /// Writes a member that is text, if the text is known: it isn't empty.
    pub fn text_member_if_known(&mut self, name: &str, octets: &[u8]) -> Result<(), AllocError> {
        if octets.is_empty() {
            return Ok(());
        }
        self.key(name)?;
        self.octets(octets)
    }

    /// Writes a member that is text, or null if the text isn't known.
    pub fn text_member_or_null(&mut self, name: &str, octets: &[u8]) -> Result<(), AllocError> {
        self.key(name)?;
        if octets.is_empty() {
            return self.null();
        }
        self.octets(octets)
    }

    /// Writes a member that is a number.
    pub fn number_member(&mut self, name: &str, number: u64) -> Result<(), AllocError> {
        self.key(name)?;
        self.unsigned(number)
    }

    /// Writes a member that is a number from 1, if the number is known: it isn't 0.
    pub fn number_member_if_known(&mut self, name: &str, number: u64) -> Result<(), AllocError> {
        if number == 0 {
            return Ok(());
        }
        self.number_member(name, number)
    }

    /// Writes a member that is a number, or null if there is none.
    pub fn number_member_or_null(
        &mut self,
        name: &str,
        number: Option<u64>,
    ) -> Result<(), AllocError> {
        self.key(name)?;
        match number {
            None => self.null(),
            Some(number) => self.unsigned(number),
        }
    }

    /// Writes a member that is true, if it is true.
    pub fn true_member_if(&mut self, name: &str, is_true: bool) -> Result<(), AllocError> {
        if !is_true {
            return Ok(());
        }
        self.key(name)?;
        self.boolean(true)
    }
}
