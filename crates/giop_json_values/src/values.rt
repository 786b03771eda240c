//! The values of a message, as members of its object.

ghost use Rattle.std.specs.Prelude.{◌≡◌, ◌↔◌, ◌++◌, [], None, IsOk, IsSome, IsTrue, IsFalse, OnOk, false};
ghost use Rattle.json.specs.Print.{print};
ghost use Rattle.giop_json_values.specs.TypeCodes.{IsParametersAfterLine, IsLeftOut, IsParametersAfterValue, is_encapsulation_head};

use crate::frames::{Frames, NameOrIndex, Shape};
use crate::options::{Characters, Options};
use crate::pieces::{ContentPiece, Form};
use crate::shown::ShownText;
use crate::text::{JsonText, utf8_or_empty};
use crate::type_codes::LastTypeCode;
use giop_lines::Value;
use std::alloc::{AllocError, Global};
use std::mem;
use std::num::{f32_from_bits_with_nan, f64_from_bits_with_nan};

/// The greatest room of a text, in octets, that is kept for the next text.
const ROOM_MAX: usize = 65_536;

/// The content whose next piece is due.
#[derive(Clone, Copy)]
struct DueContent {
    form: Form,
    offset: u64,
}

/// The values of a message, as a text that grows. Lines in any order give JSON.
#[derive(Drop)]
pub struct Values {
    text: JsonText,
    frames: Frames,
    due: Option<DueContent>,
    due_path: Vec<u8>,
    shown: ShownText,
    last_type: LastTypeCode,
    name: String,
}

impl Values {
    /// Makes a text without values.
    pub fn new(alloc: Global) -> Values
        ensures { result.last_type.parameters.items ≡ [] }
    {
        Values {
            text: JsonText::new(Vec::new(alloc)),
            frames: Frames::new(alloc),
            due: None,
            due_path: Vec::new(alloc),
            shown: ShownText::new(alloc),
            last_type: LastTypeCode::new(alloc),
            name: String::new(alloc),
        }
    }

    /// How many octets the text has until now.
    pub fn size(&self) -> u64 {
        let size = self.text.size();
        match self.due {
            None => size,
            Some(_) => size.saturating_add(self.shown.size()).saturating_add(1),
        }
    }

    /// Whether lines are missing: those of an element, or of the beginning of a content.
    pub fn lacks_lines(&self) -> bool {
        self.frames.lacks_lines()
    }

    /// Says whether lines are missing.
    pub fn set_lacks_lines(&mut self, lacks: bool) {
        self.frames.set_lacks_lines(lacks);
    }

    /// Closes all but the object of the message, and gives the text.
    pub fn close_values(&mut self) -> Result<&mut JsonText, AllocError> {
        self.end_content()?;
        self.frames.close_for_part(&mut self.text)?;
        Ok(&mut self.text)
    }

    /// Takes the text that was written, and goes on with an empty one.
    pub fn take_text(&mut self, alloc: Global) -> Vec<u8>
        ensures told { result.items ≡ self.old.text.before ++ print self.old.text.tokens }
        ensures left { self.new.text.tokens ≡ [] }
    {
        let text = mem::replace(&mut self.text, JsonText::new(Vec::new(alloc)));
        self.shown.clear();
        self.due = None;
        text.into_octets()
    }

    /// Gives back the room of a text.
    pub fn reuse_buffer(&mut self, room: Vec<u8>) {
        if room.capacity() <= ROOM_MAX && self.text.size() == 0 {
            self.text = JsonText::new(room);
        }
    }

    /// Forgets what is known of a message, before the next one.
    pub fn forget_message(&mut self)
        ensures { self.new.last_type.parameters.items ≡ [] }
    {
        self.last_type.forget_message();
        self.frames.clear();
    }

    /// Whether a line of a value is left out: it is a parameter of a TypeCode that is written only if the user chose it.
    #[inline]
    pub fn leaves_out(&self, options: Options, path: &[u8], value: Value<'_>) -> bool
        ensures { IsTrue result ↔ IsLeftOut options.has_types
            self.now.last_type.parameters.items path.now (is_encapsulation_head value.entry) }
    {
        self.last_type
            .leaves_out(options, path, is_encapsulation_head(value))
    }

    /// Takes a line of a value.
    #[inline]
    pub fn take_value(
        &mut self,
        options: Options,
        path: &[u8],
        value: Value<'_>,
    ) -> Result<(), AllocError>
        ensures left_out { self.old.due ≡ None
            → IsLeftOut options.has_types self.old.last_type.parameters.items path.now
            (is_encapsulation_head value.entry)
            → IsOk result × (self.new ≡ self.old) }
        ensures last { OnOk result (IsParametersAfterLine options.has_types
            self.old.last_type.parameters.items path.now value.entry
            self.new.last_type.parameters.items) }
    {
        if let Value::Piece(piece) = value {
            return self.take_piece(options, ContentPiece::of_value(path, piece));
        }
        self.end_content()?;
        if self.leaves_out(options, path, value) {
            return Ok(());
        }
        self.put_whole_value(options, path, value)
    }

    /// Takes a piece of what a message has after its body.
    pub fn take_after_body(&mut self, offset: u64, octets: &[u8]) -> Result<(), AllocError> {
        let options = Options {
            characters: Characters::Escapes,
            are_strings: false,
            has_types: true,
        };
        self.take_piece(options, ContentPiece::of_rest(offset, octets))
    }

    /// Writes a value that isn't a piece of a content.
    fn put_whole_value(
        &mut self,
        options: Options,
        path: &[u8],
        value: Value<'_>,
    ) -> Result<(), AllocError>
        ensures { OnOk result (IsParametersAfterValue self.old.last_type.parameters.items path.now
            value.entry self.new.last_type.parameters.items) }
    {
        let shape = match value {
            Value::Order(_) => return Ok(()),
            Value::Count(_) => Some(Shape::List),
            Value::Encapsulation(_) => Some(Shape::Encapsulation),
            _ => None,
        };
        if let Some(shape) = shape {
            let key = self.frames.enter_path(&mut self.text, path)?;
            return self.frames.open(&mut self.text, key, path, shape);
        }
        if let Value::Enum(name) = value {
            self.last_type.note_enum_name(path, name)?;
        }
        if path == b"body".as_slice() && !matches!(value, Value::Named(_, _)) {
            self.frames.open_body(&mut self.text)?;
        }
        let key = self.frames.enter_path(&mut self.text, path)?;
        self.frames.put_key(&mut self.text, key)?;
        match value {
            Value::Named(number, name) => self.put_named_number(key, number, name),
            Value::Char(octets) => self.put_char(options, octets),
            _ => put_scalar(&mut self.text, options, value),
        }
    }

    /// Writes a number, and its name as a member after it.
    fn put_named_number(
        &mut self,
        key: NameOrIndex<'_>,
        number: u32,
        name: &[u8],
    ) -> Result<(), AllocError>
        ensures { self.new.last_type ≡ self.old.last_type }
    {
        self.text.unsigned(u64::from(number))?;
        let NameOrIndex::Name(of_number) = key else {
            return Ok(());
        };
        self.name.clear();
        self.name.push_str(of_number)?;
        self.name.push_str("_name")?;
        self.text.key(&self.name)?;
        self.text.octets(name)
    }

    /// Writes a char as text.
    fn put_char(&mut self, options: Options, octets: &[u8]) -> Result<(), AllocError>
        ensures { self.new.last_type ≡ self.old.last_type }
    {
        self.shown.add_line_text(octets, options.characters)?;
        self.shown.end_text()?;
        self.text.string(self.shown.text())?;
        self.shown.clear();
        Ok(())
    }

    /// Takes a piece of a content, unless it is left out.
    fn take_piece(&mut self, options: Options, piece: ContentPiece<'_>) -> Result<(), AllocError>
        ensures left_out { self.old.due ≡ None
            → IsLeftOut options.has_types self.old.last_type.parameters.items piece.entry.path.now
            false
            → IsOk result × (self.new ≡ self.old) }
        ensures kept { self.new.last_type ≡ self.old.last_type }
    {
        if !self.continues_due_content(piece) {
            self.end_content()?;
            if self.last_type.leaves_out(options, piece.path, false) {
                return Ok(());
            }
            if piece.offset > 0 {
                self.frames.set_lacks_lines(true);
            }
            self.begin_content(piece)?;
            if !piece.more && options.characters == Characters::Escapes {
                return self.text.octets(piece.octets);
            }
            self.due_path.clear();
            self.due_path.extend_from_slice(piece.path)?;
        }
        self.add_piece(options, piece)
    }

    /// Adds a piece of a content. If it is the last piece, ends the content.
    fn add_piece(&mut self, options: Options, piece: ContentPiece<'_>) -> Result<(), AllocError>
        ensures more { IsTrue piece.entry.more → OnOk result (IsSome self.new.due) }
        ensures open { IsTrue piece.entry.more → self.new.text ≡ self.old.text }
        ensures last { IsFalse piece.entry.more → OnOk result (self.new.due ≡ None) }
        ensures kept { self.new.last_type ≡ self.old.last_type }
    {
        self.due = Some(DueContent {
            form: piece.form,
            offset: piece.next_offset(),
        });
        if piece.form == Form::Text && options.characters != Characters::Escapes {
            self.shown.add_line_text(piece.octets, options.characters)?;
        } else {
            self.shown.add_plain(utf8_or_empty(piece.octets))?;
        }
        if piece.more {
            Ok(())
        } else {
            self.end_content()
        }
    }

    /// Whether a piece goes on with the content whose next piece is due.
    fn continues_due_content(&self, piece: ContentPiece<'_>) -> bool
        ensures { self.now.due ≡ None → result ≡ false }
    {
        match self.due {
            None => false,
            Some(due) => {
                piece.offset > 0
                    && due.offset == piece.offset
                    && due.form == piece.form
                    && self.due_path.as_slice() == piece.path
            }
        }
    }

    /// Writes what comes before the text of a content.
    fn begin_content(&mut self, piece: ContentPiece<'_>) -> Result<(), AllocError>
        ensures { self.new.last_type ≡ self.old.last_type }
    {
        match piece.form {
            Form::Rest => {
                self.frames.reopen_if_closed(&mut self.text, b"")?;
                self.frames.close_inner(&mut self.text, 0)?;
                self.text.key("rest")
            }
            Form::Left => {
                self.frames
                    .enter_rest(&mut self.text, piece.path, piece.offset > 0)
            }
            Form::Text | Form::Hex => self.begin_string_or_hex(piece),
        }
    }

    /// Writes what comes before a string, or before octets in hexadecimal.
    fn begin_string_or_hex(&mut self, piece: ContentPiece<'_>) -> Result<(), AllocError>
        ensures { self.new.last_type ≡ self.old.last_type }
    {
        if piece.path == b"body".as_slice() {
            self.frames.open_body(&mut self.text)?;
        }
        let mut key = self.frames.enter_path(&mut self.text, piece.path)?;
        if piece.is_octets
            && let NameOrIndex::Name("context_data" | "profile_data") = key
        {
            self.frames
                .open(&mut self.text, key, piece.path, Shape::Object)?;
            key = NameOrIndex::Name("@octets");
        }
        self.frames.put_key(&mut self.text, key)
    }

    /// Ends the content whose pieces came, even if more pieces were due.
    #[inline]
    fn end_content(&mut self) -> Result<(), AllocError>
        ensures none { OnOk result (self.new.due ≡ None) }
        ensures same { self.old.due ≡ None → IsOk result × (self.new ≡ self.old) }
        ensures kept { self.new.last_type ≡ self.old.last_type }
    {
        if self.due.is_none() {
            return Ok(());
        }
        self.due = None;
        self.shown.end_text()?;
        self.text.string(self.shown.text())?;
        self.shown.clear();
        Ok(())
    }
}

/// Whether an encapsulation begins with this value.
fn is_encapsulation_head(value: Value<'_>) -> bool
    ensures { result ≡ is_encapsulation_head value.entry }
{
    matches!(value, Value::Encapsulation(_) | Value::Order(_))
}

/// Writes a value that is a single number, truth value or name.
fn put_scalar(text: &mut JsonText, options: Options, value: Value<'_>) -> Result<(), AllocError> {
    match value {
        Value::Octet(number) => text.unsigned(u64::from(number)),
        Value::Short(number) => text.signed(i64::from(number)),
        Value::UShort(number) => text.unsigned(u64::from(number)),
        Value::Long(number) => text.signed(i64::from(number)),
        Value::ULong(number) => text.unsigned(u64::from(number)),
        Value::LongLong(number) if options.are_strings => {
            text.string(itoa::Buffer::new().format(number))
        }
        Value::LongLong(number) => text.signed(number),
        Value::ULongLong(number) if options.are_strings => {
            text.string(itoa::Buffer::new().format(number))
        }
        Value::ULongLong(number) => text.unsigned(number),
        Value::Float(bits) => text.float(f32_from_bits_with_nan(bits)),
        Value::Double(bits) => text.float(f64_from_bits_with_nan(bits)),
        Value::Boolean(is_true) => text.boolean(is_true),
        Value::Enum(name) => text.octets(name),
        _ => text.null(),
    }
}
