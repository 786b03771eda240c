//! The open objects and lists, by their paths.

ghost use Rattle.std.specs.Prelude.{◌≡◌, ◌++◌, [], if◌then◌else◌, map, take, drop, OnOk};
ghost use Rattle.giop_json_values.specs.Nesting.{is_list, closing_tokens};

use crate::text::{JsonText, utf8_or_empty};
use giop_lines::number;
use std::alloc::{AllocError, Global};

/// The greatest number of parts in a path, with its root.
const PARTS_MAX: usize = 25;

/// The greatest number of open objects and lists before a path is entered. With those that the path itself opens there are
/// at most 127.
const OPEN_MAX: usize = 96;

/// The place of a value in the innermost open object or list.
#[derive(Clone, Copy)]
pub(crate) enum NameOrIndex<'a> {
    Name(&'a str),
    Index(u64),
}

impl<'a> NameOrIndex<'a> {
    /// The key for a part of a path. The part is a root, or it has a dot before it or brackets around it.
    fn of_part(part: &'a [u8]) -> NameOrIndex<'a> {
        match part {
            [b'[', digits @ .., b']'] => NameOrIndex::Index(number(digits).unwrap_or(0)),
            [b'.', name @ ..] => NameOrIndex::Name(utf8_or_empty(name)),
            root => NameOrIndex::Name(utf8_or_empty(root)),
        }
    }

    /// The key for the value of an encapsulation.
    pub(crate) const VALUE: NameOrIndex<'static> = NameOrIndex::Name("@value");
}

/// What is open: a list, an object, or an encapsulation, whose value may be something other than an object.
#[derive(Clone, Copy, PartialEq, Eq)]
pub(crate) enum Shape {
    List,
    Object,
    Encapsulation,
}

/// An open object or list.
#[derive(Clone, Copy, Drop)]
struct Frame {
    // The length of its path, in octets. The path is the front of the innermost one's path.
    end: usize,
    shape: Shape,
    // Whether it is the value of the encapsulation around it. It has the same path then.
    is_value: bool,
    // Whether the rest of the encapsulation was written. Nothing of it comes after its rest.
    has_rest: bool,
    // The index of the next element of a list.
    next: u64,
}

impl Frame {
    fn is_list(&self) -> bool
        ensures { result ≡ is_list self.now.shape }
    {
        matches!(self.shape, Shape::List)
    }

    fn is_open_encapsulation(&self) -> bool {
        self.shape == Shape::Encapsulation && !self.has_rest
    }

    /// Whether a path may go on within this frame, if it begins with the frame's path.
    fn may_contain(&self, path: &[u8]) -> bool {
        match path.get(self.end) {
            None => true,
            Some(b'[') => { self.is_list() || self.shape == Shape::Encapsulation && !self.is_value }
            Some(b'.') => !self.is_list(),
            Some(_) => false,
        }
    }
}

/// The open objects and lists within the object of the message, the outermost first.
#[derive(Drop)]
pub(crate) struct Frames {
    // The path of the innermost one.
    path: Vec<u8>,
    open: Vec<Frame>,
    // Whether elements are missing.
    lacks: bool,
    // Whether all of them were closed at the end of a part. Those on the way to the next value are opened again then.
    is_closed: bool,
}

impl Frames {
    pub(crate) fn new(alloc: Global) -> Frames {
        Frames {
            path: Vec::new(alloc),
            open: Vec::new(alloc),
            lacks: false,
            is_closed: false,
        }
    }

    /// Forgets all: nothing is open, and nothing is missing.
    pub(crate) fn clear(&mut self) {
        self.path.clear();
        self.open.clear();
        self.lacks = false;
        self.is_closed = false;
    }

    /// Closes all of them at the end of a part.
    pub(crate) fn close_for_part(&mut self, text: &mut JsonText) -> Result<(), AllocError>
        ensures { OnOk result (text.new.tokens ≡ text.old.tokens ++ (if self.old.is_closed then []
            else closing_tokens (map (λ f. f.shape) self.old.open.items))) }
    {
        if !self.is_closed {
            close_all(text, &self.open)?;
        }
        self.is_closed = true;
        Ok(())
    }

    /// After the end of a part, opens those again that are on the way to a path.
    #[inline]
    pub(crate) fn reopen_if_closed(
        &mut self,
        text: &mut JsonText,
        path: &[u8],
    ) -> Result<(), AllocError> {
        if self.is_closed {
            self.reopen(text, path)
        } else {
            Ok(())
        }
    }

    fn reopen(&mut self, text: &mut JsonText, path: &[u8]) -> Result<(), AllocError> {
        self.is_closed = false;
        let (count, offset) = self.open_on_way(path);
        self.open.truncate(count);
        self.path.truncate(offset);
        let mut start = 0;
        let mut is_element = false;
        for frame in &self.open {
            if !is_element {
                let part = self
                    .path
                    .as_slice()
                    .get(start..frame.end)
                    .unwrap_or_default();
                match NameOrIndex::of_part(part) {
                    NameOrIndex::Name(name) if !frame.is_value => text.key(name)?,
                    _ => text.key("@value")?,
                }
            }
            text.open(frame.is_list())?;
            start = frame.end;
            is_element = frame.is_list();
        }
        Ok(())
    }

    pub(crate) fn lacks_lines(&self) -> bool {
        self.lacks
    }

    pub(crate) fn set_lacks_lines(&mut self, lacks: bool) {
        self.lacks = lacks;
    }

    /// How many of the open ones are on the way to a path, and how many octets of the path they have.
    fn open_on_way(&self, path: &[u8]) -> (usize, usize) {
        let common = common_front_len(&self.path, path);
        let mut offset = 0;
        for (count, frame) in self.open.iter().enumerate() {
            if frame.end > common || !frame.may_contain(path) {
                return (count, offset);
            }
            offset = frame.end;
        }
        (self.open.len(), offset)
    }

    /// Closes all but the outermost `count` of them.
    pub(crate) fn close_inner(
        &mut self,
        text: &mut JsonText,
        count: usize,
    ) -> Result<(), AllocError>
        ensures closed { OnOk result (text.new.tokens ≡ text.old.tokens
            ++ closing_tokens (map (λ f. f.shape) (drop count self.old.open.items))) }
        ensures open { OnOk result (self.new.open.items ≡ take count self.old.open.items) }
    {
        if count < self.open.len() {
            close_all(text, &self.open[count..])?;
            self.open.truncate(count);
        }
        let end = self.open.last().map_or(0, |frame| frame.end);
        self.path.truncate(end);
        Ok(())
    }

    /// Writes what comes before a value: its name. An element has none.
    #[inline]
    pub(crate) fn put_key(
        &mut self,
        text: &mut JsonText,
        key: NameOrIndex<'_>,
    ) -> Result<(), AllocError> {
        if let Some(frame) = self.open.last_mut()
            && frame.shape == Shape::List
        {
            if let NameOrIndex::Index(index) = key {
                self.lacks |= index != frame.next;
                frame.next = index.saturating_add(1);
            }
            return Ok(());
        }
        match key {
            NameOrIndex::Name(name) => text.key(name),
            NameOrIndex::Index(index) => text.key(itoa::Buffer::new().format(index)),
        }
    }

    /// Opens an object or list at a path. The path begins with the path of the innermost open one.
    pub(crate) fn open(
        &mut self,
        text: &mut JsonText,
        key: NameOrIndex<'_>,
        path: &[u8],
        shape: Shape,
    ) -> Result<(), AllocError> {
        self.put_key(text, key)?;
        let start = self.path.len();
        text.open(shape == Shape::List)?;
        if start < path.len() {
            self.path.extend_from_slice(&path[start..])?;
        }
        self.open.push(Frame {
            end: self.path.len(),
            shape,
            is_value: path.len() <= start,
            has_rest: false,
            next: 0,
        })?;
        Ok(())
    }

    /// Before a value at a path comes: closes what the path isn't in, and opens what is new on the way.
    #[inline]
    pub(crate) fn enter_path<'p>(
        &mut self,
        text: &mut JsonText,
        path: &'p [u8],
    ) -> Result<NameOrIndex<'p>, AllocError> {
        self.reopen_if_closed(text, path)?;
        let (count, offset) = self.open_on_way(path);
        if offset >= path.len() {
            return self.enter_open_path(text, path, count);
        }
        if count > OPEN_MAX {
            self.close_inner(text, 0)?;
            return self.open_to_last_part(text, path, 0);
        }
        self.close_inner(text, count)?;
        let is_list = self.open.last().is_some_and(|frame| frame.is_list());
        if path[offset] == b'[' && !is_list {
            self.open(text, NameOrIndex::VALUE, &path[..offset], Shape::List)?;
        }
        self.open_to_last_part(text, path, offset)
    }

    /// The key of a value that has the same path as an open object: it is the value of an encapsulation, or comes after
    /// what was written of the path before.
    fn enter_open_path<'p>(
        &mut self,
        text: &mut JsonText,
        path: &'p [u8],
        count: usize,
    ) -> Result<NameOrIndex<'p>, AllocError> {
        if count > 0
            && count <= OPEN_MAX
            && self
                .open
                .get(count - 1)
                .is_some_and(|frame| frame.is_open_encapsulation())
        {
            self.close_inner(text, count)?;
            return Ok(NameOrIndex::VALUE);
        }
        let outer = self.count_around(count);
        self.close_inner(text, outer)?;
        Ok(last_key(path))
    }

    /// How many objects and lists are open around the value that the frame of this number, from 1, is the innermost part
    /// of.
    fn count_around(&self, frame_number: usize) -> usize {
        let mut outer = frame_number;
        for _ in 0..frame_number {
            if outer == 0 {
                return 0;
            }
            outer -= 1;
            if !self.open.get(outer).is_some_and(|frame| frame.is_value) {
                break;
            }
        }
        outer
    }

    /// Opens the objects and lists on the way from an octet of a path to the path's last part.
    fn open_to_last_part<'p>(
        &mut self,
        text: &mut JsonText,
        path: &'p [u8],
        offset: usize,
    ) -> Result<NameOrIndex<'p>, AllocError> {
        let mut start = offset;
        for _ in 0..PARTS_MAX {
            let end = part_end(path, start);
            let key = NameOrIndex::of_part(path.get(start..end).unwrap_or_default());
            let shape = match path.get(end) {
                None => return Ok(key),
                Some(b'[') => Shape::List,
                Some(_) => Shape::Object,
            };
            self.open(text, key, &path[..end], shape)?;
            start = end;
        }
        Ok(last_key(path))
    }

    /// Opens the encapsulation whose rest comes. If the rest goes on in a new part, it is the one where it began; else it
    /// is the innermost open one at the path, or one that is missing.
    pub(crate) fn enter_rest(
        &mut self,
        text: &mut JsonText,
        path: &[u8],
        is_begun: bool,
    ) -> Result<(), AllocError> {
        let goes_on = self.is_closed && is_begun;
        self.reopen_if_closed(text, path)?;
        let (count, offset) = self.open_on_way(path);
        let found = match offset < path.len() {
            true => 0,
            false if goes_on => count,
            false => self.encapsulation_without_rest(count),
        };
        if found > 0 {
            self.close_inner(text, found)?;
        } else {
            self.lacks = true;
            let key = self.enter_path(text, path)?;
            self.open(text, key, path, Shape::Encapsulation)?;
        }
        if let Some(frame) = self.open.last_mut() {
            frame.has_rest = true;
        }
        self.put_key(text, NameOrIndex::Name("@rest"))
    }

    /// Among the encapsulations that share the path of this frame and have no rest yet, the number of the innermost one,
    /// from 1; 0 if there is none.
    fn encapsulation_without_rest(&self, frame_number: usize) -> usize {
        let mut found = frame_number;
        for _ in 0..frame_number {
            if found == 0 {
                return 0;
            }
            let Some(frame) = self.open.get(found - 1) else {
                return 0;
            };
            if frame.is_open_encapsulation() {
                return found;
            }
            if !frame.is_value {
                return 0;
            }
            found -= 1;
        }
        0
    }

    /// Opens the body of a message around a value that isn't a struct.
    pub(crate) fn open_body(&mut self, text: &mut JsonText) -> Result<(), AllocError> {
        self.reopen_if_closed(text, b"body")?;
        let is_open = self.path.starts_with(b"body") && !self.open.is_empty();
        if !is_open {
            self.close_inner(text, 0)?;
            self.open(
                text,
                NameOrIndex::Name("body"),
                b"body",
                Shape::Encapsulation,
            )?;
        }
        Ok(())
    }
}

/// Closes these frames, the last one first.
fn close_all(text: &mut JsonText, frames: &[Frame]) -> Result<(), AllocError>
    ensures { OnOk result (text.new.tokens ≡ text.old.tokens
        ++ closing_tokens (map (λ f. f.shape) frames.now)) }
{
    for closed in 0..frames.len() {
        text.close(frames[frames.len() - 1 - closed].is_list())?;
    }
    Ok(())
}

/// How many octets two paths have in common at their front.
fn common_front_len(left: &[u8], right: &[u8]) -> usize {
    if right.starts_with(left) {
        return left.len();
    }
    for (place, (one, other)) in left.iter().zip(right).enumerate() {
        if one != other {
            return place;
        }
    }
    left.len().min(right.len())
}

/// The index at which a part of a path ends, if the part begins at this index.
fn part_end(path: &[u8], start: usize) -> usize {
    let first = start.saturating_add(1);
    let behind = path.get(first..).unwrap_or_default();
    match behind
        .iter()
        .position(|octet| *octet == b'.' || *octet == b'[')
    {
        None => path.len(),
        Some(place) => first + place,
    }
}

/// The last part of a path.
fn last_key(path: &[u8]) -> NameOrIndex<'_> {
    let mut start = 0;
    for _ in 0..PARTS_MAX {
        let end = part_end(path, start);
        if end == path.len() {
            break;
        }
        start = end;
    }
    NameOrIndex::of_part(path.get(start..).unwrap_or_default())
}
