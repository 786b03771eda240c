//! The interfaces of a signature file, and the interface of an object key.
ghost use Rattle.std.specs.Prelude.{◌≡◌, ℕ, List, ◌⊎◌, ◌<◌, ◌≤◌, ◌++◌, ◌∷◌, [], true, length, slice_index_or, position, IfErr, IfSome, OnOk, None};
ghost use Rattle.std.specs.List.{list_any};
ghost use Rattle.std.specs.Option.{option_map, is_some};
ghost use Rattle.std.specs.Str.{bytes_eq};
ghost use Rattle.giop_sig.specs.Table.{interface_id};
ghost use Rattle.giop_sig.specs.Interfaces.{no_interfaces, digit, hex, whole_text, front_text, is_digit, digits_of, is_key, number_of, with_interface, with_key, of_text, longest_front, of_key};

use crate::catalogue::Name;
use crate::parse_stop::ParseError;
use crate::types::InterfaceId;
use arrayvec::ArrayVec;
use indexmap::{IndexMap, IndexSet};
use std::alloc::Global;
use std::marker::Model;

/// How many octets an object key may have that has an interface.
const OBJECT_KEY_MAX: usize = 128;
/// How many octets a repository id may have.
const ID_MAX: usize = 128;
/// How many octets a key may have whose KEY has at most 128 octets. A front has fewer.
const WHOLE_MAX: usize = 64;
/// How many sizes the key of a KEY can have, in octets.
const SIZES: usize = 65;

/// The repository ids of the interfaces, and the KEYs. A contract sees the `Interfaces`.
#[derive(Drop)]
pub(crate) struct InterfaceTable {
    names: IndexSet<Name>,
    keys: IndexMap<Name, InterfaceId>,
    /// For each size in octets, whether there are fronts of it.
    sizes: [bool; SIZES],
}

impl Model for InterfaceTable {
    ghost use Rattle.giop_sig.specs.Interfaces.{Interfaces};
    ghost use Rattle.giop_sig.specs.InterfaceViews.{interfaces_view, AreInterfacesKept};

    ghost Value = { Interfaces };

    ghost view = { λ a. interfaces_view a.names.keys a.keys.entries };

    ghost invariant = { λ a. AreInterfacesKept a.sizes
        (interfaces_view a.names.keys a.keys.entries) };
}

/// A hexadecimal digit.
fn digit(n: u8) -> u8
    requires { n < 16 }
    ensures { result ≡ digit n }
{
    if n < 10 { b'0' + n } else { b'a' + (n - 10) }
}

/// Whether an octet is a hexadecimal digit in lower case.
fn is_digit(octet: u8) -> bool
    ensures { result ≡ is_digit octet }
{
    (octet >= b'0' && octet <= b'9') || (octet >= b'a' && octet <= b'f')
}

/// The digits of a KEY: all of it, or all but the last octet if that is `*`.
fn digits_of(text: &[u8]) -> &[u8]
    ensures { result.now ≡ digits_of text.now }
{
    if !text.is_empty() && text[text.len() - 1] == b'*' {
        &text[..text.len() - 1]
    } else {
        text
    }
}

/// Whether a text is spelled as a KEY is.
pub(crate) fn is_key(text: &[u8]) -> bool
    ensures { result ≡ is_key text.now }
{
    let digits = digits_of(text);
    digits.iter().all(|octet| is_digit(*octet)) && digits.len() % 2 == 0
}

/// Octets as hexadecimal digits.
fn hex(octets: &[u8]) -> Name
    requires { length octets.now ≤ 64 }
    ensures { result.items ≡ hex octets.now }
{
    let mut text = Name::new();
    for octet in octets {
        text.push(digit(*octet / 16));
        text.push(digit(*octet % 16));
    }
    text
}

impl InterfaceTable {
    /// No interface and no KEY.
    pub(crate) fn new(alloc: Global) -> InterfaceTable
        ensures { result ≡ no_interfaces }
    {
        InterfaceTable {
            names: IndexSet::new(alloc),
            keys: IndexMap::new(alloc),
            sizes: [false; SIZES],
        }
    }

    /// Whether there is an interface with this repository id.
    pub(crate) fn has(&self, id: &[u8]) -> bool
        requires { length id.now ≤ 128 }
        ensures { result ≡ list_any (bytes_eq id.now) self.now.names }
    {
        let key: Name = ArrayVec::try_from(id).unwrap();
        self.names.contains(&key)
    }

    /// The number of the interface with a repository id. If it is new, that is the next number.
    pub(crate) fn number_of(&self, id: &[u8]) -> u32
        requires { length id.now ≤ 128 }
        ensures { result ≡ number_of self.now id.now }
    {
        let key: Name = ArrayVec::try_from(id).unwrap();
        match self.names.get_index_of(&key) {
            Some(index) => index as u32,
            None => self.names.len() as u32,
        }
    }

    /// The interface with a repository id.
    pub(crate) fn named(&self, id: &[u8]) -> Option<InterfaceId>
        ensures is { result ≡ option_map interface_id (position (bytes_eq id.now) self.now.names) }
        ensures known { IfSome result (λ i. i.0 < length self.now.names) }
    {
        // They are read so that the prover knows what is true of each table of interfaces.
        let names = &self.names;
        if id.len() > ID_MAX {
            return None;
        }
        let key: Name = ArrayVec::try_from(id).unwrap();
        let index = names.get_index_of(&key)?;
        Some(InterfaceId(index as u32))
    }

    /// How many interfaces there are.
    pub(crate) fn len(&self) -> usize
        ensures { result ≡ length self.now.names }
    {
        self.names.len()
    }

    /// Whether there is this KEY.
    pub(crate) fn has_key(&self, text: &[u8]) -> bool
        requires { length text.now ≤ 128 }
        ensures { result ≡ is_some (of_text self.now text.now) }
    {
        let key: Name = ArrayVec::try_from(text).unwrap();
        self.keys.get(&key).is_some()
    }

    /// How many KEYs there are.
    pub(crate) fn keys_len(&self) -> usize
        ensures { result ≡ length self.now.keys }
    {
        self.keys.len()
    }

    /// The repository id of an interface.
    pub(crate) fn name(&self, interface: InterfaceId) -> &[u8]
        requires { interface.0 < length self.now.names }
        ensures is { result.now ≡ slice_index_or self.now.names interface.0 [] }
        ensures short { length result.now ≤ 128 }
    {
        match self.names.get_index(interface.0 as usize) {
            Some(name) => name,
            None => unreachable!(),
        }
    }

    /// Adds an interface, if it is new.
    pub(crate) fn add(&mut self, id: &[u8]) -> Result<(), ParseError>
        requires short { length id.now ≤ 128 }
        requires few { (list_any (bytes_eq id.now) self.old.names ≡ true)
            ⊎ (length self.old.names < 1024) }
        ensures added { OnOk result (self.new ≡ with_interface self.old id.now) }
        ensures many { length self.new.names ≤ 1024 }
        ensures err { IfErr result (λ stop. stop ≡ ParseError.Memory) }
    {
        let key: Name = ArrayVec::try_from(id).unwrap();
        self.names.insert_full(key)?;
        Ok(())
    }

    /// Adds a new KEY of an interface.
    pub(crate) fn add_key(&mut self, text: &[u8], id: &[u8]) -> Result<(), ParseError>
        requires short { length text.now ≤ 128 }
        requires new { of_text self.old text.now ≡ None }
        requires identity { length id.now ≤ 128 }
        requires few { (list_any (bytes_eq id.now) self.old.names ≡ true)
            ⊎ (length self.old.names < 1024) }
        ensures added { OnOk result (self.new ≡ with_key self.old text.now id.now) }
        ensures many { length self.new.names ≤ 1024 }
        ensures err { IfErr result (λ stop. stop ≡ ParseError.Memory) }
    {
        let interface = InterfaceId(self.number_of(id));
        self.add(id)?;
        self.put_key(text, interface)
    }

    /// Adds a new KEY of a known interface.
    fn put_key(&mut self, text: &[u8], interface: InterfaceId) -> Result<(), ParseError>
        requires short { length text.now ≤ 128 }
        requires new { of_text self.old text.now ≡ None }
        requires known { interface.0 < length self.old.names }
        ensures added { OnOk result (self.new ≡ record (self.old) {
          keys = self.old.keys ++ (text.now, interface.0) ∷ [];
        }) }
        ensures many { length self.new.names ≤ 1024 }
        ensures err { IfErr result (λ stop. stop ≡ ParseError.Memory) }
    {
        let key: Name = ArrayVec::try_from(text).unwrap();
        // The text of a front, which ends with *, has an odd length.
        self.sizes[text.len() / 2] |= text.len() % 2 == 1;
        self.keys.insert(key, interface)?;
        Ok(())
    }

    /// The interface of an object key is one of the table's. This function does nothing, and is
    /// called for its contract.
    #[inline(always)]
    pub(crate) fn laws(&self)
        ensures { (key : List ℕ) → IfSome (of_key self.now key) (λ i. i < length self.now.names) }
    {
        // They are read so that the prover knows what is true of each table of interfaces.
        let _keys = &self.keys;
    }

    /// The interface of a KEY.
    pub(crate) fn of_text(&self, text: &Name) -> Option<InterfaceId>
        ensures { option_map (λ i. i.0) result ≡ of_text self.now text.now.items }
    {
        Some(*self.keys.get(text)?)
    }

    /// The interface of the KEY with just this key.
    fn of_whole(&self, key: &[u8]) -> Option<InterfaceId>
        ensures { option_map (λ i. i.0) result ≡ of_text self.now (whole_text key.now) }
    {
        // They are read so that the prover knows what is true of each table of interfaces.
        let _keys = &self.keys;
        if key.len() > WHOLE_MAX {
            return None;
        }
        self.of_text(&hex(key))
    }

    /// The interface of the KEY for all keys that begin with these octets.
    fn of_front(&self, octets: &[u8]) -> Option<InterfaceId>
        ensures { option_map (λ i. i.0) result ≡ of_text self.now (front_text octets.now) }
    {
        // They are read so that the prover knows what is true of each table of interfaces.
        let _keys = &self.keys;
        if octets.len() >= WHOLE_MAX {
            return None;
        }
        if !self.sizes[octets.len()] {
            return None;
        }
        let mut text = hex(octets);
        text.push(b'*');
        self.of_text(&text)
    }

    /// The interface of the longest front of a key, if one has an interface.
    fn of_longest_front(&self, key: &[u8]) -> Option<InterfaceId>
        ensures { option_map (λ i. i.0) result ≡ longest_front self.now key.now (length key.now) }
    {
        let mut found = self.of_front(&[]);
        for size in 0..key.len() {
            found = self.of_front(&key[..size + 1]).or(found);
        }
        found
    }

    /// The interface of an object key.
    pub(crate) fn of_key(&self, key: &[u8]) -> Option<InterfaceId>
        ensures is { option_map (λ i. i.0) result ≡ of_key self.now key.now }
        ensures known { IfSome result (λ i. i.0 < length self.now.names) }
    {
        // They are read so that the prover knows what is true of each table of interfaces.
        let _keys = &self.keys;
        if self.keys_len() == 0 {
            return None;
        }
        if key.len() > OBJECT_KEY_MAX {
            return None;
        }
        match self.of_whole(key) {
            Some(interface) => Some(interface),
            None => self.of_longest_front(key),
        }
    }
}
