//! The types of a catalogue as they are kept: an entry for each, with its depth.
ghost use Rattle.std.specs.Prelude.{◌≡◌, ℕ, ◌+◌, ◌^◌, ◌<◌, ◌≤◌, ◌++◌, ◌∷◌, [], length, map, Some, IfOk, OnOk, OnErr, max};
ghost use Rattle.std.specs.Option.{option_map};
ghost use Rattle.giop_sig.specs.Types.{most, HasIndex, HasMember, IsUnion};
ghost use Rattle.giop_sig.specs.Heard.{has_count, is_sequence_of, typecode_kind, inferred_by_id_kind};
ghost use Rattle.giop_sig.specs.Hearings.{signal_of};
ghost use Rattle.giop_sig.specs.Table.{takes_octet, node_in, IsFormed, shape_of, part_at, type_of, name_of, name_at, switch_at, selected};
ghost use Rattle.giop_sig.specs.Trees.{node_in_room, depth_in, depth_of, node_depth, part_depth, any_below, has_wide_text, node_has_wide_text, part_has_wide_text, AreFormed};
ghost use Rattle.giop_sig.specs.UnionCases.{part_view};
ghost use Rattle.giop_sig.specs.Settling.{declared_type_id_at, resolved_entry};
ghost use Rattle.giop_sig.specs.ScopeViews.{number_of_id};
ghost use Rattle.giop_sig.specs.Scopes.{resolved_node};

use crate::cases::UnionCases;
use crate::fronts::{ENUM_KIND, STRUCT_KIND, UNION_KIND};
use crate::kinds::kind_word;
use crate::numbers::OCTETS;
use crate::part_name::PartName;
use crate::types::{Selected, Shape, Signal, TypeId};
use giop_cdr::{Number, Prim};
use std::alloc::{AllocError, Global};
use std::marker::Model;

/// A member of a struct, or a case of a union.
#[derive(Drop)]
pub(crate) struct PartEntry {
    pub(crate) name: PartName,
    pub(crate) type_id: TypeId,
}

/// A case of a union, with the labels that select it.
#[derive(Drop)]
pub(crate) struct CaseEntry {
    pub(crate) labels: Vec<Number>,
    pub(crate) part: PartEntry,
}

/// A tagged type, such as a service context or a profile: a tag, and then an encapsulation or
/// octets.
#[derive(Drop)]
pub(crate) struct TagEntry {
    /// The tag that comes before an encapsulation.
    pub(crate) special: u32,
    /// The tag, as a member.
    pub(crate) tag: PartEntry,
    /// The encapsulation after the tag `special`.
    pub(crate) inner: PartEntry,
    /// The octets after any other tag.
    pub(crate) other: PartEntry,
}

impl TagEntry {
    ghost use Rattle.giop_sig.specs.Views.{tag_view};

    /// The part at an index: 0 is the tag, 1 the encapsulation, and 2 the octets after any other
    /// tag.
    fn part(&self, index: u32) -> &PartEntry
        requires { index < 3 }
        ensures { part_at (tag_view self.now) index ≡ Some (part_view result.now) }
    {
        match index {
            0 => &self.tag,
            1 => &self.inner,
            2 => &self.other,
            _ => unreachable!(),
        }
    }

    /// What comes after a tag of this number: the encapsulation or the octets.
    fn select(&self, number: Number) -> Selected
        ensures { result ≡ selected (tag_view self.now) number }
    {
        if Number::Unsigned(u64::from(self.special)) == number {
            Selected::Case(1)
        } else {
            Selected::Case(2)
        }
    }
}

/// A type, with the numbers of its parts.
#[derive(Drop)]
pub(crate) enum Entry {
    /// A primitive type.
    Prim(Prim),
    /// The names of an enum.
    Enumeration(Vec<Vec<u8>>),
    /// A string, perhaps with a bound.
    Text(Option<u32>),
    /// A sequence of octets, perhaps with a bound.
    Octets(Option<u32>),
    /// A wide string.
    WideText,
    /// A wide character.
    WideChar,
    /// A struct.
    Members(Vec<PartEntry>),
    /// A union: the type of its discriminator, its cases, and what is selected if no label is the
    /// number.
    Union(TypeId, UnionCases, Selected),
    /// A sequence, perhaps with a bound, and the type of its elements.
    Sequence(Option<u32>, TypeId),
    /// An array: how many elements it has, and their type.
    Array(u32, TypeId),
    /// Octets with a byte order of their own, which hold a value.
    Encapsulation(TypeId),
    /// A tag, and an encapsulation or octets after it.
    Tagged(TagEntry),
    /// A number of four octets with a mark.
    Marked(u32),
    /// An any: the type of the TypeCode that tells the type of its value.
    Any(TypeId),
    /// A TypeCode.
    TypeCode(TypeCodeEntry),
    /// A struct or union that is announced, with its index among these. No type has it as a part.
    Announced(u32),
    /// A sequence, perhaps with a bound, whose elements have a type that was announced. It has the
    /// number of that type; until the file ends, it has the index of the announcement.
    Recursive(Option<u32>, TypeId),
}

/// A TypeCode: its kind, and what comes after each kind.
#[derive(Drop)]
pub(crate) struct TypeCodeEntry {
    /// A part whose type has this number or a greater one needs `WIDE_ROOM`. In less room it is
    /// octets.
    pub(crate) wide: TypeId,
    /// The type of the kind.
    pub(crate) kind: TypeId,
    pub(crate) cases: UnionCases,
}

/// How much room the parameters of a TypeCode need.
const WIDE_ROOM: u8 = 7;

impl TypeCodeEntry {
    ghost use Rattle.giop_sig.specs.Views.{code_view};

    /// The type of the case at an index, if there is little room.
    fn narrow_part(&self, index: u32) -> TypeId
        requires { index < length self.now.cases }
        ensures { result.0 ≡ type_of (part_at (code_view self.now) index) }
    {
        let part = self.cases.part(index).type_id;
        if part.0 < self.wide.0 {
            part
        } else {
            TypeId(OCTETS)
        }
    }

    /// The type of the case at an index, if it has this room.
    fn part_in(&self, index: u32, room: u8) -> TypeId
        requires { index < length self.now.cases }
        ensures { result.0 ≡ type_of (part_at (node_in_room room (code_view self.now)) index) }
    {
        if room < WIDE_ROOM {
            self.narrow_part(index)
        } else {
            self.cases.part(index).type_id
        }
    }
}

impl Entry {
    ghost use Rattle.giop_sig.specs.Views.{node_view, HasCountableParts};

    /// The outermost form of the type.
    #[inline(always)]
    pub(crate) fn shape(&self) -> Shape
        requires { HasCountableParts self.now }
        ensures { result ≡ shape_of (node_view self.now) }
    {
        match self {
            Entry::Prim(p) => Shape::Prim(*p),
            Entry::Enumeration(names) => Shape::Enumeration(names.len() as u32),
            Entry::Text(bound) => Shape::Text(*bound),
            Entry::Octets(bound) => Shape::Octets(*bound),
            Entry::WideText => Shape::WideText,
            Entry::WideChar => Shape::WideChar,
            Entry::Members(parts) => Shape::Members(parts.len() as u32),
            Entry::Union(_, cases, _) => Shape::Union(cases.len()),
            Entry::Sequence(bound, _) => Shape::Sequence(*bound),
            Entry::Array(count, _) => Shape::Array(*count),
            Entry::Encapsulation(_) => Shape::Encapsulation,
            Entry::Tagged(_) => Shape::Tagged,
            Entry::Marked(mark) => Shape::Marked(*mark),
            Entry::Any(_) => Shape::Led,
            Entry::TypeCode(code) => Shape::Union(code.cases.len()),
            Entry::Announced(_) => Shape::Members(0),
            Entry::Recursive(bound, _) => Shape::Recursive(*bound),
        }
    }

    /// The type of the part at an index. An element and the value in an encapsulation are at each
    /// index.
    #[inline(always)]
    pub(crate) fn part(&self, index: u32) -> TypeId
        requires { HasIndex (shape_of (node_view self.now)) index }
        ensures { result.0 ≡ type_of (part_at (node_view self.now) index) }
    {
        match self {
            Entry::Members(parts) => parts[index as usize].type_id,
            Entry::Union(_, cases, _) => cases.part(index).type_id,
            Entry::Sequence(_, element) => *element,
            Entry::Recursive(_, element) => *element,
            Entry::Array(_, element) => *element,
            Entry::Encapsulation(held) => *held,
            Entry::Tagged(tagged) => tagged.part(index).type_id,
            Entry::Any(code) => { if index == 0 { *code } else { TypeId(index - 1) } }
            Entry::TypeCode(code) => code.narrow_part(index),
            _ => unreachable!(),
        }
    }

    /// The type of the part at an index, if it has this room.
    pub(crate) fn part_in(&self, index: u32, room: u8) -> TypeId
        requires { HasIndex (shape_of (node_view self.now)) index }
        ensures { result.0 ≡ type_of (part_at (node_in_room room (node_view self.now)) index) }
    {
        match self {
            Entry::TypeCode(code) => code.part_in(index, room),
            _ => self.part(index),
        }
    }

    /// What a repository id of the type tells after the octet of a kind.
    pub(crate) fn inferred_by_id_kind(&self, kind: u8, t: TypeId) -> Signal
        ensures { result ≡ signal_of (inferred_by_id_kind kind t.0 (node_view self.now)) }
    {
        match self {
            Entry::Members(_) if kind == STRUCT_KIND => Signal::Offers(t.0),
            Entry::Union(_, _, _) if kind == UNION_KIND => Signal::Is(t.0),
            Entry::Enumeration(_) if kind == ENUM_KIND => Signal::Offers(t.0),
            _ => Signal::Unknown,
        }
    }

    /// The kind of the type, if it is a struct, a union or an enum.
    pub(crate) fn typecode_kind(&self) -> u8
        ensures { result ≡ typecode_kind (node_view self.now) }
    {
        match self {
            Entry::Union(_, _, _) => UNION_KIND,
            Entry::Enumeration(_) => ENUM_KIND,
            _ => STRUCT_KIND,
        }
    }

    /// Whether the type is a struct with this many members, or an enum with this many names.
    pub(crate) fn has_count(&self, count: u32) -> bool
        ensures { result ≡ has_count count (node_view self.now) }
    {
        match self {
            Entry::Members(parts) => parts.len() == count as usize,
            Entry::Enumeration(names) => names.len() == count as usize,
            _ => false,
        }
    }

    /// Whether the type is the sequence of this element without a bound.
    pub(crate) fn is_sequence_of(&self, element: TypeId) -> bool
        ensures { result ≡ is_sequence_of element.0 (node_view self.now) }
    {
        match self {
            Entry::Sequence(None, held) => held.0 == element.0,
            _ => false,
        }
    }

    /// Whether a value of the type takes an octet.
    pub(crate) fn takes_octet(&self) -> bool
        ensures { result ≡ takes_octet (node_view self.now) }
    {
        match self {
            Entry::Members(parts) => !parts.is_empty(),
            Entry::Announced(_) => false,
            _ => true,
        }
    }

    /// The name at an index: of a member, a case, or a part of a tagged type.
    #[inline(always)]
    pub(crate) fn part_name(&self, index: u32) -> &PartName
        requires { HasMember (shape_of (node_view self.now)) index }
        ensures { result.now ≡ name_of (part_at (node_view self.now) index) }
    {
        match self {
            Entry::Members(parts) => &parts[index as usize].name,
            Entry::Union(_, cases, _) => &cases.part(index).name,
            Entry::Tagged(tagged) => &tagged.part(index).name,
            Entry::TypeCode(code) => &code.cases.part(index).name,
            _ => unreachable!(),
        }
    }

    /// The name of an enum's number, or of a kind.
    pub(crate) fn enum_name(&self, number: u32) -> Option<&[u8]>
        ensures { option_map (λ x. x.now) result ≡ name_at (node_view self.now) number }
    {
        match self {
            Entry::Enumeration(names) => match names.get(number as usize) {
                Some(name) => Some(name.as_slice()),
                None => None,
            },
            Entry::Marked(mark) => kind_word(*mark, number),
            _ => None,
        }
    }

    /// The type of a union's discriminator, or of a tagged type's tag.
    pub(crate) fn switch_type(&self) -> TypeId
        requires { IsUnion (shape_of (node_view self.now)) }
        ensures { result.0 ≡ switch_at (node_view self.now) }
    {
        match self {
            Entry::Union(switch, _, _) => *switch,
            Entry::Tagged(tagged) => tagged.tag.type_id,
            Entry::TypeCode(code) => code.kind,
            _ => unreachable!(),
        }
    }

    /// What the value of a discriminator or a tag selects.
    pub(crate) fn select(&self, number: Number) -> Selected
        requires { HasCountableParts self.now }
        ensures { result ≡ selected (node_view self.now) number }
    {
        match self {
            Entry::Union(_, cases, otherwise) => match cases.find(number) {
                Some(index) => Selected::Case(index),
                None => *otherwise,
            },
            Entry::Tagged(tagged) => tagged.select(number),
            Entry::TypeCode(code) => match code.cases.find(number) {
                Some(index) => Selected::Case(index),
                None => Selected::Nothing,
            },
            _ => Selected::Nothing,
        }
    }
}

/// An entry, the depth of its type, and whether the type has wide text.
#[derive(Drop)]
pub(crate) struct EntryWithDepth {
    pub(crate) entry: Entry,
    pub(crate) depth: u32,
    pub(crate) wide: bool,
}

/// Types, numbered by their indices. A part has a smaller number than the type that has it, apart
/// from the elements of a recursive sequence and the value of an any.
#[derive(Drop)]
pub(crate) struct Types {
    placed: Vec<EntryWithDepth>,
    deepest: u32,
}

impl Model for Types {
    ghost use Rattle.std.specs.Prelude.{List};
    ghost use Rattle.giop_sig.specs.Table.{Node};
    ghost use Rattle.giop_sig.specs.Views.{nodes_view, AreDepthsKept};

    ghost Value = { List Node };

    ghost view = { λ a. nodes_view a.placed.items };

    ghost invariant = { λ a. AreDepthsKept a.placed.items a.deepest };
}

/// The type that was declared for the announcement at an index.
fn declared_type_id_at(targets: &[Option<TypeId>], index: TypeId) -> TypeId
    ensures { result ≡ declared_type_id_at targets.now index }
{
    match targets.get(index.0 as usize) {
        Some(Some(t)) => *t,
        _ => TypeId(0),
    }
}

/// Gives a recursive sequence the type that was declared for its announcement.
fn resolve_entry(placed: &mut EntryWithDepth, targets: &[Option<TypeId>])
    ensures { placed.new ≡ resolved_entry targets.now placed.old }
{
    if let Entry::Recursive(_, element) = &mut placed.entry {
        *element = declared_type_id_at(targets, *element);
    }
}

/// Gives each recursive sequence of a list its type.
fn resolve_entries(placed: &mut Vec<EntryWithDepth>, targets: &[Option<TypeId>])
    ensures { placed.new.items ≡ map (resolved_entry targets.now) placed.old.items }
{
    for one in placed.iter_mut() {
        resolve_entry(one, targets);
    }
}

impl Types {
    ghost use Rattle.giop_sig.specs.Views.{node_view, nodes_view, HasCountableParts};

    /// No types.
    pub(crate) fn new(alloc: Global) -> Types
        ensures { result ≡ [] }
    {
        Types {
            placed: Vec::new(alloc),
            deepest: 0,
        }
    }

    /// What is true of each list of types. This function does nothing, and is called for its
    /// contract.
    pub(crate) fn laws(&self)
        ensures { AreFormed self.now }
    {
        // They are read so that the prover knows what is true of each entry.
        let _placed = &self.placed;
    }

    /// How many types there are.
    pub(crate) fn len(&self) -> u32
        ensures { result ≡ length self.now }
    {
        self.placed.len() as u32
    }

    /// The entries. The index of each is the number of its type.
    #[inline(always)]
    pub(crate) fn entries(&self) -> &[EntryWithDepth]
        ensures { nodes_view result.now ≡ self.now }
    {
        self.placed.as_slice()
    }

    /// The entry of a type.
    pub(crate) fn entry(&self, t: TypeId) -> &Entry
        requires { t.0 < length self.now }
        ensures node { node_view result.now ≡ node_in self.now t.0 }
        ensures formed { IsFormed self.now t.0 (node_view result.now) }
        ensures sized { HasCountableParts result.now }
    {
        &self.placed[t.0 as usize].entry
    }

    /// The depth of a type.
    pub(crate) fn depth_at(&self, t: TypeId) -> u32
        requires { t.0 < length self.now }
        ensures depth { result ≡ depth_in self.now t.0 }
        ensures small { result ≤ length self.now }
    {
        self.placed[t.0 as usize].depth
    }

    /// Whether a type has wide text.
    pub(crate) fn has_wide_text(&self, t: TypeId) -> bool
        requires { t.0 < length self.now }
        ensures { result ≡ has_wide_text self.now t.0 }
    {
        self.placed[t.0 as usize].wide
    }

    /// The greatest depth of a type; 0 if there are no types.
    pub(crate) fn deepest(&self) -> u32
        ensures { result ≡ depth_of self.now }
    {
        self.deepest
    }

    /// The depth that the type of an entry would have: 1 for a leaf, 2 for a recursive sequence,
    /// and for any other 1 more than its deepest part.
    fn entry_depth(&self, entry: &Entry) -> u32
        requires formed { IsFormed self.now (length self.now) (node_view entry.now) }
        requires few { length self.now + 1 < 2 ^ 32 }
        ensures { result ≡ node_depth self.now (node_view entry.now) }
    {
        match entry.shape() {
            Shape::Prim(_) => 1,
            Shape::Enumeration(_) => 1,
            Shape::Text(_) => 1,
            Shape::Octets(_) => 1,
            Shape::WideText => 1,
            Shape::WideChar => 1,
            Shape::Members(count) => 1 + self.deepest_part(entry, count),
            Shape::Union(count) => 1 + self.deepest_part(entry, count).max(1),
            Shape::Sequence(_) => 1 + self.depth_at(entry.part(0)),
            Shape::Array(_) => 1 + self.depth_at(entry.part(0)),
            Shape::Encapsulation => 1 + self.depth_at(entry.part(0)),
            Shape::Tagged => 1 + self.deepest_part(entry, 3).max(1),
            Shape::Marked(_) => 1,
            Shape::Led => 1 + self.depth_at(entry.part(0)),
            Shape::Recursive(_) => 2,
        }
    }

    /// The depth of the deepest of an entry's first `count` parts; 0 if there are none.
    fn deepest_part(&self, entry: &Entry, count: u32) -> u32
        requires index { (i : ℕ) → i < count → HasIndex (shape_of (node_view entry.now)) i }
        requires below { (i : ℕ) → i < count
            → type_of (part_at (node_view entry.now) i) < length self.now }
        ensures depth { result ≡ most count (part_depth self.now (node_view entry.now)) }
        ensures small { result ≤ length self.now }
    {
        let mut deepest = 0;
        for index in 0..count {
            deepest = self.depth_at(entry.part(index)).max(deepest);
        }
        deepest
    }

    /// Whether the type of an entry would have wide text.
    fn entry_has_wide_text(&self, entry: &Entry) -> bool
        requires formed { IsFormed self.now (length self.now) (node_view entry.now) }
        ensures { result ≡ node_has_wide_text self.now (node_view entry.now) }
    {
        match entry.shape() {
            Shape::WideText => true,
            Shape::WideChar => true,
            Shape::Members(count) => self.some_part_is_wide(entry, count),
            Shape::Union(count) => self.some_part_is_wide(entry, count),
            Shape::Tagged => self.some_part_is_wide(entry, 3),
            Shape::Sequence(_) => self.has_wide_text(entry.part(0)),
            Shape::Array(_) => self.has_wide_text(entry.part(0)),
            Shape::Encapsulation => self.has_wide_text(entry.part(0)),
            _ => false,
        }
    }

    /// Whether one of an entry's first `count` parts has wide text.
    fn some_part_is_wide(&self, entry: &Entry, count: u32) -> bool
        requires index { (i : ℕ) → i < count → HasIndex (shape_of (node_view entry.now)) i }
        requires below { (i : ℕ) → i < count
            → type_of (part_at (node_view entry.now) i) < length self.now }
        ensures { result ≡ any_below count (part_has_wide_text self.now (node_view entry.now)) }
    {
        let mut wide = false;
        for index in 0..count {
            wide = wide || self.has_wide_text(entry.part(index));
        }
        wide
    }

    /// Gives each recursive sequence the type that was declared for its announcement.
    pub(crate) fn resolve_sequences(&mut self, targets: &[Option<TypeId>])
        ensures { self.new ≡ map (resolved_node (map number_of_id targets.now)) self.old }
    {
        resolve_entries(&mut self.placed, targets);
    }

    /// Adds a type at the end. An `Err` changes nothing: memory was refused.
    pub(crate) fn add(&mut self, entry: Entry) -> Result<TypeId, AllocError>
        requires formed { IsFormed self.old (length self.old) (node_view entry) }
        requires few { length self.old + 1 < 2 ^ 32 }
        ensures number { IfOk result (λ t. t.0 ≡ length self.old) }
        ensures added { OnOk result (self.new ≡ self.old ++ node_view entry ∷ []) }
        ensures err { OnErr result (self.new ≡ self.old) }
    {
        let number = self.len();
        let depth = self.entry_depth(&entry);
        let wide = self.entry_has_wide_text(&entry);
        self.placed.push(EntryWithDepth { entry, depth, wide })?;
        self.deepest = self.deepest.max(depth);
        Ok(TypeId(number))
    }
}
