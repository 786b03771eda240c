//! A catalogue as messages of a version see it. In messages of 1.0 and 1.1 neither the value of an
//! any nor the elements of a recursive sequence can have wide text.
ghost use Rattle.std.specs.Prelude.{◌≡◌, ℕ, suc, ◌<◌, ◌≤◌, ◌++◌, ◌↔◌, List, false, codes, drop, length, IsTrue, IfSome, None};
ghost use Rattle.std.specs.Option.{option_map};
ghost use Rattle.giop_sig.specs.Types.{sequel, part_of, name_in, enum_name_in, switch_of, elements_fit, select_in, interpreted_in, shape_in, HasShape, HasMember, HasIndex, HasSmallerPart, IsUnion};
ghost use Rattle.giop_sig.specs.Fits.{IsFit, IsRoot};
ghost use Rattle.giop_sig.specs.Interfaces.{IsInterfaceOf};
ghost use Rattle.giop_sig.specs.Hearings.{HasPositiveIndex, inference_in, sequel_view, sign_view, signal_after, inferred_of_signal};
ghost use Rattle.giop_sig.specs.HeaderTypes.{header_type_number, header_type, fixed_type_number, fixed_type, RequestIdStandsFirst, BeginsWithId, IsTable};
ghost use Rattle.giop_sig.specs.Table.{node_at, shape_of, part_number, part_at, name_of, name_at, switch_at, selected, interface_in, has_keys, seen, is_narrow, in_version};
ghost use Rattle.giop_sig.specs.Trees.{any_inference, can_be_value, part_number_in, tree, tree_at};

use crate::builtin::{fixed_type_id, header_type_id};
use crate::catalogue::Catalogue;
use crate::draft::THIRD_VERSION;
use crate::entries::{Entry, EntryWithDepth};
use crate::part_name::PartName;
use crate::types::{Fixed, Following, InterfaceId, Selected, Shape, Sign, Signal, TypeId};
use giop_cdr::Number;
use std::marker::Model;

/// A catalogue as messages of a version see it. It has the methods of `Catalogue` with which a
/// value is read. A contract sees the whole `Table`.
#[derive(Drop)]
pub struct SeenCatalogue<'a> {
    catalogue: &'a Catalogue,
    /// The entries of its types.
    entries: &'a [EntryWithDepth],
    forbids_wide: bool,
}

impl<'a> Model for SeenCatalogue<'a> {
    ghost use Rattle.giop_sig.specs.Table.{Table, seen};
    ghost use Rattle.giop_sig.specs.Views.{IsTableWithEntries};

    ghost Value = { Table };

    ghost view = { λ a. seen a.forbids_wide a.catalogue.now };

    ghost invariant = { λ a.
        IsTableWithEntries (seen a.forbids_wide a.catalogue.now) a.entries.now };
}

impl Catalogue {
    /// The catalogue as messages see it. `forbids_wide` says that anys and recursive sequences can't
    /// hold wide text, as in messages of 1.0 and 1.1.
    #[inline(always)]
    pub fn seen(&self, forbids_wide: bool) -> SeenCatalogue<'_>
        ensures is { result ≡ seen forbids_wide self.now }
        ensures own { forbids_wide ≡ false → result ≡ self.now }
    {
        // They are read so that the prover knows what is true of each catalogue.
        let _types = &self.types;
        self.laws();
        SeenCatalogue {
            catalogue: self,
            entries: self.types.entries(),
            forbids_wide,
        }
    }

    /// Whether anys and recursive sequences can't hold wide text in messages of a minor version.
    #[inline(always)]
    pub fn is_narrow(&self, minor: u8) -> bool
        ensures { result ≡ is_narrow minor self.now }
    {
        minor < 2 && self.version == THIRD_VERSION
    }

    /// The catalogue as messages of a minor version see it.
    #[inline(always)]
    pub fn in_version(&self, minor: u8) -> SeenCatalogue<'_>
        ensures { result ≡ in_version minor self.now }
    {
        self.seen(self.is_narrow(minor))
    }
}

impl<'a> SeenCatalogue<'a> {
    ghost use Rattle.giop_sig.specs.Views.{node_view, HasCountableParts};

    /// What is true of each catalogue. This function does nothing, and is called for its contract.
    #[inline(always)]
    pub fn laws(&self)
        ensures { IsTable self.now }
    {
        // It is read so that the prover knows what is true of each catalogue as it is seen.
        let _catalogue = self.catalogue;
    }

    /// The version of the signature file.
    #[inline(always)]
    fn version(&self) -> u8
        ensures { result ≡ self.now.version }
    {
        self.catalogue.version()
    }

    /// The entry of a type.
    #[inline(always)]
    fn entry(&self, t: TypeId) -> &'a Entry
        requires { t.0 < length self.now.types }
        ensures node { node_view result.now ≡ node_at self.now t.0 }
        ensures sized { HasCountableParts result.now }
    {
        &self.entries[t.0 as usize].entry
    }

    /// Like `Catalogue::has`.
    #[inline(always)]
    pub fn has(&self, t: TypeId) -> bool
        ensures { IsTrue result ↔ (t.0 < length self.now.types) }
    {
        self.catalogue.has(t)
    }

    /// Like `Catalogue::shape`.
    #[inline(always)]
    pub fn shape(&self, t: TypeId) -> Shape
        requires { t.0 < length self.now.types }
        ensures is { result ≡ shape_of (node_at self.now t.0) }
        ensures tree { result ≡ shape_in (tree self.now t.0) }
        ensures shape { HasShape (tree self.now t.0) result }
        // The same in any room.
        ensures rooms { (n : ℕ) → result ≡ shape_in (tree_at self.now n t.0) }
        ensures shapes { (n : ℕ) → HasShape (tree_at self.now n t.0) result }
        ensures root { IsRoot (tree self.now t.0) }
    {
        self.laws();
        self.entry(t).shape()
    }

    /// Like `Catalogue::part`.
    #[inline(always)]
    pub fn part(&self, t: TypeId, index: u32) -> TypeId
        requires known { t.0 < length self.now.types }
        requires index { HasIndex (shape_in (tree self.now t.0)) index }
        requires led { shape_in (tree self.now t.0) ≡ Shape.Led → index ≤ length self.now.types }
        ensures number { result.0 ≡ part_number self.now t.0 index }
        ensures known { result.0 < length self.now.types }
        ensures below { HasSmallerPart (shape_in (tree self.now t.0)) index → result.0 < t.0 }
        // A part has one level of room less than its whole. Only the parts of a union may differ
        // with the room.
        ensures rooms { (IsUnion (shape_in (tree self.now t.0)) → ⊥) → (n : ℕ) →
            tree_at self.now n result.0 ≡ part_of (tree_at self.now (suc n) t.0) index }
    {
        self.laws();
        self.entry(t).part(index)
    }

    /// Whether the elements of a sequence fit into this room. Only those of a recursive sequence
    /// may not fit.
    #[inline(always)]
    pub fn elements_fit(&self, t: TypeId, room: u8) -> bool
        requires { t.0 < length self.now.types }
        ensures { result ≡ elements_fit (tree_at self.now (suc room) t.0) }
    {
        match self.entry(t) {
            Entry::Recursive(_, element) => self.can_be_value(*element, room),
            _ => true,
        }
    }

    /// Like `Catalogue::part_in`.
    #[inline(always)]
    pub fn part_in(&self, t: TypeId, index: u32, room: u8) -> TypeId
        requires known { t.0 < length self.now.types }
        requires index { HasIndex (shape_in (tree self.now t.0)) index }
        requires led { shape_in (tree self.now t.0) ≡ Shape.Led → index ≤ length self.now.types }
        ensures number { result.0 ≡ part_number_in self.now room t.0 index }
        ensures known { result.0 < length self.now.types }
        ensures tree { tree_at self.now room result.0
            ≡ part_of (tree_at self.now (suc room) t.0) index }
    {
        self.laws();
        self.entry(t).part_in(index, room)
    }

    /// Like `Catalogue::part_name`.
    #[inline(always)]
    pub fn part_name(&self, t: TypeId, index: u32) -> &'a [u8]
        requires known { t.0 < length self.now.types }
        requires index { HasMember (shape_in (tree self.now t.0)) index }
        ensures name { result.now ≡ name_of (part_at (node_at self.now t.0) index) }
        ensures tree { result.now ≡ name_in (tree self.now t.0) index }
        ensures rooms { (n : ℕ) → result.now ≡ name_in (tree_at self.now n t.0) index }
        ensures short { length result.now ≤ 64 }
    {
        self.kept_name(t, index).octets()
    }

    /// Like `Catalogue::dotted_name`.
    #[inline(always)]
    pub fn dotted_name(&self, t: TypeId, index: u32) -> &'a [u8]
        requires known { t.0 < length self.now.types }
        requires index { HasMember (shape_in (tree self.now t.0)) index }
        ensures tree { drop 15 result.now ≡ codes "." ++ name_in (tree self.now t.0) index }
        ensures rooms { (n : ℕ) →
            drop 15 result.now ≡ codes "." ++ name_in (tree_at self.now n t.0) index }
        ensures size { 16 ≤ length result.now }
        ensures short { length result.now ≤ 80 }
    {
        self.kept_name(t, index).dotted()
    }

    /// The name of a part as it is kept, with what comes before it.
    #[inline(always)]
    fn kept_name(&self, t: TypeId, index: u32) -> &'a PartName
        requires known { t.0 < length self.now.types }
        requires index { HasMember (shape_in (tree self.now t.0)) index }
        ensures name { result.now ≡ name_of (part_at (node_at self.now t.0) index) }
        ensures tree { result.now ≡ name_in (tree self.now t.0) index }
        ensures rooms { (n : ℕ) → result.now ≡ name_in (tree_at self.now n t.0) index }
        ensures short { length result.now ≤ 64 }
    {
        self.laws();
        self.entry(t).part_name(index)
    }

    /// Like `Catalogue::enum_name`.
    #[inline(always)]
    pub fn enum_name(&self, t: TypeId, number: u32) -> Option<&'a [u8]>
        requires { t.0 < length self.now.types }
        ensures name { option_map (λ x. x.now) result ≡ name_at (node_at self.now t.0) number }
        ensures tree { option_map (λ x. x.now) result ≡ enum_name_in (tree self.now t.0) number }
        ensures rooms { (n : ℕ) →
            option_map (λ x. x.now) result ≡ enum_name_in (tree_at self.now n t.0) number }
        ensures short { IfSome result (λ x. length x.now ≤ 64) }
    {
        self.laws();
        self.entry(t).enum_name(number)
    }

    /// Like `Catalogue::switch_type`.
    #[inline(always)]
    pub fn switch_type(&self, t: TypeId) -> TypeId
        requires known { t.0 < length self.now.types }
        requires union { IsUnion (shape_in (tree self.now t.0)) }
        ensures number { result.0 ≡ switch_at (node_at self.now t.0) }
        ensures below { result.0 < t.0 }
        ensures tree { tree self.now result.0 ≡ switch_of (tree self.now t.0) }
        // A number takes no room.
        ensures rooms { (m n : ℕ) →
            tree_at self.now m result.0 ≡ switch_of (tree_at self.now (suc n) t.0) }
    {
        self.laws();
        self.entry(t).switch_type()
    }

    /// Like `Catalogue::select`.
    #[inline(always)]
    pub fn select(&self, t: TypeId, number: Number) -> Selected
        requires { t.0 < length self.now.types }
        ensures is { result ≡ selected (node_at self.now t.0) number }
        // For the whole number that the discriminator's octets spell.
        ensures tree { (n : ℕ) → interpreted_in (switch_of (tree self.now t.0)) n ≡ Some number
            → result ≡ select_in (tree self.now t.0) n }
        ensures rooms { (m n : ℕ) → interpreted_in (switch_of (tree_at self.now m t.0)) n
            ≡ Some number → result ≡ select_in (tree_at self.now m t.0) n }
        ensures index { (i : ℕ) → result ≡ Selected.Case i
            → HasMember (shape_in (tree self.now t.0)) i }
    {
        self.laws();
        self.entry(t).select(number)
    }

    /// Like `Catalogue::header`.
    #[inline(always)]
    pub fn header(&self, minor: u8, message_type: u8) -> Option<TypeId>
        ensures number { option_map (λ t. t.0) result
            ≡ header_type_number self.now.version minor message_type }
        ensures known { IfSome result (λ t. t.0 < length self.now.types) }
        ensures tree { option_map (λ t. tree self.now t.0) result
            ≡ header_type self.now.version minor message_type }
        ensures fit { IfSome result (λ t. IsFit 24 (tree self.now t.0)) }
        // A reader that knows no types finds the request id first.
        ensures id { RequestIdStandsFirst minor message_type
            → IfSome result (λ t. BeginsWithId (tree self.now t.0)) }
    {
        self.laws();
        header_type_id(self.version(), minor, message_type)
    }

    /// Like `Catalogue::fixed`.
    #[inline(always)]
    pub fn fixed(&self, fixed: Fixed) -> TypeId
        ensures number { result.0 ≡ fixed_type_number self.now.version fixed }
        ensures known { result.0 < length self.now.types }
        ensures tree { tree self.now result.0 ≡ fixed_type self.now.version fixed }
        ensures fit { IsFit 24 (tree self.now result.0) }
    {
        self.laws();
        fixed_type_id(self.version(), fixed)
    }

    /// Like `Catalogue::interface`.
    pub fn interface(&self, key: &[u8]) -> Option<InterfaceId>
        ensures is { result ≡ interface_in self.now key.now }
        ensures whose { IsInterfaceOf self.now.interfaces key.now
            (option_map (λ i. i.0) result) }
        ensures known { IfSome result (λ i. i.0 < length self.now.interfaces.names) }
    {
        self.catalogue.interface(key)
    }

    /// Like `Catalogue::has_keys`.
    #[inline(always)]
    pub fn has_keys(&self) -> bool
        ensures is { result ≡ has_keys self.now }
        ensures none { result ≡ false → (key : List ℕ) → interface_in self.now key ≡ None }
    {
        self.catalogue.has_keys()
    }

    /// Like `Catalogue::has_interface`.
    pub fn has_interface(&self, interface: InterfaceId) -> bool
        ensures { IsTrue result ↔ (interface.0 < length self.now.interfaces.names) }
    {
        self.catalogue.has_interface(interface)
    }

    /// Like `Catalogue::interface_laws`.
    #[inline(always)]
    pub fn interface_laws(&self)
        ensures { (key : List ℕ) → IfSome (interface_in self.now key)
            (λ i. i.0 < length self.now.interfaces.names) }
    {
        self.catalogue.interface_laws();
    }

    /// Like `Catalogue::hear`.
    pub fn hear(&self, t: TypeId, told: Signal, sign: Sign<'_>) -> Signal
        requires { t.0 < length self.now.types }
        ensures is { result ≡ signal_after self.now t.0 told sign.entry }
        ensures heard { (n : ℕ) → inferred_of_signal result
            ≡ (inference_in (tree_at self.now n t.0)).inferred_after (inferred_of_signal told)
            (sign_view sign.entry) }
    {
        match self.shape(t) {
            Shape::Led => self.catalogue.any_signal_after(told, sign),
            _ => told,
        }
    }

    /// Like `Catalogue::following`.
    pub fn following(&self, t: TypeId, told: Signal, room: u8) -> Following
        requires { t.0 < length self.now.types }
        ensures is { sequel (inference_in (tree_at self.now (suc room) t.0))
            (inferred_of_signal told)
            ≡ sequel_view result }
        ensures index { HasPositiveIndex result }
        ensures known { (index : ℕ) → result ≡ Following.Then index →
            index ≤ length self.now.types }
    {
        match self.shape(t) {
            Shape::Led => self.following_any(told, room),
            _ => Following::Ends,
        }
    }

    /// What comes after the TypeCode of an any, if that has this room.
    fn following_any(&self, told: Signal, room: u8) -> Following
        ensures is { sequel (any_inference self.now room) (inferred_of_signal told)
            ≡ sequel_view result }
        ensures index { HasPositiveIndex result }
        ensures known { (index : ℕ) → result ≡ Following.Then index →
            index ≤ length self.now.types }
    {
        self.laws();
        match told {
            Signal::Untold => Following::Ends,
            Signal::Empty => Following::Ends,
            Signal::Is(i) if self.can_be_value(TypeId(i), room) => Following::Then(i + 1),
            _ => Following::Stops,
        }
    }

    /// Like `Catalogue::can_be_value`.
    pub fn can_be_value(&self, t: TypeId, room: u8) -> bool
        ensures { result ≡ can_be_value self.now room t.0 }
    {
        self.catalogue.has_room(t, room) && !(self.forbids_wide && self.catalogue.has_wide_text(t))
    }
}
