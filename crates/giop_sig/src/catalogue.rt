//! The catalogue: the types of a signature file and the built-in ones, and its operations and
//! exceptions by name.
ghost use Rattle.std.specs.Prelude.{◌≡◌, ℕ, suc, ◌+◌, ◌^◌, ◌<◌, ◌≤◌, ◌++◌, ◌↔◌, List, false, codes, drop, nat_le, length, IsTrue, IfSome, IfOk, IfErr, OnOk, OnErr, None, MatchOption};
ghost use Rattle.std.specs.Option.{option_map};
ghost use Rattle.giop_sig.specs.Types.{sequel, depth, part_of, name_in, enum_name_in, switch_of, select_in, interpreted_in, shape_in, HasShape, HasMember, HasIndex, HasSmallerPart, IsUnion};
ghost use Rattle.giop_sig.specs.Fits.{IsFit, IsRoot};
ghost use Rattle.giop_sig.specs.Interfaces.{IsInterfaceOf};
ghost use Rattle.giop_sig.specs.Table.{node_at, shape_of, part_number, part_at, name_of, name_at, switch_at, selected, op_id, operation_key, operation_number_of_key, operation_in, operation_for, interface_in, has_keys, named_interface, interface_name, operation_at, exception_in, identified_in, IsFormed, with_type, with_type_counted, with_operation, with_exception};
ghost use Rattle.giop_sig.specs.Trees.{tree, tree_at, tree_of_node, catalogue_depth, depth_in, part_number_in, has_wide_text};
ghost use Rattle.giop_sig.specs.HeaderTypes.{header_type_number, header_type, fixed_type_number, fixed_type, RequestIdStandsFirst, BeginsWithId, IsTable};

use crate::builtin::initial_types;
use crate::draft::THIRD_VERSION;
use crate::entries::{Entry, Types};
use crate::fronts::{Front, first_fronts};
use crate::interfaces::InterfaceTable;
use crate::types::{
    Counts, Fixed, Following, InterfaceId, OpId, Selected, Shape, Sign, Signal, TypeId,
};
use arrayvec::ArrayVec;
use giop_cdr::Number;
use giop_tokens::SigFault;
use indexmap::{IndexMap, IndexSet};
use std::alloc::Global;
use std::marker::Model;

/// The version of the catalogue without declarations.
const FIRST_VERSION: u8 = 1;
/// The greatest depth of a type.
const DEPTH_MAX: u8 = 24;

/// The octets of an operation's name or of a repository id.
pub(crate) type Name = ArrayVec<u8, 128>;

/// The key of an operation: the number of its interface in two octets, 0 if it has none, and then
/// its name.
pub(crate) type CallKey = ArrayVec<u8, 130>;

/// The structs of an operation's requests and replies.
#[derive(Clone, Copy)]
pub(crate) struct Signature {
    pub(crate) request: TypeId,
    pub(crate) reply: TypeId,
}

/// The types of a signature file, with its operations and exceptions. Each part of a type has a
/// smaller number than the type, apart from the elements of a recursive sequence and the value of
/// an any. A contract sees the whole `Table`.
#[derive(Drop)]
pub struct Catalogue {
    pub(crate) version: u8,
    pub(crate) types: Types,
    pub(crate) operations: IndexMap<CallKey, Signature>,
    pub(crate) exceptions: IndexMap<Name, TypeId>,
    /// How many enums, structs and unions the file has.
    pub(crate) declared: u32,
    /// How many operations the file has.
    pub(crate) called: u32,
    pub(crate) interfaces: InterfaceTable,
    /// The enums, structs and unions that have a repository id, by this id.
    pub(crate) identities: IndexMap<Name, TypeId>,
    /// The fronts of these ids, each after the octet of its kind.
    pub(crate) fronts: IndexSet<Front>,
}

impl Model for Catalogue {
    ghost use Rattle.giop_sig.specs.Table.{Table};
    ghost use Rattle.giop_sig.specs.HeaderTypes.{IsTable};
    ghost use Rattle.giop_sig.specs.Entries.{table_view};

    ghost Value = { Table };

    ghost view = { λ a.
        table_view a.version a.types a.operations.entries a.exceptions.entries a.declared
        a.called a.interfaces a.identities.entries a.fronts.keys };

    ghost invariant = { λ a.
        IsTable
        (table_view a.version a.types a.operations.entries a.exceptions.entries a.declared
        a.called a.interfaces a.identities.entries a.fronts.keys) };
}

impl Catalogue {
    ghost use Rattle.giop_sig.specs.Builtin.{builtin_table};
    ghost use Rattle.giop_tokens.specs.Faults.{no_memory};
    ghost use Rattle.giop_sig.specs.Views.{node_view, HasCountableParts};

    /// The catalogue without declarations: the built-in types alone. Refused only for memory.
    pub fn builtin(alloc: Global) -> Result<Catalogue, SigFault>
        ensures ok { IfOk result (λ catalogue. catalogue ≡ builtin_table) }
        ensures err { IfErr result (λ fault. fault ≡ no_memory) }
    {
        let types = initial_types(alloc, FIRST_VERSION)?;
        let fronts = first_fronts(alloc)?;
        Ok(Catalogue {
            version: FIRST_VERSION,
            types,
            operations: IndexMap::new(alloc),
            exceptions: IndexMap::new(alloc),
            declared: 0,
            called: 0,
            interfaces: InterfaceTable::new(alloc),
            identities: IndexMap::new(alloc),
            fronts,
        })
    }

    /// What is true of each catalogue. This function does nothing, and is called for its contract.
    #[inline(always)]
    pub fn laws(&self)
        ensures { IsTable self.now }
    {
        // They are read so that the prover knows what is true of each list of types.
        let _types = &self.types;
    }

    /// The version of the signature file: 1, 2 or 3. It is 1 for the catalogue without
    /// declarations.
    pub fn version(&self) -> u8
        ensures { result ≡ self.now.version }
    {
        self.version
    }

    /// The depth of the deepest type, including the built-in ones, from 9 to 24. It is 24 for a
    /// file of version 3.
    pub fn depth(&self) -> u8
        ensures depth { result ≡ catalogue_depth self.now }
        ensures least { 9 ≤ result }
        ensures most { result ≤ 24 }
    {
        if self.version == THIRD_VERSION {
            return DEPTH_MAX;
        }
        self.types.deepest() as u8
    }

    /// How many types, operations and exceptions the signature file has.
    pub fn counts(&self) -> Counts
        ensures types { result.types ≡ self.now.declared }
        ensures operations { result.operations ≡ self.now.called }
        ensures exceptions { result.exceptions ≡ length self.now.exceptions }
    {
        Counts {
            types: self.declared,
            operations: self.called,
            exceptions: self.exceptions.len() as u32,
        }
    }

    /// Whether there is a type with this number.
    pub fn has(&self, t: TypeId) -> bool
        ensures { IsTrue result ↔ (t.0 < length self.now.types) }
    {
        t.0 < self.types.len()
    }

    /// The outermost form of a type.
    #[inline(always)]
    pub fn shape(&self, t: TypeId) -> Shape
        requires { t.0 < length self.now.types }
        ensures is { result ≡ shape_of (node_at self.now t.0) }
        ensures tree { result ≡ shape_in (tree self.now t.0) }
        ensures shape { HasShape (tree self.now t.0) result }
        // The same in any room.
        ensures rooms { (n : ℕ) → result ≡ shape_in (tree_at self.now n t.0) }
        ensures shapes { (n : ℕ) → HasShape (tree_at self.now n t.0) result }
        ensures root { IsRoot (tree self.now t.0) }
    {
        self.seen(false).shape(t)
    }

    /// The type of the part at an index. Members, cases and the parts of a tagged type have their
    /// indices from 0 on. The element of a sequence or array and the value in an encapsulation are
    /// at each index. An any has its TypeCode at index 0, and the type with number n at index n +
    /// 1.
    #[inline(always)]
    pub fn part(&self, t: TypeId, index: u32) -> TypeId
        requires known { t.0 < length self.now.types }
        requires index { HasIndex (shape_in (tree self.now t.0)) index }
        requires led { shape_in (tree self.now t.0) ≡ Shape.Led → index ≤ length self.now.types }
        ensures number { result.0 ≡ part_number self.now t.0 index }
        ensures known { result.0 < length self.now.types }
        ensures below { HasSmallerPart (shape_in (tree self.now t.0)) index → result.0 < t.0 }
        // A part has one level of room less than its whole. Only the parts of a union may differ
        // with the room.
        ensures rooms { (IsUnion (shape_in (tree self.now t.0)) → ⊥) → (n : ℕ) →
            tree_at self.now n result.0 ≡ part_of (tree_at self.now (suc n) t.0) index }
    {
        self.seen(false).part(t, index)
    }

    /// The name at an index: of a member, a case, or a part of a tagged type.
    pub fn part_name(&self, t: TypeId, index: u32) -> &[u8]
        requires known { t.0 < length self.now.types }
        requires index { HasMember (shape_in (tree self.now t.0)) index }
        ensures name { result.now ≡ name_of (part_at (node_at self.now t.0) index) }
        ensures tree { result.now ≡ name_in (tree self.now t.0) index }
        ensures rooms { (n : ℕ) → result.now ≡ name_in (tree_at self.now n t.0) index }
        ensures short { length result.now ≤ 64 }
    {
        self.seen(false).part_name(t, index)
    }

    /// The same name after a dot. The dot is the 16th octet, and the octets before it mean nothing,
    /// so that a short name with its dot is the end of a block of 16 octets.
    #[inline(always)]
    pub fn dotted_name(&self, t: TypeId, index: u32) -> &[u8]
        requires known { t.0 < length self.now.types }
        requires index { HasMember (shape_in (tree self.now t.0)) index }
        ensures tree { drop 15 result.now ≡ codes "." ++ name_in (tree self.now t.0) index }
        ensures rooms { (n : ℕ) →
            drop 15 result.now ≡ codes "." ++ name_in (tree_at self.now n t.0) index }
        ensures size { 16 ≤ length result.now }
        ensures short { length result.now ≤ 80 }
    {
        self.seen(false).dotted_name(t, index)
    }

    /// The name of an enum's number, or of a kind. None if the number has no name.
    pub fn enum_name(&self, t: TypeId, number: u32) -> Option<&[u8]>
        requires { t.0 < length self.now.types }
        ensures name { option_map (λ x. x.now) result ≡ name_at (node_at self.now t.0) number }
        ensures tree { option_map (λ x. x.now) result ≡ enum_name_in (tree self.now t.0) number }
        ensures rooms { (n : ℕ) →
            option_map (λ x. x.now) result ≡ enum_name_in (tree_at self.now n t.0) number }
        ensures short { IfSome result (λ x. length x.now ≤ 64) }
    {
        self.seen(false).enum_name(t, number)
    }

    /// The type of a union's discriminator, or of a tagged type's tag.
    #[inline(always)]
    pub fn switch_type(&self, t: TypeId) -> TypeId
        requires known { t.0 < length self.now.types }
        requires union { IsUnion (shape_in (tree self.now t.0)) }
        ensures number { result.0 ≡ switch_at (node_at self.now t.0) }
        ensures below { result.0 < t.0 }
        ensures tree { tree self.now result.0 ≡ switch_of (tree self.now t.0) }
        // A number takes no room.
        ensures rooms { (m n : ℕ) →
            tree_at self.now m result.0 ≡ switch_of (tree_at self.now (suc n) t.0) }
    {
        self.seen(false).switch_type(t)
    }

    /// What the value of a discriminator or a tag selects. It is `Nothing` if the type is neither a
    /// union nor tagged. Only the built-in target of a request refuses a value.
    pub fn select(&self, t: TypeId, number: Number) -> Selected
        requires { t.0 < length self.now.types }
        ensures is { result ≡ selected (node_at self.now t.0) number }
        // For the whole number that the discriminator's octets spell.
        ensures tree { (n : ℕ) → interpreted_in (switch_of (tree self.now t.0)) n ≡ Some number
            → result ≡ select_in (tree self.now t.0) n }
        ensures rooms { (m n : ℕ) → interpreted_in (switch_of (tree_at self.now m t.0)) n
            ≡ Some number → result ≡ select_in (tree_at self.now m t.0) n }
        ensures index { (i : ℕ) → result ≡ Selected.Case i
            → HasMember (shape_in (tree self.now t.0)) i }
    {
        self.seen(false).select(t, number)
    }

    /// The header type for a minor version of GIOP and the number of a message type. None if such a
    /// message has no header type, or if there is no such version or type.
    pub fn header(&self, minor: u8, message_type: u8) -> Option<TypeId>
        ensures number { option_map (λ t. t.0) result
            ≡ header_type_number self.now.version minor message_type }
        ensures known { IfSome result (λ t. t.0 < length self.now.types) }
        ensures tree { option_map (λ t. tree self.now t.0) result
            ≡ header_type self.now.version minor message_type }
        ensures fit { IfSome result (λ t. IsFit 24 (tree self.now t.0)) }
        // A reader that knows no types finds the request id first.
        ensures id { RequestIdStandsFirst minor message_type
            → IfSome result (λ t. BeginsWithId (tree self.now t.0)) }
    {
        self.seen(false).header(minor, message_type)
    }

    /// The type of a body that signature files don't declare.
    pub fn fixed(&self, fixed: Fixed) -> TypeId
        ensures number { result.0 ≡ fixed_type_number self.now.version fixed }
        ensures known { result.0 < length self.now.types }
        ensures tree { tree self.now result.0 ≡ fixed_type self.now.version fixed }
        ensures fit { IsFit 24 (tree self.now result.0) }
    {
        self.seen(false).fixed(fixed)
    }

    /// The operation of a name that belongs to no interface. It takes no memory. A name of more
    /// than 128 octets has none.
    pub fn operation(&self, name: &[u8]) -> Option<OpId>
        ensures is { result ≡ operation_in self.now name.now }
        ensures known { IfSome result (λ o. o.0 < length self.now.operations) }
    {
        self.operation_in_interface(0, name)
    }

    /// The operation of a name in an interface: the one that has the interface in its list, or else
    /// the one without a list. It takes no memory.
    pub fn operation_for(&self, name: &[u8], interface: Option<InterfaceId>) -> Option<OpId>
        requires { IfSome interface (λ i. i.0 < length self.now.interfaces.names) }
        ensures is { result ≡ operation_for self.now name.now interface }
        ensures known { IfSome result (λ o. o.0 < length self.now.operations) }
    {
        self.laws();
        match interface {
            None => self.operation(name),
            Some(interface) => match self.operation_in_interface(interface.0 + 1, name) {
                Some(operation) => Some(operation),
                None => self.operation(name),
            },
        }
    }

    /// The operation of a name in the interface with this number, from 1, or in no interface if it
    /// is 0.
    fn operation_in_interface(&self, interface: u32, name: &[u8]) -> Option<OpId>
        requires { interface ≤ 1024 }
        ensures is { result ≡ option_map op_id
            (operation_number_of_key self.now (operation_key interface name.now)) }
        ensures known { IfSome result (λ o. o.0 < length self.now.operations) }
    {
        let operations = &self.operations;
        if name.len() > 128 {
            return None;
        }
        let index = operations.get_index_of(&operation_key(interface, name))?;
        Some(OpId(index as u32))
    }

    /// The interface of an object key: that of the KEY with just this key, or else of the longest
    /// KEY that it begins with. It takes no memory. A key of more than 128 octets has none.
    #[tactic(auto, using(crate::proofs::InterfaceLaws::whose))]
    pub fn interface(&self, key: &[u8]) -> Option<InterfaceId>
        ensures is { result ≡ interface_in self.now key.now }
        ensures whose { IsInterfaceOf self.now.interfaces key.now
            (option_map (λ i. i.0) result) }
        ensures known { IfSome result (λ i. i.0 < length self.now.interfaces.names) }
    {
        self.interfaces.of_key(key)
    }

    /// The interface of a repository id. It takes no memory. An id of more than 128 octets has
    /// none.
    pub fn named_interface(&self, id: &[u8]) -> Option<InterfaceId>
        ensures is { result ≡ named_interface self.now id.now }
        ensures known { IfSome result (λ i. i.0 < length self.now.interfaces.names) }
    {
        self.interfaces.named(id)
    }

    /// The repository id of an interface.
    pub fn interface_name(&self, interface: InterfaceId) -> &[u8]
        requires { interface.0 < length self.now.interfaces.names }
        ensures is { result.now ≡ interface_name self.now interface.0 }
        ensures short { length result.now ≤ 128 }
    {
        self.interfaces.name(interface)
    }

    /// Whether there is a KEY. If not, no object key has an interface.
    #[inline(always)]
    pub fn has_keys(&self) -> bool
        ensures is { result ≡ has_keys self.now }
        ensures none { result ≡ false → (key : List ℕ) → interface_in self.now key ≡ None }
    {
        0 < self.interfaces.keys_len()
    }

    /// Whether there is an interface with this number.
    pub fn has_interface(&self, interface: InterfaceId) -> bool
        ensures { IsTrue result ↔ (interface.0 < length self.now.interfaces.names) }
    {
        (interface.0 as usize) < self.interfaces.len()
    }

    /// The interface of an object key is one of the catalogue's. This function does nothing, and is
    /// called for its contract.
    #[inline(always)]
    pub fn interface_laws(&self)
        ensures { (key : List ℕ) → IfSome (interface_in self.now key)
            (λ i. i.0 < length self.now.interfaces.names) }
    {
        self.interfaces.laws();
    }

    /// The struct of the exception with a repository id. It takes no memory. An id of more than 128
    /// octets has none.
    pub fn exception(&self, repository: &[u8]) -> Option<TypeId>
        ensures is { result ≡ exception_in self.now repository.now }
        ensures known { IfSome result (λ t. t.0 < length self.now.types) }
    {
        let exceptions = &self.exceptions;
        let key = name_if_short(repository)?;
        let found = exceptions.get_full(&key)?;
        Some(*found.2)
    }

    /// The enum, struct or union with a repository id. It takes no memory. An id of more than 128
    /// octets has none.
    pub fn identified(&self, repository: &[u8]) -> Option<TypeId>
        ensures is { result ≡ identified_in self.now repository.now }
        ensures known { IfSome result (λ t. t.0 < length self.now.types) }
    {
        let identities = &self.identities;
        let key = name_if_short(repository)?;
        let identity = identities.get_full(&key)?;
        Some(*identity.2)
    }

    /// Whether there is an operation with this number.
    pub fn has_operation(&self, operation: OpId) -> bool
        ensures { IsTrue result ↔ (operation.0 < length self.now.operations) }
    {
        (operation.0 as usize) < self.operations.len()
    }

    /// The struct of an operation's requests.
    pub fn request_of(&self, operation: OpId) -> TypeId
        requires { operation.0 < length self.now.operations }
        ensures is { result.0 ≡ (operation_at self.now operation.0).request }
        ensures known { result.0 < length self.now.types }
    {
        self.signature(operation).request
    }

    /// The struct of an operation's replies.
    pub fn reply_of(&self, operation: OpId) -> TypeId
        requires { operation.0 < length self.now.operations }
        ensures is { result.0 ≡ (operation_at self.now operation.0).reply }
        ensures known { result.0 < length self.now.types }
    {
        self.signature(operation).reply
    }

    /// Whether a type has wide text: it is a wide character or a wide string, or has a part with
    /// one. What an any carries doesn't count.
    pub fn has_wide_text(&self, t: TypeId) -> bool
        requires { t.0 < length self.now.types }
        ensures { result ≡ has_wide_text self.now.types t.0 }
    {
        self.types.has_wide_text(t)
    }

    /// The depth of a type.
    pub(crate) fn depth_at(&self, t: TypeId) -> u32
        requires { t.0 < length self.now.types }
        ensures { result ≡ depth_in self.now.types t.0 }
    {
        self.types.depth_at(t)
    }

    /// The type of the part at an index, if it has this room. It is that of `part`, apart from what
    /// comes after the kind of a TypeCode.
    pub fn part_in(&self, t: TypeId, index: u32, room: u8) -> TypeId
        requires known { t.0 < length self.now.types }
        requires index { HasIndex (shape_in (tree self.now t.0)) index }
        requires led { shape_in (tree self.now t.0) ≡ Shape.Led → index ≤ length self.now.types }
        ensures number { result.0 ≡ part_number_in self.now room t.0 index }
        ensures known { result.0 < length self.now.types }
        ensures tree { tree_at self.now room result.0
            ≡ part_of (tree_at self.now (suc room) t.0) index }
    {
        self.seen(false).part_in(t, index, room)
    }

    /// The entry of a type.
    pub(crate) fn entry(&self, t: TypeId) -> &Entry
        requires { t.0 < length self.now.types }
        ensures node { node_view result.now ≡ node_at self.now t.0 }
        ensures sized { HasCountableParts result.now }
    {
        self.types.entry(t)
    }

    /// The entry of an operation.
    fn signature(&self, operation: OpId) -> Signature
        requires { operation.0 < length self.now.operations }
        ensures request { result.request.0 ≡ (operation_at self.now operation.0).request }
        ensures reply { result.reply.0 ≡ (operation_at self.now operation.0).reply }
        ensures known { (result.request.0 < length self.now.types)
            × (result.reply.0 < length self.now.types) }
    {
        match self.operations.get_index(operation.0 as usize) {
            Some((_, signature)) => *signature,
            None => unreachable!(),
        }
    }
}

/// The key of an operation's name in the interface with this number, from 1, or in no interface if
/// it is 0.
pub(crate) fn operation_key(interface: u32, name: &[u8]) -> CallKey
    requires short { length name.now ≤ 128 }
    requires few { interface ≤ 1024 }
    ensures { result.items ≡ operation_key interface name.now }
{
    let mut key = CallKey::new();
    key.push((interface / 256) as u8);
    key.push((interface % 256) as u8);
    key.try_extend_from_slice(name).unwrap();
    key
}

/// The key of a name. None if it has more than 128 octets.
fn name_if_short(name: &[u8]) -> Option<Name>
    ensures { MatchOption result (128 < length name.now) (λ key. key.items ≡ name.now) }
{
    ArrayVec::try_from(name).ok()
}
