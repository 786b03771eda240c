//! A draft of a catalogue, made from the declarations so far, and the names that later declarations
//! may use.
ghost use Rattle.std.specs.Prelude.{◌≡◌, ◌⊎◌, ◌<◌, ◌≤◌, true, length, map, IfOk, IfErr, IfSome, IfNone, OnOk, None, Ok};
ghost use Rattle.std.specs.Option.{option_map, is_some};
ghost use Rattle.std.specs.Map.{lookup};
ghost use Rattle.std.specs.Str.{bytes_eq};
ghost use Rattle.giop_cdr.specs.declared.prim.Primitive.TheVariants as prims;
ghost use Rattle.std.specs.List.{list_any};
ghost use Rattle.giop_sig.specs.Interfaces.{with_interface, of_text};
ghost use Rattle.giop_sig.specs.Table.{IsFormed, node_at, prim, operation_key, operation_number_of_key, exception_in, identified_in, with_identity, with_operation_counted, with_keyed_operation, with_exception};
ghost use Rattle.giop_sig.specs.HeaderTypes.{IsAddable};
ghost use Rattle.giop_sig.specs.Trees.{AreResolved, depth_in, depth_of};
ghost use Rattle.giop_sig.specs.Scopes.{type_named, add_announced_type, announced_as, announced_index, settled, types_of_announced, with_announced, first_scope, has_encapsulations, is_version_3, reference_number, named, with_node, with_name, with_named, with_identified, with_id_fronts, with_sequence, with_raised, with_key_of};
ghost use Rattle.giop_sig.specs.FileReading.{announcement_count};
ghost use Rattle.giop_sig.specs.RequestList.{option_flatten};
ghost use Rattle.giop_sig.specs.ScopeViews.{announcement_view, same_key_octets, number_of_id, IsDraft, IsKnown, IsKnownType, IsNewIdentity};
ghost use Rattle.giop_sig.specs.Outcomes.{Gives};
ghost use Rattle.giop_sig.specs.Validity.{is_name_taken};
ghost use Rattle.giop_sig.specs.Views.{node_view, HasCountableParts};

use crate::announced::{Announcement, TypeWord, matches_announcement};
use crate::builtin::{initial_types, number_in_version};
use crate::catalogue::{CallKey, Catalogue, Name, Signature, operation_key};
use crate::entries::{Entry, Types};
use crate::fronts::{Front, add_fronts, first_fronts};
use crate::interfaces::InterfaceTable;
use crate::numbers::IOR;
use crate::parse_stop::ParseError;
use crate::types::TypeId;
use arrayvec::ArrayVec;
use indexmap::{IndexMap, IndexSet};
use std::alloc::Global;
use std::marker::Model;

/// The octets of a name.
pub(crate) type Key = ArrayVec<u8, 64>;

/// The first version of files that may have encapsulations.
const ENCAPSULATIONS_SINCE: u8 = 2;
/// The greatest depth of a type.
const DEPTH_MAX: u32 = 24;
/// The version of files that have more reserved words.
pub(crate) const THIRD_VERSION: u8 = 3;

/// The types, operations and exceptions of the declarations so far, and the version of their file.
/// It has the names of enums, structs and unions, each with its type, and those of exceptions. A
/// contract sees the `Scope`. A type may be too deep until its declaration ends.
#[derive(Drop)]
pub(crate) struct Draft {
    version: u8,
    types: Types,
    operations: IndexMap<CallKey, Signature>,
    exceptions: IndexMap<Name, TypeId>,
    /// How many enums, structs and unions are declared.
    declared: u32,
    /// How many operations are declared.
    called: u32,
    interfaces: InterfaceTable,
    identities: IndexMap<Name, TypeId>,
    fronts: IndexSet<Front>,
    names: IndexMap<Key, Option<TypeId>>,
    /// The structs and unions that are announced, in order.
    announced: IndexMap<Key, Announcement>,
}

impl Model for Draft {
    ghost use Rattle.giop_sig.specs.Scopes.{Scope};
    ghost use Rattle.giop_sig.specs.ScopeViews.{scope_view, IsDraft};
    ghost use Rattle.giop_sig.specs.Entries.{table_view};

    ghost Value = { Scope };

    ghost view = { λ a.
        scope_view a.version
        (table_view a.version a.types a.operations.entries a.exceptions.entries a.declared
        a.called a.interfaces a.identities.entries a.fronts.keys)
        a.names.entries a.announced.entries };

    ghost invariant = { λ a.
        IsDraft (scope_view a.version
        (table_view a.version a.types a.operations.entries a.exceptions.entries a.declared
        a.called a.interfaces a.identities.entries a.fronts.keys)
        a.names.entries a.announced.entries) };
}

/// The types of these names, if they are declared.
fn declared_types(
    alloc: Global,
    names: &IndexMap<Key, Option<TypeId>>,
    announced: &IndexMap<Key, Announcement>,
) -> Result<Vec<Option<TypeId>>, ParseError>
    ensures ok { IfOk result (λ ts. ts.items
        ≡ map (λ e. option_flatten (lookup (same_key_octets e.0) names.now.entries))
        announced.now.entries) }
    ensures err { IfErr result (λ stop. stop ≡ ParseError.Memory) }
{
    let mut types = Vec::new(alloc);
    for (key, _) in announced.iter() {
        types.push(declared_type(names, key))?;
    }
    Ok(types)
}

/// The type of a name, if it is declared.
fn declared_type(names: &IndexMap<Key, Option<TypeId>>, key: &Key) -> Option<TypeId>
    ensures { result ≡ option_flatten (lookup (same_key_octets key.now) names.now.entries) }
{
    *names.get(key)?
}

impl Draft {
    /// The draft without declarations, for a file of this version.
    pub(crate) fn new(alloc: Global, version: u8) -> Result<Draft, ParseError>
        ensures ok { IfOk result (λ draft. draft ≡ first_scope version) }
        ensures err { IfErr result (λ stop. stop ≡ ParseError.Memory) }
    {
        let types = initial_types(alloc, version)?;
        let fronts = first_fronts(alloc)?;
        Ok(Draft {
            version,
            types,
            operations: IndexMap::new(alloc),
            exceptions: IndexMap::new(alloc),
            declared: 0,
            called: 0,
            interfaces: InterfaceTable::new(alloc),
            identities: IndexMap::new(alloc),
            fronts,
            names: IndexMap::new(alloc),
            announced: IndexMap::new(alloc),
        })
    }

    /// What is true of each draft. This function does nothing, and is called for its contract.
    pub(crate) fn laws(&self)
        ensures { IsDraft self.now }
    {
        // They are read so that the prover knows what is true of each map of names.
        let _names = &self.names;
    }

    /// Whether the file may have encapsulations.
    pub(crate) fn has_encapsulations(&self) -> bool
        ensures { result ≡ has_encapsulations self.now.names }
    {
        self.version >= ENCAPSULATIONS_SINCE
    }

    /// Whether the file is of version 3, which has more reserved words.
    pub(crate) fn is_version_3(&self) -> bool
        ensures { result ≡ is_version_3 self.now.names }
    {
        self.version == THIRD_VERSION
    }

    /// The type of an object reference. The tags of its profiles have names in version 3 only.
    pub(crate) fn reference_type(&self) -> TypeId
        ensures { result.0 ≡ reference_number self.now.names }
    {
        TypeId(number_in_version(self.version, IOR))
    }

    /// The type of an enum, struct or union of this name.
    fn type_declared_as(&self, name: &[u8]) -> Option<TypeId>
        requires { length name.now ≤ 64 }
        ensures { option_map (λ t. t.0) result ≡ named self.now.names name.now }
    {
        let names = &self.names;
        let key: Key = ArrayVec::try_from(name).unwrap();
        *names.get(&key)?
    }

    /// The type of a name in an expression. A name that is only announced has one as the element of
    /// a sequence alone.
    pub(crate) fn type_named(&self, element: bool, name: &[u8]) -> Option<TypeId>
        requires { length name.now ≤ 64 }
        ensures { option_map (λ t. t.0) result ≡ type_named element self.now.names name.now }
    {
        match self.type_declared_as(name) {
            Some(t) => Some(t),
            None if element => Some(self.announced_as(name)?.type_id),
            None => None,
        }
    }

    /// Whether a name is declared, or is announced with another word.
    pub(crate) fn is_name_taken(&self, word: Option<TypeWord>, name: &[u8]) -> bool
        requires { length name.now ≤ 64 }
        ensures { result ≡ is_name_taken self.now.names word name.now }
    {
        self.is_declared(name) || !matches_announcement(word, self.announced_as(name))
    }

    /// Whether a name is declared, be it that of an exception.
    fn is_declared(&self, name: &[u8]) -> bool
        requires { length name.now ≤ 64 }
        ensures { result ≡ is_some (lookup (bytes_eq name.now) self.now.names.known) }
    {
        let names = &self.names;
        let key: Key = ArrayVec::try_from(name).unwrap();
        names.get(&key).is_some()
    }

    /// How a name is announced.
    pub(crate) fn announced_as(&self, name: &[u8]) -> Option<Announcement>
        requires { length name.now ≤ 64 }
        ensures { option_map announcement_view result ≡ announced_as self.now.names name.now }
    {
        let announced = &self.announced;
        let key: Key = ArrayVec::try_from(name).unwrap();
        announced.get(&key).copied()
    }

    /// How many names are announced.
    pub(crate) fn announcement_count(&self) -> usize
        ensures { result ≡ announcement_count self.now }
    {
        // They are read so that the prover knows what is true of each map of names.
        let _names = &self.names;
        self.announced.len()
    }

    /// The index of the announcement that a type stands for. None for other types.
    pub(crate) fn announced_index(&self, t: TypeId) -> Option<u32>
        ensures { result ≡ announced_index (node_at self.now.table t.0) }
    {
        match self.entry(t) {
            Some(Entry::Announced(index)) => Some(*index),
            _ => None,
        }
    }

    /// Adds a type. If no number is left for it, memory is refused: no text is long enough for so
    /// many types.
    pub(crate) fn add(&mut self, entry: Entry) -> Result<TypeId, ParseError>
        requires formed { IsFormed self.old.table.types (length self.old.table.types)
            (node_view entry) }
        requires addable { IsAddable self.old.table.version (node_view entry) }
        ensures { Gives (λ t. (self.new, t.0)) result (Ok (with_node self.old (node_view entry))) }
    {
        // They are read so that the prover knows what is true of each map of names.
        let _names = &self.names;
        if self.types.len() == u32::MAX {
            return Err(ParseError::Memory);
        }
        let t = self.types.add(entry)?;
        self.types.laws();
        Ok(t)
    }

    /// The greatest depth of a type.
    pub(crate) fn deepest(&self) -> u32
        ensures { result ≡ depth_of self.now.table.types }
    {
        // They are read so that the prover knows what is true of each map of names.
        let _names = &self.names;
        self.types.deepest()
    }

    /// The entry of a type. None if no type has this number.
    pub(crate) fn entry(&self, t: TypeId) -> Option<&Entry>
        ensures some { IfSome result (λ entry. node_view entry.now ≡ node_at self.now.table t.0) }
        ensures sized { IfSome result (λ entry. HasCountableParts entry.now) }
        ensures none { IfNone result (node_at self.now.table t.0 ≡ prim prims.Octet) }
    {
        // They are read so that the prover knows what is true of each map of names.
        let _names = &self.names;
        if t.0 < self.types.len() {
            Some(self.types.entry(t))
        } else {
            None
        }
    }

    /// How many enums, structs and unions are declared.
    pub(crate) fn types_declared(&self) -> u32
        ensures { result ≡ self.now.table.declared }
    {
        // They are read so that the prover knows what is true of each map of names.
        let _names = &self.names;
        self.declared
    }

    /// How many exceptions are declared.
    pub(crate) fn exceptions_declared(&self) -> u32
        ensures { result ≡ length self.now.table.exceptions }
    {
        // They are read so that the prover knows what is true of each map of names.
        let _names = &self.names;
        self.exceptions.len() as u32
    }

    /// How many operations are declared.
    pub(crate) fn operations_declared(&self) -> u32
        ensures { result ≡ self.now.table.called }
    {
        // They are read so that the prover knows what is true of each map of names.
        let _names = &self.names;
        self.called
    }

    /// Whether an exception with this repository id is declared.
    pub(crate) fn has_repository(&self, repository: &[u8]) -> bool
        requires { length repository.now ≤ 128 }
        ensures { result ≡ is_some (exception_in self.now.table repository.now) }
    {
        // They are read so that the prover knows what is true of each map of names.
        let _names = &self.names;
        let key: Name = ArrayVec::try_from(repository).unwrap();
        self.exceptions.get_index_of(&key).is_some()
    }

    /// Whether an enum, struct or union with this repository id is declared.
    pub(crate) fn has_identity(&self, id: &[u8]) -> bool
        requires { length id.now ≤ 128 }
        ensures { result ≡ is_some (identified_in self.now.table id.now) }
    {
        // They are read so that the prover knows what is true of each map of names.
        let _names = &self.names;
        let key: Name = ArrayVec::try_from(id).unwrap();
        self.identities.get_index_of(&key).is_some()
    }

    /// Whether an operation of this name is declared, in the interface with this number, from 1, or
    /// in no interface if it is 0.
    pub(crate) fn has_operation(&self, interface: u32, name: &[u8]) -> bool
        requires short { length name.now ≤ 128 }
        requires few { interface ≤ 1024 }
        ensures { result ≡ is_some (operation_number_of_key self.now.table
            (operation_key interface name.now)) }
    {
        // They are read so that the prover knows what is true of each map of names.
        let _names = &self.names;
        let key = operation_key(interface, name);
        self.operations.get_index_of(&key).is_some()
    }

    /// The interfaces of the declarations so far.
    pub(crate) fn interfaces(&self) -> &InterfaceTable
        ensures { result.now ≡ self.now.table.interfaces }
    {
        // They are read so that the prover knows what is true of each map of names.
        let _names = &self.names;
        &self.interfaces
    }

    /// Adds a new name, with its type if it is that of a type.
    fn add_name(&mut self, name: &[u8], t: Option<TypeId>) -> Result<(), ParseError>
        requires short { length name.now ≤ 64 }
        requires new { lookup (bytes_eq name.now) self.old.names.known ≡ None }
        requires known { IsKnownType self.old.table.types (option_map (λ t. t.0) t) }
        ensures added { OnOk result (self.new
            ≡ with_name self.old name.now (option_map (λ t. t.0) t)) }
        ensures err { IfErr result (λ stop. stop ≡ ParseError.Memory) }
    {
        let key: Key = ArrayVec::try_from(name).unwrap();
        self.names.insert(key, t)?;
        Ok(())
    }

    /// Adds a new repository id of a type.
    fn add_identity(&mut self, id: &[u8], t: TypeId) -> Result<(), ParseError>
        requires identity { length id.now ≤ 128 }
        requires different { identified_in self.old.table id.now ≡ None }
        requires known { t.0 < length self.old.table.types }
        ensures added { OnOk result (self.new ≡ record (self.old) {
          table = with_identity self.old.table (record { repository = id.now; type = t.0 });
        }) }
        ensures err { IfErr result (λ stop. stop ≡ ParseError.Memory) }
    {
        // They are read so that the prover knows what is true of each map of names.
        let _names = &self.names;
        let key: Name = ArrayVec::try_from(id).unwrap();
        self.identities.insert(key, t)?;
        Ok(())
    }

    /// Adds the fronts of a type's repository id.
    fn add_id_fronts(&mut self, id: &[u8], t: TypeId) -> Result<(), ParseError>
        requires identity { length id.now ≤ 128 }
        requires known { t.0 < length self.old.table.types }
        ensures added { OnOk result (self.new ≡ record (self.old) {
          table = with_id_fronts self.old.table id.now t.0;
        }) }
        ensures err { IfErr result (λ stop. stop ≡ ParseError.Memory) }
    {
        // They are read so that the prover knows what is true of each map of names.
        let _names = &self.names;
        let kind = self.types.entry(t).typecode_kind();
        add_fronts(&mut self.fronts, kind, id)?;
        Ok(())
    }

    /// The depth of a type.
    fn depth_at(&self, t: TypeId) -> u32
        requires { t.0 < length self.now.table.types }
        ensures { result ≡ depth_in self.now.table.types t.0 }
    {
        // They are read so that the prover knows what is true of each map of names.
        let _names = &self.names;
        self.types.depth_at(t)
    }

    /// Adds the sequence of a type, unless it would be too deep.
    fn add_sequence(&mut self, t: TypeId) -> Result<(), ParseError>
        requires { IsKnown self.old.table.types t.0 }
        ensures added { OnOk result (self.new ≡ record (self.old) {
          table = with_sequence self.old.table t.0;
        }) }
        ensures err { IfErr result (λ stop. stop ≡ ParseError.Memory) }
    {
        if self.depth_at(t) < DEPTH_MAX {
            self.add(Entry::Sequence(None, t))?;
        }
        Ok(())
    }

    /// Adds the repository id of a type, if it has one.
    fn add_identity_if_any(&mut self, id: Option<&[u8]>, t: TypeId) -> Result<(), ParseError>
        requires identity { IsNewIdentity self.old.table (option_map (λ x. x.now) id) }
        requires known { IsKnown self.old.table.types t.0 }
        ensures added { OnOk result (self.new ≡ record (self.old) {
          table = with_identified self.old.table (option_map (λ x. x.now) id.entry) t.0;
        }) }
        ensures err { IfErr result (λ stop. stop ≡ ParseError.Memory) }
    {
        match id {
            None => Ok(()),
            Some(id) => {
                self.add_identity(id, t)?;
                self.add_id_fronts(id, t)?;
                self.add_sequence(t)
            }
        }
    }

    /// Declares an enum, struct or union with a new name, and with a new repository id if it has
    /// one.
    pub(crate) fn declare_type(
        &mut self,
        name: &[u8],
        id: Option<&[u8]>,
        t: TypeId,
    ) -> Result<(), ParseError>
        requires short { length name.now ≤ 64 }
        requires new { lookup (bytes_eq name.now) self.old.names.known ≡ None }
        requires few { self.old.table.declared < 4096 }
        requires known { IsKnown self.old.table.types t.0 }
        requires identity { IsNewIdentity self.old.table (option_map (λ x. x.now) id) }
        ensures added { OnOk result (self.new
            ≡ with_named name.now (option_map (λ x. x.now) id.entry) (self.old, t.0)) }
        ensures err { IfErr result (λ stop. stop ≡ ParseError.Memory) }
    {
        self.add_name(name, Some(t))?;
        self.add_identity_if_any(id, t)?;
        self.declared += 1;
        Ok(())
    }

    /// Adds an exception with a new repository id.
    fn add_exception(&mut self, repository: &[u8], t: TypeId) -> Result<(), ParseError>
        requires few { length self.old.table.exceptions < 4096 }
        requires identity { length repository.now ≤ 128 }
        requires different { exception_in self.old.table repository.now ≡ None }
        requires known { t.0 < length self.old.table.types }
        ensures added { OnOk result (self.new ≡ record (self.old) {
          table = with_exception self.old.table
              (record { repository = repository.now; members = t.0 });
        }) }
        ensures err { IfErr result (λ stop. stop ≡ ParseError.Memory) }
    {
        // They are read so that the prover knows what is true of each map of names.
        let _names = &self.names;
        let key: Name = ArrayVec::try_from(repository).unwrap();
        self.exceptions.insert(key, t)?;
        Ok(())
    }

    /// Declares an exception with a new name and a new repository id.
    pub(crate) fn declare_exception(
        &mut self,
        name: &[u8],
        repository: &[u8],
        t: TypeId,
    ) -> Result<(), ParseError>
        requires short { length name.now ≤ 64 }
        requires new { lookup (bytes_eq name.now) self.old.names.known ≡ None }
        requires few { length self.old.table.exceptions < 4096 }
        requires identity { length repository.now ≤ 128 }
        requires different { exception_in self.old.table repository.now ≡ None }
        requires known { t.0 < length self.old.table.types }
        ensures added { OnOk result (self.new
            ≡ with_raised name.now repository.now (self.old, t.0)) }
        ensures err { IfErr result (λ stop. stop ≡ ParseError.Memory) }
    {
        self.add_name(name, None)?;
        self.add_exception(repository, t)
    }

    /// Adds an operation in the interface with this number, from 1, or in no interface if it is 0.
    pub(crate) fn add_operation(
        &mut self,
        interface: u32,
        name: &[u8],
        signature: Signature,
    ) -> Result<(), ParseError>
        requires short { length name.now ≤ 128 }
        requires few { interface ≤ 1024 }
        requires new { operation_number_of_key self.old.table (operation_key interface name.now)
            ≡ None }
        requires request { signature.request.0 < length self.old.table.types }
        requires reply { signature.reply.0 < length self.old.table.types }
        ensures added { OnOk result (self.new ≡ record (self.old) {
          table = with_keyed_operation interface name.now signature.request.0 signature.reply.0
              self.old.table;
        }) }
        ensures err { IfErr result (λ stop. stop ≡ ParseError.Memory) }
    {
        // They are read so that the prover knows what is true of each map of names.
        let _names = &self.names;
        if self.operations.len() >= u32::MAX as usize {
            return Err(ParseError::Memory);
        }
        let key = operation_key(interface, name);
        self.operations.insert(key, signature)?;
        Ok(())
    }

    /// Adds an interface, if it is new.
    pub(crate) fn add_interface(&mut self, id: &[u8]) -> Result<(), ParseError>
        requires short { length id.now ≤ 128 }
        requires few { (list_any (bytes_eq id.now) self.old.table.interfaces.names ≡ true)
            ⊎ (length self.old.table.interfaces.names < 1024) }
        ensures added { OnOk result (self.new ≡ record (self.old) {
          table = record (self.old.table) {
            interfaces = with_interface self.old.table.interfaces id.now;
          };
        }) }
        ensures err { IfErr result (λ stop. stop ≡ ParseError.Memory) }
    {
        // They are read so that the prover knows what is true of each map of names.
        let _names = &self.names;
        self.interfaces.add(id)
    }

    /// Declares a KEY of an interface.
    pub(crate) fn add_key(&mut self, text: &[u8], id: &[u8]) -> Result<(), ParseError>
        requires short { length text.now ≤ 128 }
        requires new { of_text self.old.table.interfaces text.now ≡ None }
        requires identity { length id.now ≤ 128 }
        requires few { (list_any (bytes_eq id.now) self.old.table.interfaces.names ≡ true)
            ⊎ (length self.old.table.interfaces.names < 1024) }
        ensures added { OnOk result (self.new ≡ with_key_of self.old text.now id.now) }
        ensures err { IfErr result (λ stop. stop ≡ ParseError.Memory) }
    {
        // They are read so that the prover knows what is true of each map of names.
        let _names = &self.names;
        self.interfaces.add_key(text, id)
    }

    /// Counts an operation.
    pub(crate) fn count_operation(&mut self)
        requires { self.old.table.called < 4096 }
        ensures { self.new ≡ record (self.old) { table = with_operation_counted self.old.table } }
    {
        // They are read so that the prover knows what is true of each map of names.
        let _names = &self.names;
        self.called += 1;
    }

    /// Announces a struct or union with a new name.
    pub(crate) fn announce(&mut self, name: &[u8], word: TypeWord) -> Result<(), ParseError>
        requires short { length name.now ≤ 64 }
        requires new { announced_as self.old.names name.now ≡ None }
        requires third { is_version_3 self.old.names ≡ true }
        ensures added { OnOk result (self.new
            ≡ with_announced word name.now (add_announced_type self.old)) }
        ensures err { IfErr result (λ stop. stop ≡ ParseError.Memory) }
    {
        // They are read so that the prover knows what is true of each map of names.
        let _names = &self.names;
        let index = self.announcement_count();
        if index >= u32::MAX as usize {
            return Err(ParseError::Memory);
        }
        let type_id = self.add(Entry::Announced(index as u32))?;
        let key: Key = ArrayVec::try_from(name).unwrap();
        self.announced.insert(key, Announcement { word, type_id })?;
        Ok(())
    }

    /// The types that were declared for the announced names, in order.
    pub(crate) fn types_of_announced(
        &self,
        alloc: Global,
    ) -> Result<Vec<Option<TypeId>>, ParseError>
        ensures ok { IfOk result (λ ts. map number_of_id ts.items
            ≡ types_of_announced self.now.names) }
        ensures err { IfErr result (λ stop. stop ≡ ParseError.Memory) }
    {
        declared_types(alloc, &self.names, &self.announced)
    }

    /// Gives each recursive sequence the type that was declared for its announcement.
    pub(crate) fn resolve_sequences(&mut self, types: &[Option<TypeId>])
        requires { map number_of_id types.now ≡ types_of_announced self.old.names }
        ensures is { self.new ≡ settled self.old }
        ensures complete { AreResolved self.new.table.types }
    {
        // They are read so that the prover knows what is true of each map of names.
        let _names = &self.names;
        self.types.resolve_sequences(types);
    }

    /// The catalogue. No type is too deep, and each recursive sequence has its type.
    pub(crate) fn into_catalogue(self) -> Catalogue
        requires shallow { depth_of self.table.types ≤ 24 }
        requires settled { AreResolved self.table.types }
        ensures { result ≡ self.table }
    {
        Catalogue {
            version: self.version,
            types: self.types,
            operations: self.operations,
            exceptions: self.exceptions,
            declared: self.declared,
            called: self.called,
            interfaces: self.interfaces,
            identities: self.identities,
            fronts: self.fronts,
        }
    }
}
