// The types of a program's objects, declared one after the other.

ghost use Rattle.heap_engine.specs.Objects.{HaveCallbacks};
ghost use Rattle.std.specs.Prelude.{◌≡◌, [], IfOk, OnOk, IfErr};
ghost use Rattle.std.specs.List.{position};
ghost use Rattle.gc_graph.specs.declared.kind.Kind.TheVariants.{Strong, Weak, Pair, Plain};
ghost use Rattle.oilpan.specs.DeclaredTypes as spec;
ghost use Rattle.oilpan.specs.TypesErrors.{IsTypesError, is_overcalled};

use crate::declaring::Declared;
use crate::gathered::Gathered;
use crate::names::{Named, Names};
use crate::types_errors::{TypesError, error_of};
use gc_graph::{Kind, NoMemory};
use std::alloc::Global;
use std::marker::Model;
use type_table::{TypeDecl, TypeTable};

const MOST_PREFINALIZERS: usize = 16;

/// The types that are declared, in their order.
///
/// ```text
/// let (types, names) = Types::new(alloc)
///     .object("Element").strong("child").weak("owner").word("count").prefinalizer(0)
///     .object("Cache").pair("attributes")
///     .done(1)?;
/// ```
#[derive(Drop)]
pub struct Types {
    alloc: Global,
    objects: Gathered<Declared>,
}

impl Model for Types {
    ghost use Rattle.std.specs.Prelude.{List};
    ghost use Rattle.oilpan.specs.DeclaredTypes.{DeclaredObject};

    ghost Value = { List DeclaredObject };

    ghost view = { λ t. t.objects };
}

impl Types {
    /// No types.
    pub fn new(alloc: Global) -> Types
        ensures { result ≡ [] }
    {
        Types {
            alloc,
            objects: Gathered::new(alloc),
        }
    }

    /// Begins an object, which has the next type.
    pub fn object(self, name: &'static str) -> BegunObject
        ensures { result ≡ spec.begun name.now self }
    {
        let object = Declared::new(self.alloc, name);
        BegunObject {
            types: self,
            object,
        }
    }

    /// The table of the types and their names, where there are so many callbacks. That memory was
    /// wanting on the way is told first.
    pub fn done(self, callbacks: u32) -> Result<(TypeTable, Names), TypesError>
        ensures table { IfOk result (λ p. p.0 ≡ spec.types_of self) }
        ensures names { IfOk result (λ p. p.1 ≡ spec.named_all self) }
        ensures called { OnOk result (HaveCallbacks callbacks (spec.types_of self)) }
        ensures error { IfErr result (IsTypesError callbacks (spec.types_of self)) }
    {
        let Types { alloc, objects } = self;
        let (decls, named) = match parted(alloc, objects) {
            Ok(parts) => parts,
            Err(_) => return Err(TypesError::NoMemory),
        };
        let over = first_overcalled(decls.as_slice());
        match TypeTable::new(alloc, decls, callbacks) {
            Ok(table) => match over {
                Some(ty) => Err(TypesError::TooManyPrefinalizers { ty: ty as u32 }),
                None => Ok((table, Names::new(named))),
            },
            Err(fault) => Err(error_of(fault)),
        }
    }
}

fn parted(
    alloc: Global,
    objects: Gathered<Declared>,
) -> Result<(Vec<TypeDecl>, Vec<Named>), NoMemory>
    ensures { IfOk result (λ p. (p.0.items ≡ spec.types_of objects)
        × (p.1.items ≡ spec.named_all objects)) }
{
    let objects = objects.finish()?;
    let mut decls = Vec::new(alloc);
    let mut named = Vec::new(alloc);
    for object in objects {
        let (decl, names) = object.parted(alloc)?;
        decls.push(decl)?;
        named.push(names)?;
    }
    Ok((decls, named))
}

fn first_overcalled(types: &[TypeDecl]) -> Option<usize>
    ensures { result ≡ position is_overcalled types.now }
{
    types
        .iter()
        .position(|decl| decl.callbacks().len() > MOST_PREFINALIZERS)
}

/// An object that is being declared, after those before it. Its fields are numbered from 0 in the
/// order in which they are declared.
#[derive(Drop)]
pub struct BegunObject {
    types: Types,
    object: Declared,
}

impl Model for BegunObject {
    ghost use Rattle.oilpan.specs.DeclaredTypes.{Declaring};

    ghost Value = { Declaring };

    ghost view = { λ b. record { before = b.types; object = b.object } };
}

impl BegunObject {
    /// One field more, which keeps what it names (`Member`).
    pub fn strong(self, name: &'static str) -> BegunObject
        ensures { result ≡ spec.with_field Strong name.now self }
    {
        self.with(Kind::Strong, name)
    }

    /// One field more, which keeps nothing (`WeakMember`).
    pub fn weak(self, name: &'static str) -> BegunObject
        ensures { result ≡ spec.with_field Weak name.now self }
    {
        self.with(Kind::Weak, name)
    }

    /// One field more, of a key and its value (`EphemeronPair`).
    pub fn pair(self, name: &'static str) -> BegunObject
        ensures { result ≡ spec.with_field Pair name.now self }
    {
        self.with(Kind::Pair, name)
    }

    /// One field more, which holds a number.
    pub fn word(self, name: &'static str) -> BegunObject
        ensures { result ≡ spec.with_field Plain name.now self }
    {
        self.with(Kind::Plain, name)
    }

    /// One prefinalizer more: the callback with this number (`CPPGC_USING_PRE_FINALIZER`).
    pub fn prefinalizer(mut self, callback: u32) -> BegunObject
        ensures { result ≡ spec.with_prefinalizer callback self }
    {
        self.object.add_prefinalizer(callback);
        self
    }

    /// Begins the next object.
    pub fn object(self, name: &'static str) -> BegunObject
        ensures { result ≡ spec.begun name.now (spec.with_last self) }
    {
        self.end().object(name)
    }

    /// The types with this object as the last one.
    pub fn end(self) -> Types
        ensures { result ≡ spec.with_last self }
    {
        let BegunObject { mut types, object } = self;
        types.objects.push(object);
        types
    }

    /// As `Types::done`.
    pub fn done(self, callbacks: u32) -> Result<(TypeTable, Names), TypesError>
        ensures table { IfOk result (λ p. p.0 ≡ spec.types_of (spec.with_last self)) }
        ensures names { IfOk result (λ p. p.1 ≡ spec.named_all (spec.with_last self)) }
        ensures called { OnOk result
            (HaveCallbacks callbacks (spec.types_of (spec.with_last self))) }
        ensures error { IfErr result
            (IsTypesError callbacks (spec.types_of (spec.with_last self))) }
    {
        self.end().done(callbacks)
    }

    fn with(mut self, kind: Kind, name: &'static str) -> BegunObject
        ensures { result ≡ spec.with_field kind name.now self }
    {
        self.object.add_field(kind, name);
        self
    }
}
