// An object that is declared: its name, its fields and its prefinalizers.

ghost use Rattle.std.specs.Prelude.{◌≡◌, [], IfOk};
ghost use Rattle.oilpan.specs.DeclaredTypes as spec;

use crate::gathered::Gathered;
use crate::names::{Field, Named};
use gc_graph::{Kind, NoMemory};
use std::alloc::Global;
use std::marker::Model;
use type_table::TypeDecl;

#[derive(Drop)]
pub(crate) struct Declared {
    name: &'static str,
    fields: Gathered<Field>,
    prefinalizers: Gathered<u32>,
}

impl Model for Declared {
    ghost use Rattle.oilpan.specs.DeclaredTypes.{DeclaredObject};

    ghost Value = { DeclaredObject };

    ghost view = { λ d. record {
      name = d.name.now;
      fields = d.fields;
      prefinalizers = d.prefinalizers;
    } };
}

impl Declared {
    pub(crate) fn new(alloc: Global, name: &'static str) -> Declared
        ensures { result ≡ record { name = name.now; fields = []; prefinalizers = [] } }
    {
        Declared {
            name,
            fields: Gathered::new(alloc),
            prefinalizers: Gathered::new(alloc),
        }
    }

    pub(crate) fn add_field(&mut self, kind: Kind, name: &'static str)
        ensures { self.new ≡ spec.add_field kind name.now self.old }
    {
        self.fields.push(Field::new(kind, name));
    }

    pub(crate) fn add_prefinalizer(&mut self, callback: u32)
        ensures { self.new ≡ spec.add_prefinalizer callback self.old }
    {
        self.prefinalizers.push(callback);
    }

    /// The type, and the names.
    pub(crate) fn parted(self, alloc: Global) -> Result<(TypeDecl, Named), NoMemory>
        ensures { IfOk result (λ p. (p.0 ≡ spec.type_of self) × (p.1 ≡ spec.named_of self)) }
    {
        let Declared {
            name,
            fields,
            prefinalizers,
        } = self;
        let fields = fields.finish()?;
        let callbacks = prefinalizers.finish()?;
        let kinds = kinds_of(alloc, fields.as_slice())?;
        let decl = TypeDecl::new(kinds, callbacks, Vec::new(alloc));
        Ok((decl, Named::new(name, fields)))
    }
}

fn kinds_of(alloc: Global, fields: &[Field]) -> Result<Vec<Kind>, NoMemory>
    ensures { IfOk result (λ kinds. kinds.items ≡ spec.kinds_of fields.now) }
{
    let mut kinds = Vec::new(alloc);
    for field in fields {
        kinds.push(field.kind())?;
    }
    Ok(kinds)
}
