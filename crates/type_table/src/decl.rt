// What a type line declares.

ghost use Rattle.std.specs.Prelude.{◌≡◌};

use gc_graph::Kind;
use std::marker::Model;

/// The kinds of a type's fields, in their order, and the numbers of the callbacks that are its
/// prefinalizers (`CPPGC_USING_PRE_FINALIZER`, `include/cppgc/prefinalizer.h`) and its weak
/// callbacks (`RegisterWeakCallback`, `include/cppgc/visitor.h`).
#[derive(Drop)]
pub struct TypeDecl {
    fields: Vec<Kind>,
    callbacks: Vec<u32>,
    weak: Vec<u32>,
}

impl Model for TypeDecl {
    ghost use Rattle.gc_graph.specs.State.{ObjectType};

    ghost Value = { ObjectType };

    ghost view = { λ d. record {
      kinds = d.fields.items;
      prefinalizers = d.callbacks.items;
      weak_callbacks = d.weak.items;
    } };
}

impl TypeDecl {
    /// Takes no memory, and tests no limit.
    pub fn new(fields: Vec<Kind>, callbacks: Vec<u32>, weak: Vec<u32>) -> TypeDecl
        ensures { result ≡ record {
          kinds = fields.items;
          prefinalizers = callbacks.items;
          weak_callbacks = weak.items;
        } }
    {
        TypeDecl {
            fields,
            callbacks,
            weak,
        }
    }

    /// The kinds of the fields, in their order.
    pub fn fields(&self) -> &[Kind]
        ensures { result.now ≡ self.now.kinds }
    {
        self.fields.as_slice()
    }

    /// The numbers of the prefinalizers' callbacks, in their order.
    pub fn callbacks(&self) -> &[u32]
        ensures { result.now ≡ self.now.prefinalizers }
    {
        self.callbacks.as_slice()
    }

    /// The numbers of the weak callbacks, in their order.
    pub fn weak(&self) -> &[u32]
        ensures { result.now ≡ self.now.weak_callbacks }
    {
        self.weak.as_slice()
    }
}
