// The numbers of objects' types and of their fields, by their names.

ghost use Rattle.std.specs.Prelude.{◌≡◌, ◌≤◌, All, length, map, MatchOption};
ghost use Rattle.oilpan.specs.Named as spec;

use gc_graph::Kind;
use std::marker::Model;

/// A field that was declared.
#[derive(Drop)]
pub(crate) struct Field {
    name: &'static str,
    kind: Kind,
}

impl Model for Field {
    ghost use Rattle.oilpan.specs.DeclaredTypes.{DeclaredField};

    ghost Value = { DeclaredField };

    ghost view = { λ f. record { name = f.name.now; kind = f.kind } };
}

impl Field {
    pub(crate) fn new(kind: Kind, name: &'static str) -> Field
        ensures { result ≡ record { name = name.now; kind = kind } }
    {
        Field { name, kind }
    }

    pub(crate) fn kind(&self) -> Kind
        ensures { result ≡ self.now.kind }
    {
        self.kind
    }

    fn name(&self) -> &str
        ensures { result.now ≡ self.now.name }
    {
        self.name
    }
}

/// The names of an object and of its fields.
#[derive(Drop)]
pub(crate) struct Named {
    name: &'static str,
    fields: Vec<Field>,
}

impl Model for Named {
    ghost use Rattle.oilpan.specs.DeclaredTypes.{NamedObject};

    ghost Value = { NamedObject };

    ghost view = { λ n. record { name = n.name.now; fields = n.fields.items } };
}

impl Named {
    pub(crate) fn new(name: &'static str, fields: Vec<Field>) -> Named
        ensures { result ≡ record { name = name.now; fields = fields.items } }
    {
        Named { name, fields }
    }

    fn name(&self) -> &str
        ensures { result.now ≡ self.now.name }
    {
        self.name
    }

    fn fields(&self) -> &[Field]
        ensures { result.now ≡ self.now.fields }
    {
        self.fields.as_slice()
    }
}

/// The names of all declared objects and of their fields. Of two with one name the first is told.
#[derive(Drop)]
pub struct Names {
    objects: Vec<Named>,
}

impl Model for Names {
    ghost use Rattle.std.specs.Prelude.{◌≤◌, All, List, length};
    ghost use Rattle.oilpan.specs.DeclaredTypes.{NamedObject};

    ghost Value = { List NamedObject };

    ghost view = { λ n. n.objects.items };

    ghost invariant = { λ n. (length n.objects.items ≤ 16383)
        × (All (λ o. length o.fields ≤ 64) n.objects.items) };
}

impl Names {
    pub(crate) fn new(objects: Vec<Named>) -> Names
        requires few { length objects.items ≤ 16383 }
        requires narrow { All (λ o. length o.fields ≤ 64) objects.items }
        ensures { result ≡ objects.items }
    {
        Names { objects }
    }

    /// The number of an object's type.
    pub fn object(&self, name: &str) -> Option<u32>
        ensures { MatchOption result (spec.IsUnnamed (spec.object_names self.now) name.now)
            (spec.IsFirstNamed (spec.object_names self.now) name.now) }
    {
        for (number, object) in self.objects.iter().enumerate() {
            if object.name() == name {
                return Some(number as u32);
            }
        }
        None
    }

    /// The number of a field of the objects with this type.
    pub fn field(&self, object: u32, name: &str) -> Option<u32>
        ensures { MatchOption result (spec.IsUnnamed (spec.field_names self.now object) name.now)
            (spec.IsFirstNamed (spec.field_names self.now object) name.now) }
    {
        match self.objects.get(object as usize) {
            Some(object) => field_in(object.fields(), name),
            None => None,
        }
    }
}

fn field_in(fields: &[Field], name: &str) -> Option<u32>
    requires { length fields.now ≤ 64 }
    ensures { MatchOption result (spec.IsUnnamed (map (λ f. f.name) fields.now) name.now)
        (spec.IsFirstNamed (map (λ f. f.name) fields.now) name.now) }
{
    for (number, field) in fields.iter().enumerate() {
        if field.name() == name {
            return Some(number as u32);
        }
    }
    None
}
