// What goes into a field.

ghost use Rattle.std.specs.Prelude.{◌≡◌};
ghost use Rattle.gc_graph.specs.declared.kind.Value.TheVariants.{Null, Word};

use ghost_values::GhostValue;
use std::marker::Model;

/// What goes into a field word, and for contracts the value that it stands for.
#[derive(Drop)]
pub struct Content {
    pub word: u64,
    pub value: GhostValue<Values>,
}

impl Content {
    /// Null.
    pub fn null() -> Content
        ensures word { result.word ≡ 0 }
        ensures value { result.value.value ≡ Null }
    {
        Content {
            word: 0,
            value: null_value(),
        }
    }

    /// A number.
    pub fn number(n: u64) -> Content
        ensures word { result.word ≡ n }
        ensures value { result.value.value ≡ Word n }
    {
        Content {
            word: n,
            value: number_value(n),
        }
    }
}

/// A value of a field. It is never made.
#[derive(Drop)]
pub struct Values {
    none: u8,
}

impl Model for Values {
    ghost use Rattle.gc_graph.specs.declared.kind.Value.{Value as Held};
    ghost use Rattle.gc_graph.specs.declared.kind.Value.TheVariants.{Null};

    ghost Value = { Held };

    ghost view = { λ value. Null };
}

fn null_value() -> GhostValue<Values>
    ensures { result.value ≡ Null }
{
    GhostValue::chosen(&0u8)
}

fn number_value(n: u64) -> GhostValue<Values>
    ensures { result.value ≡ Word n }
{
    GhostValue::chosen(&n)
}
