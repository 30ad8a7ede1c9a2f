// Which node is meant. All of it is for contracts alone.

use std::marker::Model;

/// The number of a node, or none. It is never made.
#[derive(Drop)]
pub struct Names {
    none: u8,
}

impl Model for Names {
    ghost use Rattle.std.specs.Prelude.{ℕ, Option, None};

    ghost Value = { Option ℕ };

    ghost view = { λ name. None };
}
