// A list to which things are added without an answer.

ghost use Rattle.std.specs.Prelude.{◌≡◌, ◌++◌, [], ◌∷◌, IfOk};

use gc_graph::NoMemory;
use ghost_values::GhostValue;
use std::alloc::Global;
use std::marker::{Model, PhantomData};

/// Lists of such things. None is ever made.
#[derive(Drop)]
pub(crate) struct Lists<T> {
    none: PhantomData<T>,
}

impl<T> Model for Lists<T> {
    ghost use Rattle.std.specs.Prelude.{List, []};

    ghost Value = { List T };

    ghost view = { λ _. [] };
}

/// What an addition looks at.
#[derive(Drop)]
struct AboutMore<'a, T> {
    all: &'a GhostValue<Lists<T>>,
    more: &'a T,
}

/// All that was added, in its order. That memory was wanting is told at the end.
#[derive(Drop)]
pub(crate) struct Gathered<T: Drop> {
    items: Vec<T>,
    short: bool,
    all: GhostValue<Lists<T>>,
}

impl<T: Drop> Model for Gathered<T> {
    ghost use Rattle.std.specs.Prelude.{◌≡◌, false, List};

    ghost Value = { List T };

    ghost view = { λ g. g.all.value };

    ghost invariant = { λ g. g.short ≡ false → g.items.items ≡ g.all.value };
}

impl<T: Drop> Gathered<T> {
    pub(crate) fn new(alloc: Global) -> Gathered<T>
        ensures { result ≡ [] }
    {
        Gathered {
            items: Vec::new(alloc),
            short: false,
            all: nothing(),
        }
    }

    pub(crate) fn push(&mut self, more: T)
        ensures { self.new ≡ self.old ++ more ∷ [] }
    {
        self.all = with_more(&self.all, &more);
        if self.items.push(more).is_err() {
            self.short = true;
        }
    }

    /// When memory is wanting is free.
    pub(crate) fn finish(self) -> Result<Vec<T>, NoMemory>
        ensures { IfOk result (λ items. items.items ≡ self) }
    {
        let Gathered {
            items,
            short,
            all: _,
        } = self;
        if short {
            return Err(NoMemory);
        }
        Ok(items)
    }
}

fn nothing<T>() -> GhostValue<Lists<T>>
    ensures { result.value ≡ [] }
{
    GhostValue::chosen(&0u8)
}

fn with_more<T>(all: &GhostValue<Lists<T>>, more: &T) -> GhostValue<Lists<T>>
    ensures { result.value ≡ all.now.value ++ more.now ∷ [] }
{
    GhostValue::chosen(&AboutMore { all, more })
}
