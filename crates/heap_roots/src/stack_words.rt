// The words of the graph's stack, and how calls on the stack change them. All of it is for contracts
// alone.

ghost use Rattle.std.specs.Prelude.{◌≡◌, [], ◌∷◌, None, drop, slice_index_or};
ghost use Rattle.gc_graph.specs.State.StackWord.{Number};
ghost use Rattle.heap_roots.specs.Stack.{pointer_into};

use crate::slot_lists::SlotLists;
use ghost_values::GhostValue;
use std::marker::Model;

/// A word of a stack. It is never made.
#[derive(Drop)]
pub struct StackWords {
    none: u8,
}

impl Model for StackWords {
    ghost use Rattle.gc_graph.specs.State.{StackWord};
    ghost use Rattle.gc_graph.specs.State.StackWord.{Number};

    ghost Value = { StackWord };

    ghost view = { λ word. Number 0 };
}

/// A list of words of a stack, the last one first. It is never made.
#[derive(Drop)]
pub struct WordLists {
    none: u8,
}

impl Model for WordLists {
    ghost use Rattle.std.specs.Prelude.{List, []};
    ghost use Rattle.gc_graph.specs.State.{StackWord};

    ghost Value = { List StackWord };

    ghost view = { λ words. [] };
}

pub fn none() -> GhostValue<WordLists>
    ensures { result.value ≡ [] }
{
    GhostValue::chosen(&0u8)
}

pub fn number(n: u64) -> GhostValue<StackWords>
    ensures { result.value ≡ Number n }
{
    GhostValue::chosen(&n)
}

/// What a pointer looks at.
#[derive(Drop)]
struct AboutPointer<'a> {
    slots: &'a GhostValue<SlotLists>,
    p: u32,
    offset: u32,
}

/// A pointer to the word at an offset of the node that slot p names.
pub fn pointer(slots: &GhostValue<SlotLists>, p: u32, offset: u32) -> GhostValue<StackWords>
    ensures { result.value ≡ pointer_into (slice_index_or slots.now.value p None) offset }
{
    GhostValue::chosen(&AboutPointer { slots, p, offset })
}

/// What a push looks at.
#[derive(Drop)]
struct AboutPush<'a> {
    words: &'a GhostValue<WordLists>,
    word: &'a GhostValue<StackWords>,
}

/// The word is the last one.
pub fn pushed(words: &GhostValue<WordLists>, word: &GhostValue<StackWords>) -> GhostValue<WordLists>
    ensures { result.value ≡ word.now.value ∷ words.now.value }
{
    GhostValue::chosen(&AboutPush { words, word })
}

/// The last word was taken away.
pub fn popped(words: &GhostValue<WordLists>) -> GhostValue<WordLists>
    ensures { result.value ≡ drop 1 words.now.value }
{
    GhostValue::chosen(words)
}
