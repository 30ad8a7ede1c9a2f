// Graphs as values of a program.

ghost use Rattle.std.specs.Prelude.{◌≡◌, ◌+◌, ◌<◌, ◌≤◌, ◌^◌, [], ◌∷◌, ◌++◌, length};
ghost use Rattle.std.specs.Prelude.{IfOk, OnOk, OnErr, MatchOption};
ghost use Rattle.gc_graph.specs.Graph.{object_at};
ghost use Rattle.gc_graph.specs.Fields.{field_words};

use crate::kind::{Kind, Value};
use crate::memory::NoMemory;
use std::alloc::Global;
use std::marker::Model;

/// What a node holds: its fields.
#[derive(Drop)]
pub struct Object {
    kinds: Vec<Kind>,
    values: Vec<Value>,
}

impl Model for Object {
    ghost use Rattle.gc_graph.specs.Graph.{Object as Meaning};

    ghost Value = { Meaning };

    ghost view = { λ n.
        record { ty = 0; extra = 0; kinds = n.kinds.items; values = n.values.items } };
}

impl Object {
    pub fn kinds(&self) -> &[Kind]
        ensures { result.now ≡ self.now.kinds }
    {
        &self.kinds
    }

    pub fn values(&self) -> &[Value]
        ensures { result.now ≡ self.now.values }
    {
        &self.values
    }
}

/// A graph. Its nodes are numbered from 0, in the order in which they were added.
#[derive(Drop)]
pub struct Graph {
    alloc: Global,
    nodes: Vec<Object>,
}

impl Model for Graph {
    ghost use Rattle.std.specs.Prelude.{List};
    ghost use Rattle.gc_graph.specs.Graph.{Object};

    ghost Value = { List Object };

    ghost view = { λ g. g.nodes.items };
}

impl Graph {
    /// The graph without nodes.
    pub fn new(alloc: Global) -> Graph
        ensures { result ≡ [] }
    {
        Graph {
            alloc,
            nodes: Vec::new(alloc),
        }
    }

    /// Adds the next node. It has a value for each word of its fields: two for a pair, and one for
    /// any other field.
    pub fn add(&mut self, kinds: &[Kind], values: &[Value]) -> Result<(), NoMemory>
        requires words { length values.now ≡ field_words kinds.now }
        requires number { length self.old + 1 < 2 ^ 32 }
        ensures added { OnOk result (self.new ≡ self.old
            ++ record { ty = 0; extra = 0; kinds = kinds.now; values = values.now } ∷ []) }
        ensures none { OnErr result (self.new ≡ self.old) }
    {
        let object = Object {
            kinds: Vec::from_slice(self.alloc, kinds)?,
            values: Vec::from_slice(self.alloc, values)?,
        };
        self.nodes.push(object)?;
        Ok(())
    }

    /// The fields of a node, where the graph has it.
    pub(crate) fn node(&self, n: u32) -> Option<&Object>
        ensures { MatchOption result (length self.now ≤ n) (λ o. o.now ≡ object_at self.now n) }
    {
        self.nodes.get(n as usize)
    }
}
