// What calls tell of a collection and of the heap.

/// How many objects a step of marking has traced, and whether there was nothing left to trace.
#[derive(Clone, Copy, Debug, PartialEq, Eq, Drop)]
pub struct Stepped {
    pub traced: u32,
    pub done: bool,
}

/// How many objects aren't finalised, how many words they have, and how many pages hold one
/// (`HeapStatistics`, `include/cppgc/heap-statistics.h`).
#[derive(Clone, Copy, Debug, PartialEq, Eq, Drop)]
pub struct Totals {
    pub objects: u32,
    pub words: u32,
    pub pages: u32,
}
