//! # Ghost values
//!
//! What it is: a field that contracts see and that has no bytes. The heap keeps its list of
//! objects and its graph in such fields, so that a clause can speak of them while the running
//! program holds words alone.
//!
//! The parts: `GhostValue<T>`, whose `value` is what contracts see of a `T`, and
//! `GhostValue::chosen`, by which the caller's proof picks that value.
//!
//! What is proved: a new value is the one that the caller picked. A ghost value says nothing by
//! itself: the invariant of the type that holds it ties it to what the program keeps.
//!
//! What is only tested or not said: nothing.
#![tactic(auto)]

ghost use Rattle.std.specs.Prelude.{◌≡◌};
ghost use base.Fml.{ftrue};

use std::marker::{Model, PhantomData};

/// A value that only contracts read. It takes no memory.
pub struct GhostValue<T> {
    marker: PhantomData<T>,
    pub ghost value: { T },
}

impl<T> Model for GhostValue<T> {
    ghost also_owns = { λ _. ftrue };
}

impl<T> GhostValue<T> {
    /// The value that the caller's proof picks, from what `about` lends.
    pub fn chosen<S>(about: &S) -> GhostValue<T>
        ghost v: { T }
        ensures { result.value ≡ v }
    {
        let _ = about;
        GhostValue {
            marker: PhantomData,
        }
    }
}

impl<T> Drop for GhostValue<T> {
    fn drop(self) {
        let Self { marker: _ } = self;
    }
}
