//! # Weak clearing
//!
//! What it is: once marking is over, weak handles to what was not marked become null, and so do
//! pairs whose key was not. It is part of the pause, before any object goes.
//!
//! The parts: `clear_fields` (the weak fields of the marked objects), `clear_pairs` (their pairs)
//! and `clear_slots` (slots outside the heap), `dying` (which weak fields of an object are to be
//! cleared), and `is_marked`, for whoever clears weak handles of its own. None takes memory. Inside,
//! `walk` goes from object to object for fields and pairs alike. The next level down is
//! `member_fields` and `page_space`.
//!
//! What is proved: `is_marked` tells whether an object was marked, and `dying` of a marked one
//! exactly its weak fields whose target is not marked. Exactly the weak fields of marked objects
//! whose target is not marked become null, both words of exactly their pairs whose key is not
//! marked, and exactly the slots whose object is not marked. No other word changes, of objects that
//! are not marked none at all, and no mark. A pair is cleared by `member_fields::clear_pair`, which
//! stores the value first. What was looked at before a call stands first after it.
//!
//! What is only tested or not said: how long it takes. A type without weak fields, or without
//! pairs, costs a look at the header of each of its objects.
#![tactic(auto)]

mod dying_fields;
mod fields;
mod marks;
mod pairs;
mod slots;
mod walk;
mod weak_handles;

pub use dying_fields::dying;
pub use fields::clear_fields;
pub use marks::is_marked;
pub use page_space::Space;
pub use pairs::clear_pairs;
pub use slots::clear_slots;
