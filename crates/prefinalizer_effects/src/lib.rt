//! # The effects of prefinalizers
//!
//! What it is: what a prefinalizer is shown of a dying object, and what the action that it answers
//! does to words once marking is over, and so to the nodes that these hold. It knows nothing of
//! registrations or of how a pause gets there.
//!
//! The parts: `shown_words` (the words of the declared fields as they are shown), `apply` (the
//! effect of an action), and `PausedBodies`, which runs both for the registry of `callback_table`.
//! Inside, `fields` finds a field by its number, and what a strong one names. The next level down is
//! `member_fields`.
//!
//! | action | the object that strong field `link` of the dying one names |
//! |---|---|
//! | `Nothing` | stays |
//! | `Clear` | its field `field` becomes null where it is a strong or a weak one, or a pair |
//! | `Add` | the amount is added to its field `field` where it is plain, as extra words are |
//!
//! What is proved: exactly the shown words are told, and nothing changes; an action changes exactly
//! the field that it names, of the object that is named, and no mark. Where there is no such field,
//! one of another kind, or null in field `link`, nothing changes. What `PausedBodies` answers and
//! does is what the definitions say of the nodes. What was looked at before a call stands first
//! after it.
//!
//! What is only tested or not said: how long it takes. It looks at the words of the fields alone.
#![tactic(auto)]

mod acted_nodes;
mod acting;
mod fields;
mod paused;
mod shown;

pub use acting::apply;
pub use nodes_in_words::NodeLists;
pub use paused::PausedBodies;
pub use shown::shown_words;
