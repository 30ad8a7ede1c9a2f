//! # The marking lists
//!
//! What it is: the places of objects that were marked and may still have to be traced, as the owner
//! of a heap keeps them, with the rest of the owner's marking state, and as the owner and several
//! markers share them. It knows nothing of a heap's words.
//!
//! The parts: `Worklist` (a list that grows as it can), `Marking` (whether marking goes on, whether a
//! push was refused, the list), `SharedList` (the owner's list where there are shares), `Share`
//! (another one's: first in first out, to which it alone pushes, and from whose end the others steal,
//! one item that is given and some that move to the thief's own list), `Refused` (what a push hands
//! back), `Tally` (what was put on all lists, taken and left). Inside: `left` and `shared` (a list
//! with shares); `rule`, `ends`, `linking`, `joining`, `family` and `counting` (the ends of one list,
//! how all get them and give them back, and what they have put, taken and moved).
//!
//! What is proved: a push puts its address on the list, or hands it back, counts that, and leaves the
//! list as it was; a pop, for which no share is out, takes one of the addresses, and answers that there
//! is none exactly where the list is empty. A pop and a steal of a share take an item, or find none
//! for one of the causes that their lines tell. Once the shares came in, what was put on all lists
//! was taken or is left, each as often. No call waits, and each share may have a thread of its own.
//!
//! What is only tested or not said: that memory suffices for a push; which address a pop takes, and
//! which of several lists a steal takes from.
#![tactic(auto)]

mod counting;
mod ends;
mod family;
mod joining;
mod left;
mod linking;
mod lists;
mod marking;
mod rule;
mod share;
mod shared;
mod worklist;

pub use lists::{SharedList, Tally};
pub use marking::Marking;
pub use share::{Refused, Share};
pub use worklist::Worklist;
