//! # Nodes in words
//!
//! What it is: which body each node of the graph has in a heap's words, for contracts alone. A node
//! that is not finalised has a body whose serial number is the node's number.
//!
//! The parts: `NodeLists`, the ghost list of nodes that the owner of a heap's words keeps beside
//! them, and the definitions in `specs/Nodes.antt`, `Places.antt` and `Judgement.antt`. The other
//! modules of `specs/` are lemmas on these, for the crates above, which can't cite a crate's proofs.
//!
//! What is proved: that the words hold the nodes is `IsHeld`; the crates above, which change words,
//! keep it.
//!
//! What is only tested or not said: nothing.
#![tactic(auto)]

mod lists;

pub use lists::NodeLists;
pub use page_space::Space;
