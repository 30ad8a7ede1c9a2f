//! # The threads of a script
//!
//! What it is: the threads of a script, eight at most, with the orders that wait for each, what came of
//! them, and the board by which they read totals. It knows nothing of words, heaps, or a script's text.
//!
//! The parts: `ThreadQueues`. Inside, `all_threads` has what each thread does in turn, and `script_thread`
//! has one, whose orders wait in a `queue`, or which is away; `starting` starts it, with passes of its
//! own, and `working` is what it does there; `returning` waits for threads and joins their passes. Next
//! down are `cross_thread_region`, `heap_stats` and `thread_gate`.
//!
//! What is proved: an order waits behind the others of its thread, or it is refused, since memory is
//! wanting or 2 ^ 27 orders wait, and nothing changed. Threads that go do the orders of their queues,
//! each in order and each once, and make their entries with their own numbers, wherever the lock lets
//! them in. What each order was answered is known at the join and told once, thread after thread; an
//! order that is refused for want of memory leaves no entry. Totals are those of one publication, from
//! the last one before the threads went to the last one before their join, and those of one thread
//! never get older. A join or a dismissal waits for all, and then the first pass has seen just those
//! entries of each thread that the thread's pass has, and no other pass is out. The replies stay to be
//! told until threads go again. Only a new value and an order that is queued take memory of this crate,
//! the room for the order's reply with it; a thread that is refused has its orders done by the caller.
//!
//! What is only tested or not said: that memory suffices for an order or an entry, that a thread is
//! started, and who comes before whom.
#![tactic(auto)]

mod all_threads;
mod endings;
mod published;
mod queue;
mod queues;
mod returning;
mod script_thread;
mod starting;
mod telling;
mod working;

pub use heap_stats::Totals;
pub use queues::ThreadQueues;
