// The state with which all begins.

ghost use Rattle.std.specs.Prelude.{◌≡◌, ◌*◌, ◌/◌, ◌+◌, IfOk, replicate};
ghost use Rattle.marker_core.specs.Core.{IsCoreOk};
ghost use Rattle.marker_core.specs.Idle.{idle_view, idle_state};
ghost use Rattle.marker_core.specs.Matching.{AreTypes};

use gc_graph::{Kind, NoMemory};
use marker_core::{CoreState, List, MutatorView, idle_is_ok};
use std::alloc::Global;

fn zeros(alloc: Global, n: usize) -> Result<Vec<u64>, NoMemory>
    ensures { IfOk result (λ v. v.items ≡ replicate n 0) }
{
    let words = vec![in alloc; 0u64; n]?;
    Ok(words)
}

fn idle_view(alloc: Global) -> MutatorView
    ensures { result ≡ idle_view }
{
    MutatorView {
        bodies: List::new(alloc),
        dead: List::new(alloc),
        on: false,
        pending: None,
        may: List::new(alloc),
        seen: List::new(alloc),
        marked: List::new(alloc),
        traced: List::new(alloc),
        noted: List::new(alloc),
        hand: None,
        lent: 0,
        filled: List::new(alloc),
        looked: List::new(alloc),
        early: 0,
        done: List::new(alloc),
        missed: List::new(alloc),
    }
}

/// The state of a heap of so many words in which nothing was published. The number of words is a
/// multiple of 64.
pub fn idle_state(alloc: Global, count: u32, types: List<List<Kind>>) -> Result<CoreState, NoMemory>
    requires bits { count ≡ 64 * (count / 64) }
    requires types { AreTypes types }
    ensures state { IfOk result (λ s. s ≡ idle_state count types) }
    ensures ok { IfOk result IsCoreOk }
{
    idle_is_ok();
    let words = zeros(alloc, count as usize + count as usize / 64 + 1)?;
    Ok(CoreState {
        count,
        types,
        words: List::from(words),
        mutator: idle_view(alloc),
        markers: List::new(alloc),
    })
}
