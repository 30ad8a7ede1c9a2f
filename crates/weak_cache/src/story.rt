// What becomes of a cache when its documents go.

ghost use Rattle.std.specs.Prelude.{◌+◌, ◌*◌, ◌-◌};
ghost use Rattle.oilpan.specs.Handles.{Holds};
ghost use Rattle.oilpan.specs.Frame.{Keeps, KeepsOthers};
ghost use Rattle.weak_cache.specs.Calls.{IsReady};

use crate::cache::{Heap, Runtime, WeakCache};
use anyhow::Result;
use oilpan::Root;

const CACHE: u32 = 0;

const DOCUMENT: u32 = 1;

/// Makes a cache, and tells what it has of its documents.
pub fn tell<R: Runtime>(heap: &mut Heap, rt: R) -> Result<()>
    requires { IsReady 100 heap.old.heap.core }
{
    heap.nodes_are_few();
    let entries = heap.make(&rt, CACHE, 0)?;
    let cache = WeakCache { rt, entries };
    let told = with_documents(heap, &cache, 0);
    let WeakCache { rt, entries } = cache;
    heap.release(&rt, entries);
    told
}

/// Adds this document, and then those after it, and lets it go when they are gone.
fn with_documents<R: Runtime>(heap: &mut Heap, cache: &WeakCache<R>, number: u8) -> Result<()>
    requires ready { IsReady (9 + 20 * (3 - number)) heap.old.heap.core }
    requires cache { Holds heap.old.heap.core.state cache.now.entries }
    ensures { Keeps (9 + 20 * (3 - number)) heap.old.heap.core heap.new.heap.core }
{
    if number >= 3 {
        return tell_heights(heap, cache);
    }
    heap.nodes_are_few();
    let document = heap.make(&cache.rt, DOCUMENT, 0)?;
    let inserted = cache.insert(heap, number, &document, 110 + 10 * u64::from(number));
    let told = with_documents(heap, cache, number + 1);
    let gone = let_go(heap, &cache.rt, number, document);
    inserted.and(told).and(gone)?;
    tell_heights(heap, cache)
}

/// Lets a document go and collects. Tells that it is gone, unless it lives on.
fn let_go<R: Runtime>(heap: &mut Heap, rt: &R, number: u8, document: Root) -> Result<()>
    requires ready { IsReady 6 heap.old.heap.core }
    requires document { Holds heap.old.heap.core.state document }
    ensures { KeepsOthers document 6 heap.old.heap.core heap.new.heap.core }
{
    let weak = heap.weak(rt, &document);
    heap.release(rt, document);
    let weak = weak?;
    let collected = heap.collect(rt);
    let found = heap.upgrade(rt, &weak);
    heap.release_weak(weak);
    match found? {
        Some(document) => heap.release(rt, document),
        None => println!(rt; "document {number} is gone")?,
    }
    Ok(collected?)
}

fn tell_heights<R: Runtime>(heap: &mut Heap, cache: &WeakCache<R>) -> Result<()>
    requires ready { IsReady 9 heap.old.heap.core }
    requires cache { Holds heap.old.heap.core.state cache.now.entries }
    ensures { Keeps 9 heap.old.heap.core heap.new.heap.core }
{
    let first = cache.find(heap, 0)?;
    let second = cache.find(heap, 1)?;
    let third = cache.find(heap, 2)?;
    Ok(println!(cache.rt; "heights {first:?}, {second:?}, {third:?}")?)
}
