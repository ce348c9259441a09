ghost use Rattle.std.specs.Prelude.{◌≡◌, ◌≤◌, ◌<◌, ℕ, IfOk, slice_index_or, vec_len};
ghost use Rattle.std.specs.List.{All};

use crate::{HintPass, Hints};
use std::alloc::AllocError;
use std::sync::Wait;
use std::sync::atomic::{AtomicU32, Ordering};
use std::test::Fail;
use std::thread::{Threads, map_vec};

// What the threads saw.
#[derive(Drop)]
struct Watch {
    // How many of them began.
    begun: AtomicU32,
    pushed: AtomicU32,
    taken: AtomicU32,
    // The sums of the pages pushed and taken.
    pushed_sum: AtomicU32,
    taken_sum: AtomicU32,
    // How many pages came before an earlier one of the same pass.
    early: AtomicU32,
}

// Puts 20 pages, in their order.
fn put_pages<R: Wait>(
    rt: &R,
    hints: &Hints,
    watch: &Watch,
    mut pass: HintPass,
    first: u32,
) -> HintPass
    requires pass { pass.queue ≡ hints.now }
    requires pages { hints.now.pages ≡ 1280 }
    requires first { first ≤ 1260 }
    ensures { (result.queue ≡ hints.now) × (result.number ≡ pass.number) }
{
    for page in first..first + 20 {
        let (next, room) = hints.push(rt, pass, page);
        pass = next;
        if room {
            watch.pushed.fetch_add(1, Ordering::SeqCst);
            watch.pushed_sum.fetch_add(page, Ordering::SeqCst);
        }
    }
    pass
}

// Takes up to 20 pages. Those of one pass come in its order.
fn take_pages<R: Wait>(rt: &R, hints: &Hints, watch: &Watch, mut pass: HintPass) -> HintPass
    requires { pass.queue ≡ hints.now }
    ensures { (result.queue ≡ hints.now) × (result.number ≡ pass.number) }
{
    let mut least = [0u32; 32];
    for _ in 0..20 {
        let (next, found) = hints.pop(rt, pass);
        pass = next;
        if let Some(page) = found {
            watch.taken.fetch_add(1, Ordering::SeqCst);
            watch.taken_sum.fetch_add(page, Ordering::SeqCst);
            let pusher = (page / 40 % 32) as usize;
            if page < least[pusher] {
                watch.early.fetch_add(1, Ordering::SeqCst);
            }
            least[pusher] = page;
        }
    }
    pass
}

// Puts 40 pages, and takes as many where they are there.
fn work<R: Wait>(rt: &R, hints: &Hints, watch: &Watch, pass: HintPass) -> HintPass
    requires pass { pass.queue ≡ hints.now }
    requires pages { hints.now.pages ≡ 1280 }
    ensures { (result.queue ≡ hints.now) × (result.number ≡ pass.number) }
{
    let first = watch.begun.fetch_add(1, Ordering::SeqCst) % 32 * 40;
    let pass = put_pages(rt, hints, watch, pass, first);
    let pass = take_pages(rt, hints, watch, pass);
    let pass = put_pages(rt, hints, watch, pass, first + 20);
    take_pages(rt, hints, watch, pass)
}

// Each pass works in a thread of its own.
fn all_work<R: Threads + Wait + Sync>(
    rt: &R,
    hints: &Hints,
    watch: &Watch,
    passes: Vec<HintPass>,
) -> Result<Vec<HintPass>, AllocError>
    requires passes { All (λ pass. pass.queue ≡ hints.now) passes.items }
    requires pages { hints.now.pages ≡ 1280 }
    ensures len { IfOk result (λ after. vec_len after ≡ vec_len passes) }
    ensures each { IfOk result (λ after. (i : ℕ) (d : _) → i < vec_len passes → ((slice_index_or after.items i d).queue ≡ hints.now) × ((slice_index_or after.items i d).number ≡ (slice_index_or passes.items i d).number)) }
{
    map_vec(rt, passes, &|pass| work(rt, hints, watch, pass))
}

// Each pass takes what is left, in a thread of its own.
fn all_take<R: Threads + Wait + Sync>(
    rt: &R,
    hints: &Hints,
    watch: &Watch,
    passes: Vec<HintPass>,
) -> Result<Vec<HintPass>, AllocError>
    requires { All (λ pass. pass.queue ≡ hints.now) passes.items }
    ensures len { IfOk result (λ after. vec_len after ≡ vec_len passes) }
    ensures each { IfOk result (λ after. (i : ℕ) (d : _) → i < vec_len passes → ((slice_index_or after.items i d).queue ≡ hints.now) × ((slice_index_or after.items i d).number ≡ (slice_index_or passes.items i d).number)) }
{
    map_vec(rt, passes, &|pass| take_pages(rt, hints, watch, pass))
}

#[test]
fn pages_of_each_pass_come_in_its_order(rt: HostRuntime) -> Result<(), Fail> {
    let watch = Watch {
        begun: AtomicU32::new(0),
        pushed: AtomicU32::new(0),
        taken: AtomicU32::new(0),
        pushed_sum: AtomicU32::new(0),
        taken_sum: AtomicU32::new(0),
        early: AtomicU32::new(0),
    };
    let (hints, passes) = Hints::new(rt.alloc(), 32, 1280)?;
    let passes = all_work(&rt, &hints, &watch, passes)?;
    let passes = all_take(&rt, &hints, &watch, passes)?;
    hints.close(&rt, passes);
    let pushed = watch.pushed.load(Ordering::SeqCst);
    assert_eq!(rt; watch.begun.load(Ordering::SeqCst), 32);
    assert!(rt; 256 <= pushed && pushed <= 1280, "{pushed} pages");
    assert_eq!(rt; watch.taken.load(Ordering::SeqCst), pushed);
    assert_eq!(rt;
        watch.taken_sum.load(Ordering::SeqCst),
        watch.pushed_sum.load(Ordering::SeqCst)
    );
    assert_eq!(rt; watch.early.load(Ordering::SeqCst), 0);
    Ok(())
}
