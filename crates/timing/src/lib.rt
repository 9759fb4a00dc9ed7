// What the benchmarks link: the loops of crate `loops`, for C and Rust. They are exported from a crate of their own because a library proves its crate anew.
// stays: `kind` and `answer` are numbers, and functions that differ in the owner alone have names of their own, as C calls them.
#![tactic(auto)]

ghost use Rattle.std.specs.Prelude.{◌≡◌};
ghost use Rattle.loops.specs.Repeated.{task_of, cancel_total, job_total, pair_total, busy_manager, info_total};
ghost use Rattle.loops.specs.Cutting.{multiple_count, cut_total, placed_total};
ghost use Rattle.loops.specs.Rounds.{answers_of, rounds_total, bench_after};
ghost use Rattle.manager.specs.Load.{loaded_manager};
ghost use Rattle.effects.specs.Effects.{memory_of};

use loops::by_value::ByValue;
use loops::cutting::{burst_tests, cuts, placed_cuts};
use loops::grown::{Grown, GrownByValue};
use loops::in_place::InPlace;
use loops::{cancels, infos, jobs, jobs_and_cancels, rounds};

// Calls by value.
#[unsafe(no_mangle)]
pub extern "C" fn luvdrog_time_cancels(plan: &[u8], times: u32) -> u64
    ensures { result ≡ cancel_total (loaded_manager plan.now) times }
{
    cancels::<ByValue>(plan, times)
}

#[unsafe(no_mangle)]
pub extern "C" fn luvdrog_time_jobs(plan: &[u8], kind: u8, length: u32, times: u32) -> u64
    ensures { result ≡ job_total kind length (loaded_manager plan.now) times }
{
    jobs::<ByValue>(plan, kind, length, times)
}

#[unsafe(no_mangle)]
pub extern "C" fn luvdrog_time_job_and_cancel(plan: &[u8], kind: u8, length: u32, times: u32) -> u64
    ensures { result ≡ pair_total kind length (loaded_manager plan.now) times }
{
    jobs_and_cancels::<ByValue>(plan, kind, length, times)
}

#[unsafe(no_mangle)]
pub extern "C" fn luvdrog_time_infos(plan: &[u8], kind: u8, length: u32, times: u32) -> u64
    ensures { result ≡ info_total (busy_manager kind length plan.now) times }
{
    infos(plan, kind, length, times)
}

#[unsafe(no_mangle)]
pub extern "C" fn luvdrog_time_rounds(
    plan: &[u8],
    kind: u8,
    length: u32,
    answer: u32,
    times: u32,
    image: &mut [u8],
    store: &mut [u8],
) -> u64
    ensures value { result ≡ rounds_total (busy_manager kind length plan.now) (memory_of image.old store.old) (answers_of answer) times }
    ensures image_after { image.new ≡ (bench_after (busy_manager kind length plan.now) (memory_of image.old store.old) (answers_of answer) times).lent.image }
    ensures store_after { store.new ≡ (bench_after (busy_manager kind length plan.now) (memory_of image.old store.old) (answers_of answer) times).lent.store }
{
    rounds::<ByValue>(plan, kind, length, answer, times, image, store)
}

// An owner in place.
#[unsafe(no_mangle)]
pub extern "C" fn luvdrog_time_cancels_in_place(plan: &[u8], times: u32) -> u64
    ensures { result ≡ cancel_total (loaded_manager plan.now) times }
{
    cancels::<InPlace>(plan, times)
}

#[unsafe(no_mangle)]
pub extern "C" fn luvdrog_time_jobs_in_place(plan: &[u8], kind: u8, length: u32, times: u32) -> u64
    ensures { result ≡ job_total kind length (loaded_manager plan.now) times }
{
    jobs::<InPlace>(plan, kind, length, times)
}

#[unsafe(no_mangle)]
pub extern "C" fn luvdrog_time_job_and_cancel_in_place(
    plan: &[u8],
    kind: u8,
    length: u32,
    times: u32,
) -> u64
    ensures { result ≡ pair_total kind length (loaded_manager plan.now) times }
{
    jobs_and_cancels::<InPlace>(plan, kind, length, times)
}

#[unsafe(no_mangle)]
pub extern "C" fn luvdrog_time_rounds_in_place(
    plan: &[u8],
    kind: u8,
    length: u32,
    answer: u32,
    times: u32,
    image: &mut [u8],
    store: &mut [u8],
) -> u64
    ensures value { result ≡ rounds_total (busy_manager kind length plan.now) (memory_of image.old store.old) (answers_of answer) times }
    ensures image_after { image.new ≡ (bench_after (busy_manager kind length plan.now) (memory_of image.old store.old) (answers_of answer) times).lent.image }
    ensures store_after { store.new ≡ (bench_after (busy_manager kind length plan.now) (memory_of image.old store.old) (answers_of answer) times).lent.store }
{
    rounds::<InPlace>(plan, kind, length, answer, times, image, store)
}

// Both forms on a grown manager.
#[unsafe(no_mangle)]
pub extern "C" fn luvdrog_time_grown_job_and_cancel(
    plan: &[u8],
    kind: u8,
    length: u32,
    times: u32,
) -> u64
    ensures { result ≡ pair_total kind length (loaded_manager plan.now) times }
{
    jobs_and_cancels::<GrownByValue>(plan, kind, length, times)
}

#[unsafe(no_mangle)]
pub extern "C" fn luvdrog_time_grown_rounds(
    plan: &[u8],
    kind: u8,
    length: u32,
    answer: u32,
    times: u32,
    image: &mut [u8],
    store: &mut [u8],
) -> u64
    ensures value { result ≡ rounds_total (busy_manager kind length plan.now) (memory_of image.old store.old) (answers_of answer) times }
    ensures image_after { image.new ≡ (bench_after (busy_manager kind length plan.now) (memory_of image.old store.old) (answers_of answer) times).lent.image }
    ensures store_after { store.new ≡ (bench_after (busy_manager kind length plan.now) (memory_of image.old store.old) (answers_of answer) times).lent.store }
{
    rounds::<GrownByValue>(plan, kind, length, answer, times, image, store)
}

#[unsafe(no_mangle)]
pub extern "C" fn luvdrog_time_grown_job_and_cancel_in_place(
    plan: &[u8],
    kind: u8,
    length: u32,
    times: u32,
) -> u64
    ensures { result ≡ pair_total kind length (loaded_manager plan.now) times }
{
    jobs_and_cancels::<Grown>(plan, kind, length, times)
}

#[unsafe(no_mangle)]
pub extern "C" fn luvdrog_time_grown_rounds_in_place(
    plan: &[u8],
    kind: u8,
    length: u32,
    answer: u32,
    times: u32,
    image: &mut [u8],
    store: &mut [u8],
) -> u64
    ensures value { result ≡ rounds_total (busy_manager kind length plan.now) (memory_of image.old store.old) (answers_of answer) times }
    ensures image_after { image.new ≡ (bench_after (busy_manager kind length plan.now) (memory_of image.old store.old) (answers_of answer) times).lent.image }
    ensures store_after { store.new ≡ (bench_after (busy_manager kind length plan.now) (memory_of image.old store.old) (answers_of answer) times).lent.store }
{
    rounds::<Grown>(plan, kind, length, answer, times, image, store)
}

// Cutting alone.
#[unsafe(no_mangle)]
pub extern "C" fn luvdrog_time_burst_tests(sizes: &[u64], addresses: &[u64]) -> u64
    ensures { result ≡ multiple_count sizes.now addresses.now }
{
    burst_tests(sizes, addresses)
}

#[unsafe(no_mangle)]
pub extern "C" fn luvdrog_time_cuts(plan: &[u8], kind: u8, length: u32, times: u32) -> u64
    ensures { result ≡ cut_total (loaded_manager plan.now).plan (task_of kind length) times }
{
    cuts(plan, kind, length, times)
}

#[unsafe(no_mangle)]
pub extern "C" fn luvdrog_time_placed_cuts(plan: &[u8], kind: u8, length: u32, times: u32) -> u64
    ensures { result ≡ placed_total (loaded_manager plan.now).plan.sub_areas (task_of kind length) times }
{
    placed_cuts(plan, kind, length, times)
}
