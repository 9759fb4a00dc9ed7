// A running request takes its device's answer: what it does to image and store, to the job and to the device.
#![tactic(auto)]

ghost use Rattle.std.specs.Prelude.{◌≡◌, ◌+◌, ◌≤◌, leb, length};
ghost use Rattle.rules.specs.Memory.{verdict_of, answered_memory};
ghost use Rattle.effects.specs.Effects.{verdict, lent_end, memory_of};
ghost use Rattle.requests.specs.Requests.{taken_state, next_of, finished_with, taken_with, due_with};

use effects::{Outcome, Request};
use jobs::{job_differs, job_failed, job_finished};
use memory::{DeviceAnswer, LogicalAddress};
use plan::records::SubAreaRecord;
use segment::{Segment, no_segment, segment_from};
use state::{DeviceState, Job};

// A job, its due segment and its device when the job's request has taken an answer.
#[derive(Clone, Copy)]
pub struct Taken {
    pub job: Job,
    pub due: Segment,
    pub state: DeviceState,
}

// With one poll more, is the request at its limit?
fn is_dropped(polls: u16, limit: u16) -> bool
    ensures { result ≡ leb limit (polls + 1) }
{
    limit as u32 <= (polls as u32) + 1
}

// The segment behind the due one, which a request that is done makes due; none behind the last.
pub fn next_segment(
    answer: DeviceAnswer,
    sub_areas: [SubAreaRecord; 32],
    count: usize,
    start: LogicalAddress,
    area: usize,
    job: Job,
    due: Segment,
) -> Segment
    requires { (count ≤ 32) × (job.processed + due.length ≤ job.task.length) }
    ensures { result ≡ next_of answer sub_areas count start.0 area job due }
{
    match answer {
        DeviceAnswer::Pending | DeviceAnswer::Failed(_) => no_segment(),
        DeviceAnswer::Done => {
            let upto = (job.processed as u64 + due.length) as u32;
            if job.task.length <= upto {
                no_segment()
            } else {
                segment_from(&sub_areas[..count], start, area, job.task, upto)
            }
        }
    }
}

fn finished_job(job: Job, length: u64, retries: u8) -> Job
    requires { job.processed + length ≤ job.task.length }
    ensures { result ≡ finished_with length retries job }
{
    let upto = (job.processed as u64 + length) as u32;
    job_finished(job, upto, retries)
}

fn taken_job(job: Job, length: u64, retries: u8, outcome: Outcome, dropped: bool) -> Job
    requires { job.processed + length ≤ job.task.length }
    ensures { result ≡ taken_with length retries (verdict outcome) dropped job }
{
    match outcome {
        Outcome::GoesOn if !dropped => job,
        Outcome::GoesOn | Outcome::Failed => job_failed(job),
        Outcome::Finished => finished_job(job, length, retries),
        Outcome::Differs => job_differs(job),
    }
}

fn taken_due(due: Segment, next: Segment, outcome: Outcome) -> Segment
    ensures { result ≡ due_with due next (verdict outcome) }
{
    match outcome {
        Outcome::Finished => next,
        Outcome::GoesOn | Outcome::Differs | Outcome::Failed => due,
    }
}

fn taken_state(area: u8, polls: u16, limit: u16, outcome: Outcome) -> DeviceState
    ensures { result ≡ taken_state area polls (verdict outcome) (leb limit (polls + 1)) }
{
    match outcome {
        Outcome::GoesOn if !is_dropped(polls, limit) => DeviceState::Runs {
            area,
            polls: polls + 1,
        },
        Outcome::GoesOn | Outcome::Finished | Outcome::Differs | Outcome::Failed => {
            DeviceState::Free
        }
    }
}

// The request that a device with this poll limit runs for an area takes its answer: it is the due segment of the area's job,
// `next` is the one behind, and the area's window starts at `window` in the store. `clears`: the device only clears bits.
pub fn take_request(
    window: u32,
    limit: u16,
    clears: bool,
    area: u8,
    polls: u16,
    job: Job,
    due: Segment,
    next: Segment,
    answer: DeviceAnswer,
    image: &mut [u8],
    store: &mut [u8],
) -> Taken
    requires { (due.start.0 + due.length ≤ length image.old) × (lent_end job.task.kind (window + job.processed) due.length ≤ length store.old) × (job.processed + due.length ≤ job.task.length) }
    ensures job_value { result.job ≡ taken_with due.length next.retries (verdict_of answer job.task.kind due.start.0 (window + job.processed) due.length (memory_of image.old store.old)) (leb limit (polls + 1)) job }
    ensures due_value { result.due ≡ due_with due next (verdict_of answer job.task.kind due.start.0 (window + job.processed) due.length (memory_of image.old store.old)) }
    ensures state_value { result.state ≡ taken_state area polls (verdict_of answer job.task.kind due.start.0 (window + job.processed) due.length (memory_of image.old store.old)) (leb limit (polls + 1)) }
    ensures image_after { image.new ≡ (answered_memory clears answer job.task.kind due.start.0 (window + job.processed) due.length (memory_of image.old store.old)).image }
    ensures store_after { store.new ≡ (answered_memory clears answer job.task.kind due.start.0 (window + job.processed) due.length (memory_of image.old store.old)).store }
{
    let request = Request {
        kind: job.task.kind,
        clears,
        at: due.start.0 as usize,
        window: window as usize + job.processed as usize,
        n: due.length as usize,
    };
    let outcome = request.take_effect(answer, image, store);
    let dropped = is_dropped(polls, limit);
    Taken {
        job: taken_job(job, due.length, next.retries, outcome, dropped),
        due: taken_due(due, next, outcome),
        state: taken_state(area, polls, limit, outcome),
    }
}
