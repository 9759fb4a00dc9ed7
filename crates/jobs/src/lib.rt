// A job from its acceptance to its end.
#![tactic(auto)]

pub mod ranks;

ghost use Rattle.std.specs.Prelude.{◌≡◌, ◌-◌, leb};
ghost use Rattle.rules.specs.Machine.{is_pending, is_cancelling, begun_with, ended, cancelled, moved, job_failed, job_differs, after_finished};

use memory::{JobResult, JobStatus, Task};
use state::Job;

pub fn is_pending(job: Job) -> bool
    ensures { result ≡ is_pending job }
{
    matches!(job.status, JobStatus::Pending | JobStatus::Cancelling)
}

fn is_cancelling(job: Job) -> bool
    ensures { result ≡ is_cancelling job.status }
{
    matches!(job.status, JobStatus::Cancelling)
}

// The job of an accepted task, whose first segment may take so many retries. The old result stands until it ends.
pub fn begun(task: Task, retries: u8, old: Job) -> Job
    ensures { result ≡ begun_with retries task old }
{
    Job {
        task,
        processed: 0,
        retries_left: retries,
        status: JobStatus::Pending,
        ..old
    }
}

pub fn ended(job: Job, given: JobResult) -> Job
    ensures { result ≡ ended given.0 job }
{
    Job {
        status: JobStatus::Idle,
        result: given,
        ..job
    }
}

pub fn cancelled(job: Job) -> Job
    ensures { result ≡ cancelled job }
{
    Job {
        status: JobStatus::Cancelling,
        ..job
    }
}

fn moved(job: Job, processed: u32, retries: u8) -> Job
    ensures { result ≡ moved processed retries job }
{
    Job {
        processed,
        retries_left: retries,
        ..job
    }
}

// After a request that failed.
#[tactic(auto, unfolding(rules::specs::Machine::job_failed))]
pub fn job_failed(job: Job) -> Job
    ensures { result ≡ job_failed job }
{
    if is_cancelling(job) {
        return ended(job, JobResult::CANCELED);
    }
    if job.retries_left == 0 {
        return ended(job, JobResult::FAILED);
    }
    moved(job, job.processed, job.retries_left - 1)
}

// After a request that was done with a byte that differs.
#[tactic(auto, unfolding(rules::specs::Machine::job_differs))]
pub fn job_differs(job: Job) -> Job
    ensures { result ≡ job_differs job }
{
    if is_cancelling(job) {
        return ended(job, JobResult::CANCELED);
    }
    ended(job, JobResult::INCONSISTENT)
}

// After a request that was done: the processed length is now `upto`, and the next segment may take so many retries.
pub fn job_finished(job: Job, upto: u32, retries: u8) -> Job
    ensures { result ≡ after_finished (is_cancelling job.status) (leb job.task.length upto) upto retries job }
{
    let last = moved(job, upto, job.retries_left);
    if is_cancelling(job) {
        return ended(last, JobResult::CANCELED);
    }
    if job.task.length <= upto {
        return ended(last, JobResult::OK);
    }
    moved(job, upto, retries)
}
