// Calls made many times over in one loop, for the benchmarks: a manager can't cross to C, so the loops are here.
// Each returns a sum of what the calls answered, which the benchmark compares with the model's. A loop is one function for
// every owner of a manager, by value or in place, alone or grown.
#![tactic(auto)]

ghost use Rattle.std.specs.Prelude.{◌≡◌, ◌≢◌, ◌≤◌};
ghost use Rattle.manager.specs.declared.Manager.{Manager};
ghost use Rattle.manager.specs.Calls.{job_number_of, after_job, cancel_number_of, after_cancel, round_number_of, after_round, memory_after_round};
ghost use Rattle.manager.specs.Load.{loaded_manager};
ghost use Rattle.loops.specs.Repeated.{kind_of, task_of, cancel_total, job_total, pair_total, busy_manager, info_total};
ghost use Rattle.memory.specs.Numbers.{admission_number};
ghost use Rattle.memory.specs.declared.JobType.TheVariants.{NoJob};
ghost use Rattle.effects.specs.Effects.{memory_of};
ghost use Rattle.loops.specs.Rounds.{answer_numbered, answers_of, left_total, rounds_total, bench_after};

pub mod by_value;
pub mod cutting;
pub mod grown;
pub mod in_place;

use crate::by_value::ByValue;
use manager::Manager;
use memory::{Admission, DeviceAnswer, JobType, LogicalAddress, Task, answer_number};

// Who holds a manager and makes calls on it. The calls in place are inlined into the loops: a loop then hands on the parts of
// the manager that stands in it, with no copy of them.
pub trait Owner: Copy {
    ghost owned: { Self → Manager };

    fn of(manager: Manager) -> Self
        ensures { owned result ≡ manager };

    // One of the five jobs, or a lock request.
    fn submit(&mut self, area: usize, task: Task) -> Admission
        requires { task.kind ≢ NoJob }
        ensures answer_value { admission_number result ≡ job_number_of (owned self.old) area task }
        ensures manager_value { owned self.new ≡ after_job (owned self.old) area task };

    fn cancel(&mut self, area: usize) -> Admission
        ensures answer_value { admission_number result ≡ cancel_number_of (owned self.old) area }
        ensures manager_value { owned self.new ≡ after_cancel (owned self.old) area };

    fn round(&mut self, answers: [DeviceAnswer; 4], image: &mut [u8], store: &mut [u8]) -> Admission
        ensures answer_value { admission_number result ≡ round_number_of (owned self.old) (memory_of image.old store.old) }
        ensures manager_value { owned self.new ≡ after_round (owned self.old) answers (memory_of image.old store.old) }
        ensures image_after { image.new ≡ (memory_after_round (owned self.old) answers (memory_of image.old store.old)).image }
        ensures store_after { store.new ≡ (memory_after_round (owned self.old) answers (memory_of image.old store.old)).store };

    fn manager(&self) -> Manager
        ensures { result ≡ owned self.now };

    // What stands beside the manager, read so that it is carried along to the end: nothing.
    fn rest(&self, times: u32) -> u64
        ensures { result ≡ 0 };
}

// The job type of a number that C hands over.
// stays: `kind` and `answer` come here as numbers, since the contracts of the exported functions (crate timing) speak of `task_of` and `answers_of` of any number.
#[tactic(auto, unfolding(crate::specs::Repeated::kind_of))]
fn kind_of(kind: u8) -> JobType
    ensures value { result ≡ kind_of kind }
    ensures asked { result ≢ NoJob }
{
    match kind {
        1 => JobType::Write,
        2 => JobType::Read,
        3 => JobType::Compare,
        4 => JobType::Erase,
        6 => JobType::BlankCheck,
        _ => JobType::Lock,
    }
}

// A job of the type with this number.
pub(crate) fn task_of(kind: u8, length: u32) -> Task
    ensures value { result ≡ task_of kind length }
    ensures asked { result.kind ≢ NoJob }
{
    Task {
        kind: kind_of(kind),
        address: LogicalAddress(0),
        length,
    }
}

// A job asked of each area.
fn busy(plan: &[u8], kind: u8, length: u32) -> Manager
    ensures { result ≡ busy_manager kind length plan.now }
{
    let mut owner = ByValue::of(Manager::load(plan).manager);
    let task = task_of(kind, length);
    for area in 0..8 {
        let _ = owner.submit(area, task);
    }
    owner.manager()
}

// Cancels of the areas 0 to 7 in turn, on the manager of a load.
pub fn cancels<O: Owner>(plan: &[u8], times: u32) -> u64
    ensures { result ≡ cancel_total (loaded_manager plan.now) times }
{
    let mut owner = O::of(Manager::load(plan).manager);
    let mut sum: u64 = 0;
    for i in 0..times {
        let answer = owner.cancel((i % 8) as usize);
        sum += answer_number(answer) as u64;
    }
    sum + owner.rest(times)
}

// Jobs on the areas in turn: an area that is pending refuses.
pub fn jobs<O: Owner>(plan: &[u8], kind: u8, length: u32, times: u32) -> u64
    ensures { result ≡ job_total kind length (loaded_manager plan.now) times }
{
    let mut owner = O::of(Manager::load(plan).manager);
    let task = task_of(kind, length);
    let mut sum: u64 = 0;
    for i in 0..times {
        let answer = owner.submit((i % 8) as usize, task);
        sum += answer_number(answer) as u64;
    }
    sum + owner.rest(times)
}

// A job, and at once its cancel.
pub fn jobs_and_cancels<O: Owner>(plan: &[u8], kind: u8, length: u32, times: u32) -> u64
    ensures { result ≡ pair_total kind length (loaded_manager plan.now) times }
{
    let mut owner = O::of(Manager::load(plan).manager);
    let task = task_of(kind, length);
    let mut sum: u64 = 0;
    for i in 0..times {
        let area = (i % 8) as usize;
        let begun = owner.submit(area, task);
        let ended = owner.cancel(area);
        sum += answer_number(begun) as u64 + answer_number(ended) as u64;
    }
    sum + owner.rest(times)
}

// Job info of the areas in turn, each with a job.
pub fn infos(plan: &[u8], kind: u8, length: u32, times: u32) -> u64
    ensures { result ≡ info_total (busy_manager kind length plan.now) times }
{
    let manager = busy(plan, kind, length);
    let mut sum: u64 = 0;
    for i in 0..times {
        let asked = manager.job_info((i % 8) as usize);
        let length = asked.map_or(0, |info| info.task.length);
        sum += length as u64;
    }
    sum
}

// What every device answers.
#[tactic(auto, unfolding(crate::specs::Rounds::answer_numbered))]
fn answer_of(number: u32) -> DeviceAnswer
    ensures { result ≡ answer_numbered number }
{
    match number {
        0 => DeviceAnswer::Pending,
        1 => DeviceAnswer::Done,
        _ => DeviceAnswer::Failed(number - 2),
    }
}

// What the jobs of the eight areas have processed and the first eight sub-areas have worn by.
fn left_sum(manager: Manager) -> u64
    ensures value { result ≡ left_total manager 8 }
    ensures upper_bound { result ≤ 68719476720 }
{
    let mut sum: u64 = 0;
    for i in 0..8 {
        let processed = manager.processed(i).unwrap_or(0);
        sum += processed as u64 + manager.wear[i] as u64;
    }
    sum
}

// Rounds on a busy manager: the sum of their numbers and of what is left then.
pub fn rounds<O: Owner>(
    plan: &[u8],
    kind: u8,
    length: u32,
    answer: u32,
    times: u32,
    image: &mut [u8],
    store: &mut [u8],
) -> u64
    ensures value { result ≡ rounds_total (busy_manager kind length plan.now) (memory_of image.old store.old) (answers_of answer) times }
    ensures image_after { image.new ≡ (bench_after (busy_manager kind length plan.now) (memory_of image.old store.old) (answers_of answer) times).lent.image }
    ensures store_after { store.new ≡ (bench_after (busy_manager kind length plan.now) (memory_of image.old store.old) (answers_of answer) times).lent.store }
{
    let mut owner = O::of(busy(plan, kind, length));
    let answers = [answer_of(answer); 4];
    let mut sum: u64 = 0;
    for _turn in 0..times {
        let answer = owner.round(answers, image, store);
        sum += answer_number(answer) as u64;
    }
    sum + owner.rest(times) + left_sum(owner.manager())
}
