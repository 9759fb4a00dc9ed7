// The audit of a plan and a list of jobs: the jobs of the lines, and what is known of each.
#![tactic(auto)]

ghost use Rattle.std.specs.Prelude.{true, false, List, ◌≡◌, ◌+◌, ◌<◌, min, length};
ghost use Rattle.job_rows.specs.JobRows.{too_large};
ghost use Rattle.manager.specs.Calls.{job_number_of};
ghost use Rattle.rules.specs.statements.JobSets.{AreaJob, may_rank_above, job_above, jobs_above, job_locks, any_locks};
ghost use Rattle.segment.specs.Segments.{is_lock};
ghost use Rattle.session.specs.AllLines.{lines_of};
ghost use Rattle.audits.specs.Audits.{job_of_call, job_of_line, jobs_in, facts_of, unreadable_row};
ghost use Rattle.audits.specs.laws.LoadLaws.{Loaded};
ghost use Rattle.audits.specs.laws.LineLaws.{NextJob};
ghost use Rattle.audits.specs.laws.TableLaws.{Tabled};

pub mod fill;

use figures::job_bounds;
use job_rows::{JobFacts, figure_sum};
use lines::{Line, line_of, part_end};
use manager::Manager;
use manager::in_place::job_change;
use memory::{Task, answer_number};
use plan::records::Plan;
use plan_rows::is_on;
use rows::{Form, JobForm, Row};
use segment::{is_lock, segment_at};
use session::play::{PlainCall, plain_of};

// A job of an area.
#[derive(Clone, Copy)]
pub struct ListedJob {
    pub area: u32,
    pub task: Task,
}

fn job_of_call(call: PlainCall) -> Option<ListedJob>
    ensures { result ≡ job_of_call call }
{
    match call {
        PlainCall::Job { area, task } => Some(ListedJob { area, task }),
        PlainCall::Release(_) | PlainCall::Cancel(_) => None,
    }
}

// The job of a line, if it is one.
fn job_of_line(line: Option<Line>) -> Option<ListedJob>
    ensures { result ≡ job_of_line line }
{
    match line {
        Some(Line::Call(call)) => job_of_call(plain_of(call)),
        _ => None,
    }
}

// The job of a line, and where the next line begins.
#[derive(Clone, Copy)]
pub struct JobAt {
    pub job: Option<ListedJob>,
    pub next: usize,
}

pub fn next_job(input: &[u8], at: usize, devices: usize) -> JobAt
    requires { at < length input.now }
    ensures { NextJob input.now at devices result }
{
    let to = part_end(input, b'\n', at);
    JobAt {
        job: job_of_line(line_of(&input[at..to], devices)),
        next: to + 1,
    }
}

// The number that the manager answers to a job.
fn number_of(manager: Manager, area: usize, task: Task) -> u8
    ensures { result ≡ job_number_of manager area task }
{
    let change = job_change(
        manager.plan,
        manager.areas,
        manager.devices,
        manager.ages,
        area,
        task,
    );
    answer_number(change.answer)
}

// May a job of area b rank above one of area a?
fn may_rank_above(plan: Plan, b: usize, a: usize) -> bool
    requires { (a < 8) × (b < 8) }
    ensures { result ≡ may_rank_above plan b a }
{
    b != a && plan.areas[a].priority <= plan.areas[b].priority
}

// What a job can add to above of one of area a: its own bound.
fn job_above(manager: Manager, a: usize, area: usize, task: Task) -> u64
    requires { Loaded manager × (a < 8) }
    ensures { result ≡ job_above manager.plan a (record { area = area; task = task }) }
{
    if 0 < number_of(manager, area, task) {
        return 0;
    }
    if !may_rank_above(manager.plan, area, a) {
        return 0;
    }
    job_bounds(manager.plan, area, task).own
}

// Does a lock request that can be given name a device that area a is on?
fn names_device(manager: Manager, a: usize, area: usize, task: Task) -> bool
    requires { Loaded manager × (is_lock task.kind ≡ true) }
    ensures { result ≡ job_locks manager.plan a (record { area = area; task = task }) }
{
    if 0 < number_of(manager, area, task) {
        return false;
    }
    let first = segment_at(manager.plan, area, task, 0);
    is_on(manager.plan, a, first.device as usize)
}

// Does a job lock a device that area a is on?
fn job_locks(manager: Manager, a: usize, area: usize, task: Task) -> bool
    requires { Loaded manager }
    ensures { result ≡ job_locks manager.plan a (record { area = area; task = task }) }
{
    is_lock(task.kind) && names_device(manager, a, area, task)
}

// What the jobs of the list can add to above of a job of area a.
pub fn jobs_above(manager: Manager, input: &[u8], a: usize) -> u64
    requires { Loaded manager × (a < 8) }
    ensures { result ≡ min (jobs_above manager.plan a (jobs_in manager.plan.device_count (lines_of true input.now))) too_large }
{
    let mut sum = 0;
    let mut at = 0;
    while at < input.len() {
        let found = next_job(input, at, manager.plan.device_count);
        at = found.next;
        match found.job {
            None => continue,
            Some(job) => {
                sum = figure_sum(sum, job_above(manager, a, job.area as usize, job.task));
            }
        }
    }
    sum
}

// Does a job of the list lock a device that area a is on?
pub fn any_locks(manager: Manager, input: &[u8], a: usize) -> bool
    requires { Loaded manager }
    ensures { result ≡ any_locks manager.plan a (jobs_in manager.plan.device_count (lines_of true input.now)) }
{
    let mut at = 0;
    while at < input.len() {
        let found = next_job(input, at, manager.plan.device_count);
        at = found.next;
        match found.job {
            None => continue,
            Some(job) => {
                if job_locks(manager, a, job.area as usize, job.task) {
                    return true;
                }
            }
        }
    }
    false
}

// What the list adds to the wait of the jobs of an area.
#[derive(Clone, Copy, Default)]
pub struct Added {
    pub above: u64,
    pub locks: bool,
}

// The same for each area.
pub type Table = [Added; 8];

pub fn table_of(manager: Manager, input: &[u8]) -> Table
    requires { Loaded manager }
    ensures { Tabled manager (jobs_in manager.plan.device_count (lines_of true input.now)) result }
{
    let mut table = [Added::default(); 8];
    for a in 0..8 {
        table[a] = Added {
            above: jobs_above(manager, input, a),
            locks: any_locks(manager, input, a),
        };
    }
    table
}

// The row of a line that is no job.
pub fn unreadable_row() -> Row
    ensures { result ≡ unreadable_row }
{
    Row {
        form: Form::OfJob(JobForm::Unreadable),
        numbers: [0; 8],
    }
}

// What is known of a job.
pub fn job_facts(manager: Manager, table: Table, area: usize, task: Task) -> JobFacts
    requires { Loaded manager }
    ensures { (js : List AreaJob) → Tabled manager js table → result ≡ facts_of manager js area task }
{
    let number = number_of(manager, area, task);
    if 0 < number {
        return JobFacts {
            number,
            ..JobFacts::default()
        };
    }
    let added = table[area];
    JobFacts {
        number,
        bounds: job_bounds(manager.plan, area, task),
        above: added.above,
        locks: added.locks,
    }
}
