// The rows of a job: what the auditor's program says of it, a row at a time.
#![tactic(auto)]

ghost use Rattle.std.specs.Prelude.{true, false, [], ◌∷◌, ◌≡◌, ◌+◌, ◌≤◌, ◌<◌, min, length, MatchOption};
ghost use Rattle.figures.specs.Figures.{Audited};
ghost use Rattle.rows.specs.Rows.{rows_text};
ghost use Rattle.rows.specs.Written.{PrintsPart};
ghost use Rattle.texts.specs.Pages.{room};
ghost use Rattle.segment.specs.Segments.{is_lock};
ghost use Rattle.job_rows.specs.JobRows.{head_form, head_row, refused_row, image_form, image_row, window_form, window_row, stretch_row, segment_row, above_row, locked_row, rounds_row, too_large, rounds_most};
ghost use Rattle.job_rows.specs.Cursors.{rows_left, foot_index, AtSegment, AtRow, is_end, Fits};
ghost use Rattle.job_rows.specs.laws.JobRowLaws.{StepDone, foot_at, behind_foot, head_step, foot_step};
ghost use Rattle.job_rows.specs.declared.CutPoint.{CutPoint};
ghost use Rattle.job_rows.specs.declared.Cursor.TheVariants.{Image, Window, Cut, End};
ghost use Rattle.job_rows.specs.declared.JobFacts.{JobFacts};

use figures::{Bounds, Range, factor_of, next_range, record_of, span_most, try_rounds};
use memory::{JobType, Task};
use plan::records::Plan;
use rows::{Form, JobForm, ReachForm, Row, WaitForm, print_row};
use segment::{Segment, is_lock, segment_at};
use texts::page::Page;

// What is known of a job: the number that a fresh manager answers, its bounds, and of the jobs of the list what they add to its above and whether one locks a
// device of its area.
// stays: `number` is what the refused row prints, 0 of an admitted job (definition `facts_of` of audits).
#[derive(Clone, Copy, Default)]
pub struct JobFacts {
    pub number: u8,
    pub bounds: Bounds,
    pub above: u64,
    pub locks: bool,
}

// The cut of a job from byte `at` on: so many segments and stretches stand before it, the last stretch on device `last`.
#[derive(Clone, Copy, Default)]
pub struct CutPoint {
    pub at: u32,
    pub last: Option<u8>,
    pub segments: u32,
    pub spans: u32,
}

// The rows of the foot.
#[derive(Clone, Copy)]
pub enum Foot {
    Counts,
    Own,
    Below,
    Above,
    Locked,
    Rounds,
}

// Where the rows of a job are: at its head, its refusal, the image range from a byte on, the window, a stretch or a segment of its cut, a row of the foot, or at the end.
#[derive(Clone, Copy)]
pub enum Cursor {
    Head,
    Refused,
    Image(u32),
    Window,
    Cut(CutPoint),
    Foot(Foot),
    End,
}

// A row, and where the next one is.
#[derive(Clone, Copy)]
pub struct Step {
    pub row: Row,
    pub cursor: Cursor,
}

fn head_form(kind: JobType) -> JobForm
    ensures { result ≡ head_form kind }
{
    match kind {
        JobType::Write => JobForm::Write,
        JobType::Read => JobForm::Read,
        JobType::Compare => JobForm::Compare,
        JobType::Erase => JobForm::Erase,
        JobType::BlankCheck => JobForm::BlankCheck,
        JobType::Lock => JobForm::Lock,
        JobType::NoJob => JobForm::Unreadable,
    }
}

fn head_row(area: usize, task: Task) -> Row
    ensures { result ≡ head_row area task }
{
    Row {
        form: Form::OfJob(head_form(task.kind)),
        numbers: [
            area as u64,
            task.address.0 as u64,
            task.length as u64,
            0,
            0,
            0,
            0,
            0,
        ],
    }
}

fn refused_row(number: u8) -> Row
    ensures { result ≡ refused_row number }
{
    Row {
        form: Form::OfJob(JobForm::Refused),
        numbers: [number as u64, 0, 0, 0, 0, 0, 0, 0],
    }
}

fn image_form(kind: JobType) -> ReachForm
    ensures { result ≡ image_form kind }
{
    match kind {
        JobType::Write | JobType::Erase => ReachForm::ImageChanged,
        JobType::Read | JobType::Compare | JobType::BlankCheck => ReachForm::ImageRead,
        JobType::Lock | JobType::NoJob => ReachForm::ImageNone,
    }
}

fn image_row(kind: JobType, range: Range) -> Row
    requires { (1 ≤ range.length) × (range.start + range.length ≤ 16777216) }
    ensures { result ≡ image_row kind range }
{
    let last = range.start + range.length - 1;
    Row {
        form: Form::OfReach(image_form(kind)),
        numbers: [range.device as u64, range.start, last, 0, 0, 0, 0, 0],
    }
}

// A row of a form without numbers.
fn plain_row(form: Form) -> Row
    ensures { result ≡ record { form = form; numbers = 0 ∷ 0 ∷ 0 ∷ 0 ∷ 0 ∷ 0 ∷ 0 ∷ 0 ∷ [] } }
{
    Row {
        form,
        numbers: [0; 8],
    }
}

fn window_form(kind: JobType) -> ReachForm
    ensures { result ≡ window_form kind }
{
    match kind {
        JobType::Read => ReachForm::WindowChanged,
        JobType::Write | JobType::Compare => ReachForm::WindowRead,
        JobType::Erase | JobType::BlankCheck | JobType::Lock | JobType::NoJob => {
            ReachForm::WindowNone
        }
    }
}

fn window_row(plan: Plan, area: usize, task: Task) -> Row
    requires { (area < 8) × (1 ≤ task.length) }
    ensures { result ≡ window_row plan area task }
{
    let start = plan.areas[area].window.start as u64;
    let last = start + task.length as u64 - 1;
    Row {
        form: Form::OfReach(window_form(task.kind)),
        numbers: [start, last, 0, 0, 0, 0, 0, 0],
    }
}

#[tactic(auto, unfolding(rules::specs::Layout::layout_of))]
fn stretch_row(plan: Plan, n: u64, device: u8) -> Row
    requires { device < 4 }
    ensures { result ≡ stretch_row plan n device }
{
    let record = record_of(plan, device);
    Row {
        form: Form::OfReach(ReachForm::Stretch),
        numbers: [
            n,
            device as u64,
            factor_of(record.suspends),
            record.poll_limit as u64,
            span_most(record),
            0,
            0,
            0,
        ],
    }
}

#[tactic(auto, unfolding(rules::specs::Layout::layout_of))]
fn segment_row(plan: Plan, n: u64, segment: Segment) -> Row
    requires { (segment.device < 4) × (1 ≤ segment.length) × (segment.start.0 + segment.length ≤ 16777216) }
    ensures { result ≡ segment_row plan n segment }
{
    let limit = record_of(plan, segment.device).poll_limit;
    let start = segment.start.0;
    let tries = segment.retries as u64 + 1;
    Row {
        form: Form::OfReach(ReachForm::Segment),
        numbers: [
            n,
            segment.device as u64,
            start,
            start + segment.length - 1,
            tries,
            limit as u64,
            tries,
            try_rounds(limit, segment.retries),
        ],
    }
}

fn head_step(area: usize, task: Task, facts: JobFacts) -> Step
    ensures { result ≡ head_step area task facts }
{
    Step {
        row: head_row(area, task),
        cursor: if facts.number == 0 {
            Cursor::Image(0)
        } else {
            Cursor::Refused
        },
    }
}

// A lock request reaches no byte.
fn image_step(plan: Plan, area: usize, task: Task, x: u32) -> Step
    requires { AtSegment plan area task x }
    ensures { (f : JobFacts) → StepDone plan area task f (Image x) result }
{
    if is_lock(task.kind) {
        return Step {
            row: plain_row(Form::OfReach(ReachForm::ImageNone)),
            cursor: Cursor::Window,
        };
    }
    let found = next_range(plan, area, task, x);
    Step {
        row: image_row(task.kind, found.range),
        cursor: if found.next < task.length {
            Cursor::Image(found.next)
        } else {
            Cursor::Window
        },
    }
}

fn window_step(plan: Plan, area: usize, task: Task) -> Step
    requires { Audited plan area task }
    ensures { (f : JobFacts) → StepDone plan area task f Window result }
{
    Step {
        row: window_row(plan, area, task),
        cursor: Cursor::Cut(CutPoint::default()),
    }
}

// The stretch of a lock request.
fn lock_step(plan: Plan, area: usize, task: Task) -> Step
    requires { Audited plan area task × (is_lock task.kind ≡ true) }
    ensures { (f : JobFacts) (cut : CutPoint) → StepDone plan area task f (Cut cut) result }
{
    let first = segment_at(plan, area, task, 0);
    Step {
        row: stretch_row(plan, 1, first.device),
        cursor: Cursor::Foot(Foot::Counts),
    }
}

// A stretch before its first segment, or a segment.
fn cut_step(plan: Plan, area: usize, task: Task, cut: CutPoint) -> Step
    requires { AtRow plan area task cut × (is_lock task.kind ≡ false) }
    ensures { (f : JobFacts) → StepDone plan area task f (Cut cut) result }
{
    let segment = segment_at(plan, area, task, cut.at);
    if cut.last == Some(segment.device) {
        let next = cut.at + segment.length as u32;
        return Step {
            row: segment_row(plan, cut.segments as u64 + 1, segment),
            cursor: if next < task.length {
                Cursor::Cut(CutPoint {
                    at: next,
                    segments: cut.segments + 1,
                    ..cut
                })
            } else {
                Cursor::Foot(Foot::Counts)
            },
        };
    }
    Step {
        row: stretch_row(plan, cut.spans as u64 + 1, segment.device),
        cursor: Cursor::Cut(CutPoint {
            last: Some(segment.device),
            spans: cut.spans + 1,
            ..cut
        }),
    }
}

// A sum of figures; from the largest number on they do not fit.
pub fn figure_sum(a: u64, b: u64) -> u64
    ensures { result ≡ min (a + b) too_large }
{
    a.saturating_add(b)
}

fn above_row(facts: JobFacts) -> Row
    ensures { result ≡ above_row facts }
{
    if facts.above == u64::MAX {
        return plain_row(Form::OfWait(WaitForm::AboveOver));
    }
    Row {
        form: Form::OfWait(WaitForm::Above),
        numbers: [facts.above, 0, 0, 0, 0, 0, 0, 0],
    }
}

fn locked_row(facts: JobFacts) -> Row
    ensures { result ≡ locked_row facts }
{
    plain_row(Form::OfWait(if facts.locks {
        WaitForm::LockedSome
    } else {
        WaitForm::LockedNone
    }))
}

fn rounds_most(facts: JobFacts) -> u64
    ensures { result ≡ rounds_most facts }
{
    let running = figure_sum(facts.bounds.own, facts.above);
    let waiting = figure_sum(running, facts.bounds.below);
    figure_sum(waiting, 1)
}

fn rounds_row(facts: JobFacts) -> Row
    ensures { result ≡ rounds_row facts }
{
    let bounds = facts.bounds;
    let most = rounds_most(facts);
    if facts.locks || most == u64::MAX {
        return plain_row(Form::OfWait(WaitForm::RoundsNone));
    }
    Row {
        form: Form::OfWait(WaitForm::Rounds),
        numbers: [bounds.own, facts.above, bounds.below, most, 0, 0, 0, 0],
    }
}

fn foot_row(facts: JobFacts, foot: Foot) -> Row
    ensures { result ≡ foot_at facts (foot_index foot) }
{
    let bounds = facts.bounds;
    match foot {
        Foot::Counts => Row {
            form: Form::OfReach(ReachForm::Counts),
            numbers: [bounds.segments, bounds.spans, 0, 0, 0, 0, 0, 0],
        },
        Foot::Own => Row {
            form: Form::OfWait(WaitForm::Own),
            numbers: [bounds.own, 0, 0, 0, 0, 0, 0, 0],
        },
        Foot::Below => Row {
            form: Form::OfWait(WaitForm::Below),
            numbers: [bounds.below, 0, 0, 0, 0, 0, 0, 0],
        },
        Foot::Above => above_row(facts),
        Foot::Locked => locked_row(facts),
        Foot::Rounds => rounds_row(facts),
    }
}

// Where the next row is.
fn behind_foot(foot: Foot) -> Cursor
    ensures { result ≡ behind_foot foot }
{
    match foot {
        Foot::Counts => Cursor::Foot(Foot::Own),
        Foot::Own => Cursor::Foot(Foot::Below),
        Foot::Below => Cursor::Foot(Foot::Above),
        Foot::Above => Cursor::Foot(Foot::Locked),
        Foot::Locked => Cursor::Foot(Foot::Rounds),
        Foot::Rounds => Cursor::End,
    }
}

fn foot_step(facts: JobFacts, foot: Foot) -> Step
    ensures { result ≡ foot_step facts foot }
{
    Step {
        row: foot_row(facts, foot),
        cursor: behind_foot(foot),
    }
}

pub fn is_over(cursor: Cursor) -> bool
    ensures { result ≡ is_end cursor }
{
    matches!(cursor, Cursor::End)
}

// A lock request has one stretch and no segment.
fn segment_step(plan: Plan, area: usize, task: Task, cut: CutPoint) -> Step
    requires { AtRow plan area task cut }
    ensures { (f : JobFacts) → StepDone plan area task f (Cut cut) result }
{
    if is_lock(task.kind) {
        lock_step(plan, area, task)
    } else {
        cut_step(plan, area, task, cut)
    }
}

fn refused_step(facts: JobFacts) -> Step
    ensures { result ≡ record { row = refused_row facts.number; cursor = End } }
{
    Step {
        row: refused_row(facts.number),
        cursor: Cursor::End,
    }
}

// The row at a cursor, and where the next one is; none at the end.
fn job_step(plan: Plan, area: usize, task: Task, facts: JobFacts, cursor: Cursor) -> Option<Step>
    requires { Fits plan area task facts cursor }
    ensures { MatchOption result (is_end cursor ≡ true) (λ step. StepDone plan area task facts cursor step) }
{
    match cursor {
        Cursor::Head => Some(head_step(area, task, facts)),
        Cursor::Refused => Some(refused_step(facts)),
        Cursor::Image(x) => Some(image_step(plan, area, task, x)),
        Cursor::Window => Some(window_step(plan, area, task)),
        Cursor::Cut(cut) => Some(segment_step(plan, area, task, cut)),
        Cursor::Foot(foot) => Some(foot_step(facts, foot)),
        Cursor::End => None,
    }
}

// The rows of a job from a cursor on, as long as a row has room; the answer is where the next one is, or the end.
pub fn print_job(
    page: &mut Page,
    plan: Plan,
    area: usize,
    task: Task,
    facts: JobFacts,
    cursor: Cursor,
) -> Cursor
    requires { Fits plan area task facts cursor }
    ensures printed { PrintsPart page.old page.new (rows_text (rows_left plan area task facts cursor)) (rows_text (rows_left plan area task facts result)) }
    ensures fits { Fits plan area task facts result }
    ensures full { is_end result ≡ false → room page.new < 3000 }
{
    let mut next = cursor;
    while 3000 <= page.room() {
        match job_step(plan, area, task, facts, next) {
            None => return next,
            Some(step) => {
                print_row(page, step.row);
                next = step.cursor;
            }
        }
    }
    next
}
