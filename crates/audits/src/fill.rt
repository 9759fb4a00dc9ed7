// The audit printed into a lent buffer, as far as its rows have room.
ghost use Rattle.std.specs.Prelude.{None, true, false, List, ◌≡◌, ◌<◌, length};
ghost use Rattle.job_rows.specs.Cursors.{is_end};
ghost use Rattle.rules.specs.statements.JobSets.{AreaJob};
ghost use Rattle.session.specs.AllLines.{lines_of};
ghost use Rattle.audits.specs.Audits.{jobs_in, refused_facts};
ghost use Rattle.audits.specs.Filled.{first_place, is_finished, LineFits, PlaceFits, FilledTo};
ghost use Rattle.audits.specs.laws.FillLaws.{LineDone, FilledOn, line_facts};
ghost use Rattle.audits.specs.laws.LoadLaws.{Loaded};
ghost use Rattle.plan.specs.declared.records.Plan.{Plan};
ghost use Rattle.job_rows.specs.declared.JobFacts.{JobFacts};
ghost use Rattle.texts.specs.Pages.{room};
ghost use Rattle.audits.specs.laws.TableLaws.{Tabled};

use crate::{ListedJob, Table, job_facts, next_job, unreadable_row};
use job_rows::{Cursor, JobFacts, is_over, print_job};
use manager::Manager;
use plan::records::Plan;
use plan_rows::print_plan;
use rows::print_row;
use texts::page::Page;

// Where the audit is: at a place of the plan's rows; in the rows of a line; the next line begins at byte `next`.
#[derive(Clone, Copy)]
pub struct Place {
    pub rows: usize,
    pub job: Option<ListedJob>,
    pub facts: JobFacts,
    pub cursor: Cursor,
    pub next: usize,
}

impl Place {
    // Before the first row: no line is begun.
    pub fn first() -> Place
        ensures { result ≡ first_place }
    {
        Place {
            rows: 0,
            job: None,
            facts: JobFacts::default(),
            cursor: Cursor::End,
            next: 0,
        }
    }
}

// The row of a line that is no job, if it is not printed yet.
fn print_unreadable(page: &mut Page, cursor: Cursor) -> Cursor
    ensures { (plan : Plan) → (facts : JobFacts) → LineDone plan None facts cursor page.old page.new result }
{
    if is_over(cursor) {
        return cursor;
    }
    if page.room() < 3000 {
        return cursor;
    }
    print_row(page, unreadable_row());
    Cursor::End
}

// The rows of a line.
fn print_line(
    page: &mut Page,
    plan: Plan,
    job: Option<ListedJob>,
    facts: JobFacts,
    cursor: Cursor,
) -> Cursor
    requires { LineFits plan job facts cursor }
    ensures { LineDone plan job facts cursor page.old page.new result }
{
    match job {
        None => print_unreadable(page, cursor),
        Some(job) => print_job(page, plan, job.area as usize, job.task, facts, cursor),
    }
}

fn facts_of(manager: Manager, table: Table, job: Option<ListedJob>) -> JobFacts
    requires { Loaded manager }
    ensures { (js : List AreaJob) → Tabled manager js table → result ≡ line_facts manager js job }
{
    match job {
        None => JobFacts::default(),
        Some(job) => job_facts(manager, table, job.area as usize, job.task),
    }
}

// The lines from byte `next` on, where the one in work is printed as far as it has room.
fn fill_lines(page: &mut Page, manager: Manager, table: Table, input: &[u8], place: Place) -> Place
    requires loaded { Loaded manager × Tabled manager (jobs_in manager.plan.device_count (lines_of true input.now)) table }
    requires place_fits { PlaceFits manager place × (place.rows ≡ 300) }
    requires full { is_end place.cursor ≡ false → room page.old < 3000 }
    ensures { FilledOn manager input.now place page.old page.new result }
{
    let plan = manager.plan;
    let mut place = place;
    while place.next < input.len() && is_over(place.cursor) {
        let found = next_job(input, place.next, plan.device_count);
        let facts = facts_of(manager, table, found.job);
        let cursor = print_line(page, plan, found.job, facts, Cursor::Head);
        place = Place {
            job: found.job,
            facts,
            cursor,
            next: found.next,
            ..place
        };
    }
    place
}

// The plan's rows, the line in work, and the others.
fn fill_page(page: &mut Page, manager: Manager, table: Table, input: &[u8], place: Place) -> Place
    requires loaded { Loaded manager × Tabled manager (jobs_in manager.plan.device_count (lines_of true input.now)) table }
    requires place_fits { PlaceFits manager place }
    ensures { FilledOn manager input.now place page.old page.new result }
{
    let plan = manager.plan;
    let rows = print_plan(page, plan, place.rows);
    if rows < 300 {
        return Place { rows, ..place };
    }
    let cursor = print_line(page, plan, place.job, place.facts, place.cursor);
    let reached = Place {
        rows,
        cursor,
        ..place
    };
    fill_lines(page, manager, table, input, reached)
}

// Where the audit is when the buffer is full, or at the end, and where the text ends.
#[derive(Clone, Copy)]
pub struct Filled {
    pub place: Place,
    pub end: usize,
}

// The audit from a place on, from the start of the buffer, as far as its rows have room.
pub fn fill(manager: Manager, table: Table, input: &[u8], place: Place, out: &mut [u8]) -> Filled
    requires loaded { Loaded manager × Tabled manager (jobs_in manager.plan.device_count (lines_of true input.now)) table }
    requires place_fits { PlaceFits manager place }
    ensures { FilledTo manager input.now place out.old out.new 0 result }
{
    let mut page = Page::new(out);
    let place = fill_page(&mut page, manager, table, input, place);
    Filled {
        place,
        end: page.written(),
    }
}

// Is no row left of an input of so many bytes?
pub fn is_finished(place: Place, length: usize) -> bool
    ensures { result ≡ is_finished place length }
{
    300 <= place.rows && is_over(place.cursor) && length <= place.next
}
