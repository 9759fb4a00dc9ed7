// The rows of a plan: what the auditor's program says of it.
#![tactic(auto)]

ghost use Rattle.std.specs.Prelude.{◌≡◌, ◌-◌, ◌≤◌, ◌<◌};
ghost use Rattle.plan.specs.WellFormed.{WellFormed};
ghost use Rattle.rows.specs.Rows.{rows_text};
ghost use Rattle.rows.specs.Written.{PrintsPart};
ghost use Rattle.texts.specs.Pages.{Prints, room};
ghost use Rattle.rules.specs.statements.JobSets.{is_on};
ghost use Rattle.plan_rows.specs.PlanRows.{device_form, device_row, rank_of, area_form, area_row, on_row, stretch_row, pair_row, row_if_any, area_place, pair_place, rows_at, plan_rows_from};

use figures::{factor_of, record_of, span_most};
use plan::records::Plan;
use plan_questions::area_size;
use rows::{Form, PlanForm, Row, print_row};
use texts::page::Page;

// Has the area a sub-area on the device?
pub fn is_on(plan: Plan, area: usize, device: usize) -> bool
    requires { plan.sub_area_count ≤ 32 }
    ensures { result ≡ is_on plan area device }
{
    plan.sub_areas[..plan.sub_area_count].iter().any(|record| record.area as usize == area
        && record.device as usize == device)
}

fn device_form(suspends: bool, clears: bool) -> PlanForm
    ensures { result ≡ device_form suspends clears }
{
    if clears {
        PlanForm::DeviceClears
    } else if suspends {
        PlanForm::DeviceSuspends
    } else {
        PlanForm::Device
    }
}

fn device_row(plan: Plan, device: usize) -> Row
    requires { WellFormed plan × (device < plan.device_count) }
    ensures { result ≡ device_row plan device }
{
    let record = record_of(plan, device as u8);
    let start = record.start as u64;
    let last = (start + record.length as u64).saturating_sub(1);
    Row {
        form: Form::OfPlan(device_form(record.suspends, record.clears)),
        numbers: [
            device as u64,
            start,
            last,
            record.poll_limit as u64,
            0,
            0,
            0,
            0,
        ],
    }
}

fn rank_of(plan: Plan, area: usize) -> u64
    requires { (plan.area_count ≤ 8) × (area < 8) }
    ensures { result ≡ rank_of plan area }
{
    let record = plan.areas[area];
    let above = plan.areas[..plan.area_count]
        .iter()
        .filter(|other| record.priority < other.priority)
        .count();
    1 + above as u64
}

fn area_form(window: u32) -> PlanForm
    ensures { result ≡ area_form window }
{
    if window == 0 {
        PlanForm::AreaNoWindow
    } else {
        PlanForm::Area
    }
}

fn area_row(plan: Plan, area: usize) -> Row
    requires { WellFormed plan × (area < plan.area_count) }
    ensures { result ≡ area_row plan area }
{
    let record = plan.areas[area];
    let size = area_size(plan.sub_areas, plan.sub_area_count, area);
    let start = record.start.0 as u64;
    let last = (start + size).saturating_sub(1);
    let window = record.window.start as u64;
    let window_last = (window + record.window.length as u64).saturating_sub(1);
    Row {
        form: Form::OfPlan(area_form(record.window.length)),
        numbers: [
            area as u64,
            rank_of(plan, area),
            record.priority as u64,
            start,
            last,
            window,
            window_last,
            0,
        ],
    }
}

fn on_row(area: usize, device: usize) -> Row
    ensures { result ≡ on_row area device }
{
    Row {
        form: Form::OfPlan(PlanForm::AreaOn),
        numbers: [area as u64, device as u64, 0, 0, 0, 0, 0, 0],
    }
}

#[tactic(auto, unfolding(rules::specs::Layout::layout_of))]
fn stretch_row(plan: Plan, a: usize, b: usize, device: usize, form: PlanForm) -> Row
    requires { device < 4 }
    ensures { result ≡ stretch_row plan a b device form }
{
    let record = record_of(plan, device as u8);
    Row {
        form: Form::OfPlan(form),
        numbers: [
            a as u64,
            b as u64,
            device as u64,
            factor_of(record.suspends),
            record.poll_limit as u64,
            span_most(record),
            0,
            0,
        ],
    }
}

// How area a stands behind area b on the device.
fn pair_row(plan: Plan, a: usize, b: usize, device: usize) -> Row
    requires { WellFormed plan × (a < plan.area_count) × (b < plan.area_count) × (device < 4) }
    ensures { result ≡ pair_row plan a b device }
{
    let mine = plan.areas[a];
    let other = plan.areas[b];
    if mine.priority < other.priority {
        return Row {
            form: Form::OfPlan(PlanForm::PairAbove),
            numbers: [a as u64, b as u64, device as u64, b as u64, 0, 0, 0, 0],
        };
    }
    if other.priority < mine.priority {
        return stretch_row(plan, a, b, device, PlanForm::PairBelow);
    }
    stretch_row(plan, a, b, device, PlanForm::PairEqual)
}

fn area_place(plan: Plan, area: usize, slot: usize) -> Option<Row>
    requires { WellFormed plan }
    ensures { row_if_any result ≡ area_place plan area slot }
{
    if area >= plan.area_count {
        return None;
    }
    if slot == 0 {
        return Some(area_row(plan, area));
    }
    let device = slot - 1;
    if is_on(plan, area, device) {
        Some(on_row(area, device))
    } else {
        None
    }
}

fn pair_place(plan: Plan, a: usize, b: usize, device: usize) -> Option<Row>
    requires { WellFormed plan × (device < 4) }
    ensures { row_if_any result ≡ pair_place plan a b device }
{
    if a < plan.area_count
        && b < plan.area_count
        && a != b
        && is_on(plan, a, device)
        && is_on(plan, b, device)
    {
        Some(pair_row(plan, a, b, device))
    } else {
        None
    }
}

#[tactic(auto, unfolding(crate::specs::PlanRows::rows_at))]
fn place_at(plan: Plan, k: usize) -> Option<Row>
    requires { WellFormed plan × (k < 300) }
    ensures { row_if_any result ≡ rows_at plan k }
{
    if k < 4 {
        if k < plan.device_count {
            return Some(device_row(plan, k));
        }
        return None;
    }
    if k < 44 {
        return area_place(plan, (k - 4) / 5, (k - 4) % 5);
    }
    let pair = k - 44;
    pair_place(plan, pair / 32, pair / 4 % 8, pair % 4)
}

// Prints the row of place k, if it has one.
fn print_place(page: &mut Page, plan: Plan, k: usize)
    requires { WellFormed plan × (k < 300) × (3000 ≤ room page.old) }
    ensures { Prints 3000 page.old page.new (rows_text (rows_at plan k)) }
{
    match place_at(plan, k) {
        Some(row) => print_row(page, row),
        None => {}
    }
}

// Prints the rows from place k on, until all are printed or the next one may not fit; the answer is the next place.
pub fn print_plan(page: &mut Page, plan: Plan, k: usize) -> usize
    requires { WellFormed plan × (k ≤ 300) }
    ensures printed { PrintsPart page.old page.new (rows_text (plan_rows_from plan (300 - k) k)) (rows_text (plan_rows_from plan (300 - result) result)) }
    ensures next_bounds { (k ≤ result) × (result ≤ 300) }
    ensures full { result < 300 → room page.new < 3000 }
{
    for next in k..300 {
        if page.room() < 3000 {
            return next;
        }
        print_place(page, plan, next);
    }
    300
}
