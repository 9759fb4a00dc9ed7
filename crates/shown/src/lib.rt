// What a round shows of its devices (document 01, "A printed session").
#![tactic(auto)]

ghost use Rattle.std.specs.Prelude.{◌≡◌, ◌≤◌};
ghost use Rattle.devices.specs.Arrays.{job_in, core_in};
ghost use Rattle.plan.specs.Questions.{area_of};
ghost use Rattle.rules.specs.Session.{shown_on, shown_to};
ghost use Rattle.texts.specs.Pages.{Prints, room};
ghost use Rattle.shown.specs.Shown.{shown_text, shown_texts, devices_line};

use memory::LogicalAddress;
use plan::records::{AreaRecord, Plan};
use segment::segment_from;
use state::{Area, Device, DeviceState, Job};
use texts::page::Page;

// The job of any area: one that a manager has not got has none.
fn job_of(areas: [Area; 8], area: usize) -> Job
    ensures { result ≡ job_in areas area }
{
    if area < 8 {
        areas[area].job
    } else {
        Area::fresh().job
    }
}

// Where any area starts: one that the plan has not got at 0.
fn start_of(places: [AreaRecord; 8], area: usize) -> LogicalAddress
    ensures { result ≡ (area_of places area).start }
{
    if area < 8 {
        places[area].start
    } else {
        LogicalAddress(0)
    }
}

// The request of an area that runs: its due segment.
fn area_request(page: &mut Page, plan: Plan, areas: [Area; 8], area: u8)
    requires { (84 ≤ room page.old) × (plan.sub_area_count ≤ 32) }
    ensures { Prints 84 page.old page.new (shown_text (shown_on plan (job_in areas) (DeviceState.Runs area 0))) }
{
    let job = job_of(areas, area as usize);
    let segment = segment_from(
        &plan.sub_areas[..plan.sub_area_count],
        start_of(plan.areas, area as usize),
        area as usize,
        job.task,
        job.processed,
    );
    page.request_text(
        area as u64,
        job.task.kind.number() as u64,
        segment.start.0,
        segment.length,
    );
}

fn device_text(page: &mut Page, plan: Plan, areas: [Area; 8], state: DeviceState)
    requires { (84 ≤ room page.old) × (plan.sub_area_count ≤ 32) }
    ensures { Prints 84 page.old page.new (shown_text (shown_on plan (job_in areas) state)) }
{
    match state {
        DeviceState::Free => page.free_text(),
        DeviceState::LockedFor(_) => page.locked_text(),
        DeviceState::Runs { area, polls: _ } => area_request(page, plan, areas, area),
    }
}

fn device_texts(page: &mut Page, plan: Plan, areas: [Area; 8], devices: [Device; 4])
    requires { (336 ≤ room page.old) × (plan.sub_area_count ≤ 32) × (plan.device_count ≤ 4) }
    ensures { Prints 336 page.old page.new (shown_texts (shown_to plan (core_in areas devices) plan.device_count)) }
{
    for device in &devices[..plan.device_count] {
        device_text(page, plan, areas, device.state);
    }
}

// A line of at most 338 bytes, the longest that a session prints.
#[tactic(auto, unfolding(crate::specs::Shown::round_line))]
pub fn devices_line(page: &mut Page, plan: Plan, areas: [Area; 8], devices: [Device; 4])
    requires { (338 ≤ room page.old) × (plan.sub_area_count ≤ 32) × (plan.device_count ≤ 4) }
    ensures { Prints 338 page.old page.new (devices_line plan (core_in areas devices)) }
{
    page.push(b'R');
    device_texts(page, plan, areas, devices);
    page.push(b'\n');
}
