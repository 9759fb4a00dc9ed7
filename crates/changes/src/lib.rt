// What a call on an area changes, and what the calls by value and those in place share: the area is asked for, a job begun, a job cancelled.
#![tactic(auto)]

ghost use Rattle.std.specs.Prelude.{◌≡◌, ◌≤◌, ◌<◌};
ghost use Rattle.arith.specs.FirstNo.{first_no};
ghost use Rattle.memory.specs.Numbers.{admission_number};
ghost use Rattle.rules.specs.Admission.{range_questions};
ghost use Rattle.changes.specs.laws.Changes.{place_of, asked_area, unchanged, begun_change, stopped_change};

use admission::range_admission;
use devices::cancelled_job;
use jobs::begun;
use jobs::ranks::ages_after;
use machine::soundness::is_sound;
use memory::{Admission, Task};
use plan::records::Plan;
use state::{Area, Device};

// What a call changes: one area, one device, and the ages. What it leaves is as it was.
// stays: the clauses manager_value of crate manager say what is written back also where a call is refused, and an Err holds none.
#[derive(Clone, Copy)]
pub struct Change {
    pub area_number: usize,
    pub area: Area,
    pub device_number: usize,
    pub device: Device,
    pub ages: [u8; 8],
    pub answer: Admission,
}

impl Change {
    // A refused call changes nothing: any area and any device will do, as they stay.
    pub fn none(areas: [Area; 8], devices: [Device; 4], ages: [u8; 8], answer: Admission) -> Change
        ensures { result ≡ unchanged areas devices ages answer }
    {
        Change {
            area_number: 0,
            area: areas[0],
            device_number: 0,
            device: devices[0],
            ages,
            answer,
        }
    }
}

// What a call on an area goes by: question 9, and the area's entry with its place.
// stays: the definition `asked_area` says number and area also where question 9 is answered "no", and an Err holds none.
#[derive(Clone, Copy)]
pub struct AskedArea {
    pub sound: bool,
    pub number: usize,
    pub area: Area,
}

// Of an area that a manager has no room for any entry will do: questions 9 and 10 refuse the call.
fn place(area: usize) -> usize
    ensures { (result ≡ place_of area) × (result < 8) }
{
    if area < 8 { area } else { 0 }
}

pub fn ask(plan: Plan, areas: [Area; 8], devices: [Device; 4], area: usize) -> AskedArea
    ensures value { result ≡ asked_area plan areas devices area }
    ensures number_bound { result.number < 8 }
{
    let number = place(area);
    AskedArea {
        sound: is_sound(plan, areas, devices),
        number,
        area: areas[number],
    }
}

// A job of an idle area: the questions of its range, and where they accept it the area with that job, the youngest of all areas.
pub fn begin(plan: Plan, asked: AskedArea, device: Device, ages: [u8; 8], task: Task) -> Change
    requires { (plan.sub_area_count ≤ 32) × (asked.number < 8) }
    ensures answer_value { admission_number result.answer ≡ first_no 12 (range_questions plan asked.number task) }
    ensures value { result ≡ begun_change result.answer plan asked device ages task }
{
    let number = asked.number;
    match range_admission(plan, number, task) {
        Err(refusal) => Change {
            area_number: number,
            area: asked.area,
            device_number: 0,
            device,
            ages,
            answer: Err(refusal),
        },
        Ok(retries) => Change {
            area_number: number,
            area: Area {
                job: begun(task, retries, asked.area.job),
                ..Area::fresh()
            },
            device_number: 0,
            device,
            ages: ages_after(ages, number),
            answer: Ok(()),
        },
    }
}

// The cancel of an area with a job pending.
pub fn stop(plan: Plan, asked: AskedArea, devices: [Device; 4], ages: [u8; 8]) -> Change
    requires { (plan.sub_area_count ≤ 32) × (asked.number < 8) }
    ensures { result ≡ stopped_change plan asked devices ages }
{
    let job = cancelled_job(plan, asked.area.job, devices, asked.number);
    Change {
        area_number: asked.number,
        area: Area { job, ..asked.area },
        device_number: 0,
        device: devices[0],
        ages,
        answer: Ok(()),
    }
}
