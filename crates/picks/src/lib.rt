// The second half of a round: a device that is free, or has an erase that can give way, picks the highest ranked job that needs it.
#![tactic(auto)]

ghost use Rattle.std.specs.Prelude.{◌&&◌, ◌≡◌, ◌≤◌, ◌<◌, eqb};
ghost use Rattle.arith.specs.Cases.{pick};
ghost use Rattle.rules.specs.Machine.{is_pending, displaces};
ghost use Rattle.picks.specs.laws.Picks.{better_of, best_to, ready_in, free_slot, running_slot, slot_of, is_taken, chosen_in, start_of, start_free, erase_with, start_with};

use jobs::ranks::ranks_above;
use jobs::{ended, is_pending};
use memory::{JobResult, JobType};
use plan::records::AreaRecord;
use segment::{is_erase, is_lock};
use state::{Area, Device, DeviceState, Job, SuspendedErase};

// An area whose job a device can pick, with what it ranks by.
#[derive(Clone, Copy)]
pub struct Ranked {
    pub area: u8,
    pub priority: u16,
    pub age: u8,
}

// The better of an area and the best of those looked at so far.
fn better(next: Ranked, best: Option<Ranked>) -> Option<Ranked>
    ensures { result ≡ better_of next best }
{
    match best {
        Some(other) if !ranks_above(next.priority, next.age, other.priority, other.age) => best,
        _ => Some(next),
    }
}

fn is_ready(job: Job, needed: u8, device: usize) -> bool
    ensures { result ≡ (is_pending job && eqb needed device) }
{
    is_pending(job) && needed as usize == device
}

// The highest ranked of the first areas that are ready for the device.
fn best_area(
    records: [AreaRecord; 8],
    ages: [u8; 8],
    count: usize,
    needs: [u8; 8],
    areas: [Area; 8],
    device: usize,
) -> Option<Ranked>
    requires { count ≤ 8 }
    ensures { result ≡ best_to records ages (ready_in needs areas device) count }
{
    let mut best = None;
    for a in 0..count {
        if is_ready(areas[a].job, needs[a], device) {
            let next = Ranked {
                area: a as u8,
                priority: records[a].priority,
                age: ages[a],
            };
            best = better(next, best);
        }
    }
    best
}

// What a device has for the jobs that need it: nothing, as it runs a request or is locked; itself; or the place of an erase that
// runs and can give way, or is suspended.
#[derive(Clone, Copy)]
pub enum Slot {
    Taken,
    Free,
    Erase { area: u8, polls: u16 },
}

fn free_slot(suspended: Option<SuspendedErase>) -> Slot
    ensures { result ≡ free_slot suspended }
{
    match suspended {
        None => Slot::Free,
        Some(SuspendedErase { area, polls }) => Slot::Erase { area, polls },
    }
}

// A device that can suspend runs this request, of a job of that type.
fn running_slot(kind: JobType, area: u8, polls: u16, suspended: Option<SuspendedErase>) -> Slot
    ensures { result ≡ running_slot kind area polls suspended }
{
    match suspended {
        None if area < 8 && is_erase(kind) => Slot::Erase { area, polls },
        _ => Slot::Taken,
    }
}

// `running` is the area whose request the device runs, or any.
pub fn slot_on(suspends: bool, running: Area, device: Device) -> Slot
    ensures { result ≡ slot_of suspends running.job.task.kind device.state device.suspended }
{
    match device.state {
        DeviceState::Free => free_slot(device.suspended),
        DeviceState::Runs { area, polls } if suspends => {
            running_slot(running.job.task.kind, area, polls, device.suspended)
        }
        _ => Slot::Taken,
    }
}

fn is_taken(slot: Slot) -> bool
    ensures { result ≡ is_taken slot }
{
    matches!(slot, Slot::Taken)
}

// The choice for what a device has.
pub fn pick_area(
    slot: Slot,
    records: [AreaRecord; 8],
    ages: [u8; 8],
    count: usize,
    needs: [u8; 8],
    areas: [Area; 8],
    device: usize,
) -> Option<Ranked>
    requires { count ≤ 8 }
    ensures { result ≡ pick (is_taken slot) None (best_to records ages (ready_in needs areas device) count) }
{
    if is_taken(slot) {
        return None;
    }
    best_area(records, ages, count, needs, areas, device)
}

// The area chosen; 0 where none is that a manager has.
pub fn chosen(best: Option<Ranked>) -> usize
    ensures value { result ≡ chosen_in best }
    ensures upper_bound { result < 8 }
{
    match best {
        Some(choice) if choice.area < 8 => choice.area as usize,
        _ => 0,
    }
}

// An area and a device when the device has picked.
#[derive(Clone, Copy)]
pub struct Start {
    pub area: Area,
    pub device: Device,
}

// A free device starts the request of the area's job, or is locked for it.
fn start_job(area: u8, entry: Area, device: Device) -> Start
    ensures { result ≡ start_of area entry device }
{
    if is_lock(entry.job.task.kind) {
        return Start {
            area: Area {
                job: ended(entry.job, JobResult::OK),
                ..entry
            },
            device: Device {
                state: DeviceState::LockedFor(area),
                ..device
            },
        };
    }
    Start {
        area: entry,
        device: Device {
            state: DeviceState::Runs { area, polls: 0 },
            ..device
        },
    }
}

fn start_free(best: Option<Ranked>, entry: Area, device: Device) -> Start
    ensures { result ≡ start_free best entry device }
{
    match best {
        None => Start {
            area: entry,
            device,
        },
        Some(choice) => start_job(choice.area, entry, device),
    }
}

// A segment that is no erase, and no lock request.
fn displaces(kind: JobType) -> bool
    ensures { result ≡ displaces kind }
{
    !is_erase(kind) && !is_lock(kind)
}

// The erase of an area goes on or resumes, or gives way to the choice, a job of type `kind`.
fn erase_or(area: u8, polls: u16, kind: JobType, best: Option<Ranked>) -> Device
    ensures { result ≡ erase_with area polls kind best }
{
    match best {
        Some(choice) if displaces(kind) => Device {
            state: DeviceState::Runs {
                area: choice.area,
                polls: 0,
            },
            suspended: Some(SuspendedErase { area, polls }),
        },
        _ => Device {
            state: DeviceState::Runs { area, polls },
            suspended: None,
        },
    }
}

pub fn start_choice(slot: Slot, best: Option<Ranked>, entry: Area, device: Device) -> Start
    ensures { result ≡ start_with slot best entry device }
{
    match slot {
        Slot::Taken => Start {
            area: entry,
            device,
        },
        Slot::Free => start_free(best, entry, device),
        Slot::Erase { area, polls } => Start {
            area: entry,
            device: erase_or(area, polls, entry.job.task.kind, best),
        },
    }
}
