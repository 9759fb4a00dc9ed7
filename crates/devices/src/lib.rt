// What a device does for an area.
#![tactic(auto)]

ghost use Rattle.std.specs.Prelude.{◌≡◌, ◌≤◌, ◌<◌};
ghost use Rattle.arith.specs.Bounded.{some};
ghost use Rattle.rules.specs.Layout.{layout_of};
ghost use Rattle.rules.specs.Admission.{holds_lock};
ghost use Rattle.rules.specs.Machine.{need, runs_for, kept_for, holds, cancel};
ghost use Rattle.devices.specs.Arrays.{device_in, state_in};

use jobs::{cancelled, ended};
use memory::JobResult;
use plan::records::Plan;
use segment::segment_at;
use state::{Device, DeviceState, Job, SuspendedErase};

// A number from the plan may lie past the devices that a manager has: there nothing runs, is suspended or locked.
#[tactic(auto, using(crate::specs::laws::ArrayLaws::device_past))]
fn device_on(devices: [Device; 4], device: usize) -> Device
    ensures { result ≡ device_in devices device }
{
    match devices.get(device) {
        Some(entry) => *entry,
        None => Device::free(),
    }
}

// What a device does.
#[tactic(auto, using(crate::specs::laws::ArrayLaws::state_past))]
pub fn state_on(devices: [Device; 4], device: usize) -> DeviceState
    ensures { result ≡ state_in devices device }
{
    match devices.get(device) {
        Some(entry) => entry.state,
        None => DeviceState::Free,
    }
}

fn runs_for(state: DeviceState, area: usize) -> bool
    ensures { result ≡ runs_for area state }
{
    matches!(state, DeviceState::Runs { area: runner, .. } if runner as usize == area)
}

fn suspended_for(suspended: Option<SuspendedErase>, area: usize) -> bool
    ensures { result ≡ kept_for area suspended }
{
    matches!(suspended, Some(erase) if erase.area as usize == area)
}

// Does the device run a request of the area, or keep it suspended?
fn holds(device: Device, area: usize) -> bool
    ensures { result ≡ holds area device }
{
    runs_for(device.state, area) || suspended_for(device.suspended, area)
}

// Does a device hold a request of the area? Job info (`queries`) asks it too.
pub fn held_somewhere(devices: [Device; 4], area: usize) -> bool
    ensures { result ≡ some (λ d. holds area (device_in devices d)) 4 }
{
    devices.iter().any(|device| holds(*device, area))
}

// Does the device that the area's job needs hold its request?
fn request_held(plan: Plan, job: Job, devices: [Device; 4], area: usize) -> bool
    requires { (plan.sub_area_count ≤ 32) × (area < 8) }
    ensures { result ≡ holds area (device_in devices (need (layout_of plan) area job)) }
{
    let segment = segment_at(plan, area, job.task, job.processed);
    let device = device_on(devices, segment.device as usize);
    holds(device, area)
}

// The same. Where no device holds one, the segment that is due needs no lookup.
fn area_held(plan: Plan, job: Job, devices: [Device; 4], area: usize) -> bool
    requires { (plan.sub_area_count ≤ 32) × (area < 8) }
    ensures { result ≡ holds area (device_in devices (need (layout_of plan) area job)) }
{
    held_somewhere(devices, area) && request_held(plan, job, devices, area)
}

// Is the device locked for the area? A release (`questions`) asks it.
pub fn holds_lock(devices: [Device; 4], device: usize, area: usize) -> bool
    ensures { result ≡ holds_lock area (state_in devices device) }
{
    matches!(state_on(devices, device), DeviceState::LockedFor(holder) if area == holder as usize)
}

// The area's job after a cancel: over at once, unless its request runs or is suspended.
pub fn cancelled_job(plan: Plan, job: Job, devices: [Device; 4], area: usize) -> Job
    requires { (plan.sub_area_count ≤ 32) × (area < 8) }
    ensures { result ≡ (cancel (layout_of plan) area (record { jobs = λ _. job; devices = device_in devices })).jobs area }
{
    if area_held(plan, job, devices, area) {
        return cancelled(job);
    }
    ended(job, JobResult::CANCELED)
}
