// Question 9: the soundness test.
ghost use Rattle.std.specs.Prelude.{◌≡◌, ◌+◌, ◌≤◌, ◌<◌, ◌&&◌, leb};
ghost use Rattle.arith.specs.Bounded.{every, some};
ghost use Rattle.rules.specs.Admission.{uses_window, if_asked};
ghost use Rattle.devices.specs.Arrays.{job_in, state_in};
ghost use Rattle.machine.specs.Sound.{job_runs, segment_fits, state_sound, is_sound};
ghost use Rattle.machine.specs.laws.Dues.{runner_of, state_fits, running_segment, is_running};

use admission::uses_window;
use jobs::is_pending;
use plan::checks::{counts_fit, device_sum};
use plan::records::{AreaRecord, DeviceRecord, Plan};
use segment::{Segment, is_lock, no_segment, segment_at};
use state::{Area, Device, DeviceState, Job};

#[tactic(auto, unfolding(crate::specs::Sound::job_runs))]
fn job_runs(job: Job, polls: u16, limit: u16) -> bool
    ensures { result ≡ job_runs job polls limit }
{
    is_pending(job) && !is_lock(job.task.kind) && polls < limit
}

// Does the request lie inside the image of `sum` bytes?
fn in_image(sum: u64, segment: Segment) -> bool
    ensures { result ≡ leb (segment.start.0 + segment.length) sum }
{
    segment.start.0 <= sum && segment.length <= sum - segment.start.0
}

// Does a request of this length lie in what is left of the job and of its window?
fn left_fits(window: u32, job: Job, length: u64) -> bool
    requires { length ≤ 17179869180 }
    ensures { result ≡ (leb (job.processed + length) job.task.length && if_asked (uses_window job.task.kind) (leb (job.processed + length) window)) }
{
    let upto = (job.processed as u64) + length;
    upto <= job.task.length as u64 && (!uses_window(job.task.kind) || upto <= window as u64)
}

// Does the request lie on the device, inside the image of `sum` bytes, and in what is left of the job and of its window?
#[tactic(auto, unfolding(crate::specs::Sound::segment_fits))]
fn segment_fits(sum: u64, window: u32, device: usize, job: Job, segment: Segment) -> bool
    requires { sum ≤ 17179869180 }
    ensures { result ≡ segment_fits sum window device job segment }
{
    segment.device as usize == device
        && in_image(sum, segment)
        && left_fits(window, job, segment.length)
}

// The area whose request a device runs; 0 where it runs none of an area that a manager has.
pub fn runner(state: DeviceState) -> usize
    ensures value { result ≡ runner_of state }
    ensures upper_bound { result < 8 }
{
    match state {
        DeviceState::Runs { area, .. } if area < 8 => area as usize,
        _ => 0,
    }
}

// May the device be in this state, where the job of its request's area is this one, with this segment due?
pub(crate) fn state_fits(
    sum: u64,
    device_record: DeviceRecord,
    area_count: usize,
    area_record: AreaRecord,
    device: usize,
    job: Job,
    due: Segment,
    state: DeviceState,
) -> bool
    requires { sum ≤ 17179869180 }
    ensures { result ≡ state_fits sum device_record area_count area_record device job due state }
{
    match state {
        DeviceState::Free | DeviceState::LockedFor(_) => true,
        DeviceState::Runs { area, polls } => {
            (area as usize) < area_count
                && job_runs(job, polls, device_record.poll_limit)
                && segment_fits(sum, area_record.window.length, device, job, due)
        }
    }
}

// The segment of the request that a device in this state runs, where the job of its area is this one.
fn running_segment(plan: Plan, job: Job, state: DeviceState) -> Segment
    requires { plan.sub_area_count ≤ 32 }
    ensures { result ≡ running_segment plan job state }
{
    match state {
        DeviceState::Runs { area, .. } if area < 8 => segment_at(
            plan,
            area as usize,
            job.task,
            job.processed,
        ),
        _ => no_segment(),
    }
}

fn devices_sound(plan: Plan, areas: [Area; 8], devices: [Device; 4]) -> bool
    requires { (plan.device_count ≤ 4) × (plan.area_count ≤ 8) × (plan.sub_area_count ≤ 32) }
    ensures { result ≡ every (λ d. state_sound plan d (job_in areas) (state_in devices d)) plan.device_count }
{
    let sum = device_sum(plan.devices, plan.device_count);
    for d in 0..plan.device_count {
        let state = devices[d].state;
        let area = runner(state);
        let job = areas[area].job;
        let segment = running_segment(plan, job, state);
        if !state_fits(
            sum,
            plan.devices[d],
            plan.area_count,
            plan.areas[area],
            d,
            job,
            segment,
            state,
        ) {
            return false;
        }
    }
    true
}

fn is_running(state: DeviceState) -> bool
    ensures { result ≡ is_running state }
{
    matches!(state, DeviceState::Runs { .. })
}

fn any_runs(devices: [Device; 4]) -> bool
    ensures { result ≡ some (λ d. is_running (state_in devices d)) 4 }
{
    devices.iter().any(|device| is_running(device.state))
}

// Where no request runs, none is to be tested, and the plan is not looked at.
#[tactic(auto, using(crate::specs::laws::SoundCases::other_counts, crate::specs::laws::SoundCases::devices_decide, crate::specs::laws::SoundCases::counts_few, crate::specs::laws::Dues::none_runs))]
pub fn is_sound(plan: Plan, areas: [Area; 8], devices: [Device; 4]) -> bool
    ensures { result ≡ is_sound plan areas devices }
{
    counts_fit(plan.device_count, plan.area_count, plan.sub_area_count)
        && (!any_runs(devices) || devices_sound(plan, areas, devices))
}
