// What the accepted queries of an area's job and memory give.
#![tactic(auto)]

ghost use Rattle.std.specs.Prelude.{◌≡◌, get_or, ◌≤◌, ◌<◌};
ghost use Rattle.plan.specs.Questions.{size_of};
ghost use Rattle.rules.specs.Layout.{layout_of};
ghost use Rattle.rules.specs.Machine.{due, need};
ghost use Rattle.rules.specs.Wear.{no_wear_info, worn_at, wear_info_of};
ghost use Rattle.rules.specs.Queries.{no_request, request_on, job_info_of, no_memory_info, memory_info_in, memory_info_of};
ghost use Rattle.state.specs.Fresh.{fresh_area};
ghost use Rattle.devices.specs.Arrays.{job_in, state_in, core_in};

use devices::{held_somewhere, state_on};
use memory::{LogicalAddress, MemAddress};
use plan::records::{Granularity, Plan, SubAreaRecord};
use segment::{Segment, map_address, segment_at};
use state::{Area, Device, DeviceState, JobInfo, MemoryInfo, RequestInfo, WearInfo};
use wear::charge_of;

// No request: all zeros.
pub fn no_request() -> RequestInfo
    ensures { result ≡ no_request }
{
    RequestInfo::default()
}

// The area's request, which is its segment, where the device runs it.
fn request_on(area: usize, segment: Segment, state: DeviceState) -> RequestInfo
    ensures { result ≡ request_on area segment state }
{
    match state {
        DeviceState::Runs {
            area: runner,
            polls,
        } if runner as usize == area => RequestInfo {
            device: segment.device,
            start: segment.start,
            length: segment.length,
            polls,
        },
        _ => no_request(),
    }
}

// The request of an area that some device holds one for.
fn running_request(plan: Plan, areas: [Area; 8], devices: [Device; 4], area: usize) -> RequestInfo
    requires { (plan.sub_area_count ≤ 32) × (area < 8) }
    ensures { result ≡ request_on area (due (layout_of plan) area (job_in areas area)) (state_in devices (need (layout_of plan) area (job_in areas area))) }
{
    let job = areas[area].job;
    let segment = segment_at(plan, area, job.task, job.processed);
    request_on(area, segment, state_on(devices, segment.device as usize))
}

fn request_info(plan: Plan, areas: [Area; 8], devices: [Device; 4], area: usize) -> RequestInfo
    requires { (plan.sub_area_count ≤ 32) × (area < 8) }
    ensures { result ≡ request_on area (due (layout_of plan) area (job_in areas area)) (state_in devices (need (layout_of plan) area (job_in areas area))) }
{
    if held_somewhere(devices, area) {
        running_request(plan, areas, devices, area)
    } else {
        no_request()
    }
}

pub fn job_info(plan: Plan, areas: [Area; 8], devices: [Device; 4], area: usize) -> JobInfo
    requires { (plan.sub_area_count ≤ 32) × (area < 8) }
    ensures { result ≡ job_info_of plan (core_in areas devices) (get_or areas area fresh_area).waits area }
{
    let Area { job, waits } = areas[area];
    JobInfo {
        task: job.task,
        result: job.result,
        processed: job.processed,
        waits,
        request: request_info(plan, areas, devices, area),
    }
}

// No sub-area: all zeros.
pub fn no_memory() -> MemoryInfo
    ensures { result ≡ no_memory_info }
{
    MemoryInfo::default()
}

// The sub-area in which the address lies at this offset.
fn memory_in(address: LogicalAddress, sub_area: SubAreaRecord, offset: u64) -> MemoryInfo
    requires { (offset ≤ address.0) × (offset < size_of sub_area) }
    ensures { result ≡ memory_info_in address sub_area offset }
{
    MemoryInfo {
        logical_start: LogicalAddress(address.0 - (offset as u32)),
        physical_start: MemAddress(sub_area.start as u64),
        max_offset: sub_area.size() - 1,
        erase: sub_area.erase,
        write: sub_area.write,
        read: sub_area.read,
        device: sub_area.device,
    }
}

#[tactic(auto, using(crate::specs::laws::QueryLaws::found_few, crate::specs::laws::QueryLaws::memory_outside, crate::specs::laws::QueryLaws::memory_inside))]
pub fn memory_info(plan: Plan, area: usize, address: LogicalAddress) -> MemoryInfo
    requires { (plan.sub_area_count ≤ 32) × (area < 8) }
    ensures { result ≡ memory_info_of plan area address }
{
    match map_address(plan, area, address) {
        None => no_memory(),
        Some(byte) => memory_in(address, plan.sub_areas[byte.sub_area], byte.offset),
    }
}

// No sub-area: all zeros.
pub fn no_wear() -> WearInfo
    ensures { result ≡ no_wear_info }
{
    WearInfo::default()
}

// The wear of the sub-area in which the address lies, by the sums of the sub-areas.
#[tactic(auto, using(crate::specs::laws::QueryLaws::found_few, crate::specs::laws::QueryLaws::wear_outside))]
pub fn wear_info(plan: Plan, wear: [u32; 32], area: usize, address: LogicalAddress) -> WearInfo
    requires { (plan.sub_area_count ≤ 32) × (area < 8) }
    ensures { result ≡ wear_info_of plan (worn_at wear) area address }
{
    match map_address(plan, area, address) {
        None => no_wear(),
        Some(byte) => {
            let i = byte.sub_area;
            let sum = wear[i];
            let charge = charge_of(sum, plan.endurance[i], plan.sub_areas[i].sector_count);
            WearInfo { sum, charge }
        }
    }
}
