// Segmentation: where a job's bytes lie, and how a job is cut into driver requests.
#![tactic(auto)]

ghost use Rattle.std.specs.Prelude.{◌≡◌, ◌+◌, ◌-◌, ◌≤◌, ◌<◌, min, length};
ghost use Rattle.plan.specs.Questions.{size_of};
ghost use Rattle.segment.specs.Mapping.{find, located, mapped};
ghost use Rattle.segment.specs.Segments.{is_lock, is_erase, unit_of, retries_of, burst_or_unit, segment_length, segment_in, no_segment, segment_at};
ghost use Rattle.segment.specs.laws.Found.{index_of, Inside, segment_if, segment_from};

use memory::{JobType, LogicalAddress, MemAddress, Task};
use multiples::is_multiple;
use plan::records::{Granularity, Plan, SubAreaRecord};

// The byte that the lookup finds: its sub-area record, the offset in it and its physical address. It finds none where no sub-area of the area has the byte.
#[derive(Clone, Copy)]
pub struct FoundByte {
    pub sub_area: usize,
    pub offset: u64,
    pub address: MemAddress,
}

// A part of a job for one driver request: in one sub-area, whose sector it names, with the retries that it may take. The wide fields stand first, since a
// round then moves its segments fastest.
#[derive(Clone, Copy, Default)]
pub struct Segment {
    pub start: MemAddress,
    pub length: u64,
    pub device: u8,
    pub retries: u8,
    pub sub_area: u8,
    pub sector: u32,
}

// Document 01: "the lookup walks the sub-area records as a lent list in plan order." The byte is `left` bytes of the area away from the record that is met.
fn lookup(sub_areas: &[SubAreaRecord], area: usize, offset: u64) -> Option<FoundByte>
    ensures { result ≡ find (length sub_areas.now) sub_areas.now 0 area offset }
{
    let mut left = offset;
    for (i, sub_area) in sub_areas.iter().enumerate() {
        if sub_area.area as usize != area {
            continue;
        }
        let size = sub_area.size();
        if left < size {
            return Some(FoundByte {
                sub_area: i,
                offset: left,
                address: MemAddress((sub_area.start as u64) + left),
            });
        }
        left -= size;
    }
    None
}

// The mapping in an area that starts there, over the records in use, which are lent: where the byte lies that is so many bytes behind
// the one at a logical address. It may lie behind those that an address can name.
pub fn locate(
    sub_areas: &[SubAreaRecord],
    start: LogicalAddress,
    area: usize,
    address: LogicalAddress,
    behind: u32,
) -> Option<FoundByte>
    ensures { result ≡ located sub_areas.now (length sub_areas.now) start.0 area (address.0 + behind) }
{
    let first = start.0 as u64;
    let byte = (address.0 as u64) + (behind as u64);
    if byte < first {
        return None;
    }
    lookup(sub_areas, area, byte - first)
}

// The same for callers that hold the plan.
#[tactic(auto, using(crate::specs::laws::LookupLaws::located_front), unfolding(crate::specs::Mapping::mapped))]
pub fn map_address(plan: Plan, area: usize, address: LogicalAddress) -> Option<FoundByte>
    requires { (plan.sub_area_count ≤ 32) × (area < 8) }
    ensures { result ≡ mapped plan area address }
{
    let sub_areas = &plan.sub_areas[..plan.sub_area_count];
    locate(sub_areas, plan.areas[area].start, area, address, 0)
}

pub fn is_lock(kind: JobType) -> bool
    ensures { result ≡ is_lock kind }
{
    matches!(kind, JobType::Lock)
}

pub fn is_erase(kind: JobType) -> bool
    ensures { result ≡ is_erase kind }
{
    matches!(kind, JobType::Erase)
}

// The unit of an operation in a sub-area.
pub fn unit_of(kind: JobType, sub_area: SubAreaRecord) -> u32
    ensures { result ≡ unit_of kind sub_area }
{
    match kind {
        JobType::Erase => sub_area.erase.unit,
        JobType::Write => sub_area.write.unit,
        JobType::Read | JobType::Compare | JobType::BlankCheck => sub_area.read.unit,
        JobType::Lock | JobType::NoJob => 1,
    }
}

fn retries_of(kind: JobType, sub_area: SubAreaRecord) -> u8
    ensures { result ≡ retries_of kind sub_area }
{
    match kind {
        JobType::Write => sub_area.write_retries,
        JobType::Erase => sub_area.erase_retries,
        JobType::Read | JobType::Compare | JobType::BlankCheck | JobType::Lock | JobType::NoJob =>
            0,
    }
}

#[tactic(auto, unfolding(crate::specs::Segments::burst_or_unit))]
fn burst_or_unit(granularity: Granularity, at: u64, n: u64) -> u64
    ensures { result ≡ burst_or_unit granularity at n }
{
    let burst = granularity.burst as u64;
    let unit = granularity.unit as u64;
    if is_multiple(burst, at) && burst <= n {
        burst
    } else {
        unit
    }
}

// The length of the next segment at physical address `at`, with n job bytes left in the sub-area.
fn segment_length(kind: JobType, sub_area: SubAreaRecord, at: u64, n: u64) -> u64
    ensures { result ≡ segment_length kind sub_area at n }
{
    match kind {
        JobType::Erase => burst_or_unit(sub_area.erase, at, n),
        JobType::Write => burst_or_unit(sub_area.write, at, n),
        JobType::Read | JobType::Compare | JobType::BlankCheck => n.min(sub_area.read.burst as u64),
        JobType::Lock | JobType::NoJob => n,
    }
}

// The segment at an offset of the sub-area with this number, which is at this address, with `left` bytes of the job left.
fn segment_in(
    kind: JobType,
    number: u8,
    sub_area: SubAreaRecord,
    offset: u64,
    start: MemAddress,
    left: u64,
) -> Segment
    requires { (offset ≤ size_of sub_area) × (start.0 ≡ sub_area.start + offset) }
    ensures { result ≡ segment_in kind number sub_area offset left }
{
    let n = left.min(sub_area.size() - offset);
    let length = segment_length(kind, sub_area, start.0, n);
    Segment {
        start,
        length,
        device: sub_area.device,
        retries: retries_of(kind, sub_area),
        sub_area: number,
        sector: sub_area.erase.unit,
    }
}

pub fn no_segment() -> Segment
    ensures { result ≡ no_segment }
{
    Segment::default()
}

// The record that a lookup found, which is among the first `count`; 0 where it found none.
pub fn index_of(found: Option<FoundByte>) -> usize
    ensures { result ≡ index_of found }
{
    found.map_or(0, |byte| byte.sub_area)
}

// The segment at the byte that a lookup found, in the record it found, once `processed` bytes of the job are done.
pub fn segment_found(
    task: Task,
    processed: u32,
    sub_area: SubAreaRecord,
    found: Option<FoundByte>,
) -> Segment
    requires { Inside sub_area found }
    ensures { result ≡ segment_if task.kind sub_area (task.length - processed) found }
{
    match found {
        None => no_segment(),
        Some(byte) => {
            let left = task.length.saturating_sub(processed) as u64;
            segment_in(
                task.kind,
                byte.sub_area as u8,
                sub_area,
                byte.offset,
                byte.address,
                left,
            )
        }
    }
}

// The segment of a job of an area that starts there, by the records in use, which are lent: the one that is due once `processed` bytes are done.
pub fn segment_from(
    sub_areas: &[SubAreaRecord],
    start: LogicalAddress,
    area: usize,
    task: Task,
    processed: u32,
) -> Segment
    requires { length sub_areas.now ≤ 32 }
    ensures { result ≡ segment_from sub_areas.now (length sub_areas.now) start.0 area task processed }
{
    let found = locate(sub_areas, start, area, task.address, processed);
    match found {
        None => no_segment(),
        Some(byte) => segment_found(task, processed, sub_areas[byte.sub_area], found),
    }
}

// The same for callers that hold the plan.
#[tactic(auto, using(crate::specs::laws::Found::segment_from_front, crate::specs::laws::Found::segment_from_lem))]
pub fn segment_at(plan: Plan, area: usize, task: Task, processed: u32) -> Segment
    requires { (plan.sub_area_count ≤ 32) × (area < 8) }
    ensures { result ≡ segment_at plan area task processed }
{
    let sub_areas = &plan.sub_areas[..plan.sub_area_count];
    segment_from(sub_areas, plan.areas[area].start, area, task, processed)
}
