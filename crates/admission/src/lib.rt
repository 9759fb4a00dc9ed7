// Questions 12 to 15 in code: a range of an area.
#![tactic(auto)]

ghost use Rattle.std.specs.Prelude.{◌≡◌, IfOk, true, ◌&&◌, ◌+◌, ◌-◌, ◌≤◌, ◌<◌, leb};
ghost use Rattle.arith.specs.FirstNo.{first_no};
ghost use Rattle.arith.specs.Multiples.{multiple};
ghost use Rattle.memory.specs.Numbers.{admission_number};
ghost use Rattle.segment.specs.Mapping.{mapped};
ghost use Rattle.segment.specs.Segments.{unit_of, segment_at};
ghost use Rattle.admission.specs.RangeLaws.{offset_of, last_byte, Behind, back_from};
ghost use Rattle.rules.specs.Admission.{is_inside, uses_window, if_asked, lock_task, on_one_device, range_device, range_questions};

use memory::{JobType, LogicalAddress, MemAddress, Refusal, Task};
use multiples::is_multiple;
use plan::records::{AreaRecord, Plan, SubAreaRecord};
use segment::{
    FoundByte, index_of, is_lock, locate, map_address, segment_at, segment_found, unit_of,
};

fn offset_of(found: Option<FoundByte>) -> u64
    ensures { result ≡ offset_of found }
{
    found.map_or(0, |byte| byte.offset)
}

// Where the last byte of a range lies: nowhere if the range has no byte, or begins before the area.
fn last_byte(
    sub_areas: &[SubAreaRecord; 32],
    count: usize,
    start: LogicalAddress,
    area: usize,
    address: LogicalAddress,
    n: u32,
) -> Option<FoundByte>
    requires { count ≤ 32 }
    ensures { result ≡ last_byte sub_areas.now count start.0 area address.0 n }
{
    if n < 1 || address.0 < start.0 {
        return None;
    }
    locate(&sub_areas[..count], start, area, address, n - 1)
}

// Question 12: is the range inside the area, and of at least one byte?
#[tactic(auto, using(crate::specs::RangeLaws::last_inside))]
pub fn is_inside(plan: Plan, area: usize, address: LogicalAddress, n: u32) -> bool
    requires { (plan.sub_area_count ≤ 32) × (area < 8) }
    ensures { result ≡ is_inside plan area address n }
{
    last_byte(
        &plan.sub_areas,
        plan.sub_area_count,
        plan.areas[area].start,
        area,
        address,
        n,
    )
    .is_some()
}

// The place so many bytes before one that was found, if it is in the same sub-area.
fn back_from(found: Option<FoundByte>, n: u64) -> Option<FoundByte>
    requires { Behind found }
    ensures { result ≡ back_from found n }
{
    let byte = found?;
    if byte.offset < n {
        return None;
    }
    Some(FoundByte {
        offset: byte.offset - n,
        address: MemAddress(byte.address.0 - n),
        ..byte
    })
}

// Where the first byte of a range lies whose last was found. Most ranges lie in one sub-area, so a second lookup is rare.
#[tactic(auto, using(crate::specs::RangeLaws::mapped_behind, crate::specs::RangeLaws::back_mapped))]
fn first_byte(plan: Plan, area: usize, task: Task, last: Option<FoundByte>) -> Option<FoundByte>
    requires { (plan.sub_area_count ≤ 32) × (area < 8) × (1 ≤ task.length) × (last ≡ mapped plan area (record { 0 = task.address.0 + task.length - 1 })) }
    ensures { result ≡ mapped plan area task.address }
{
    let near = back_from(last, (task.length as u64) - 1);
    if near.is_some() {
        return near;
    }
    map_address(plan, area, task.address)
}

// Question 13: do start and end of the range lie on a unit of the sub-areas they are in?
fn is_aligned(
    kind: JobType,
    begins: SubAreaRecord,
    first: Option<FoundByte>,
    ends: SubAreaRecord,
    last: Option<FoundByte>,
) -> bool
    requires { offset_of last ≤ 8589934591 }
    ensures { result ≡ (multiple (unit_of kind begins) (offset_of first) && multiple (unit_of kind ends) (offset_of last + 1)) }
{
    is_multiple(unit_of(kind, begins) as u64, offset_of(first))
        && is_multiple(unit_of(kind, ends) as u64, offset_of(last) + 1)
}

pub fn uses_window(kind: JobType) -> bool
    ensures { result ≡ uses_window kind }
{
    matches!(kind, JobType::Write | JobType::Read | JobType::Compare)
}

// Question 14: is the range, if its kind uses the window, no longer than that?
fn fits_window(record: AreaRecord, task: Task) -> bool
    ensures { result ≡ if_asked (uses_window task.kind) (leb task.length «record».window.length) }
{
    !uses_window(task.kind) || task.length <= record.window.length
}

fn lock_task(address: LogicalAddress, n: u32) -> Task
    ensures { result ≡ lock_task address n }
{
    Task {
        kind: JobType::Lock,
        address,
        length: n,
    }
}

// The device of the first byte of a range.
pub fn range_device(plan: Plan, area: usize, address: LogicalAddress, n: u32) -> u8
    requires { (plan.sub_area_count ≤ 32) × (area < 8) }
    ensures { result ≡ range_device plan area address n }
{
    segment_at(plan, area, lock_task(address, n), 0).device
}

// Question 15: is every part of the range on the device of the first?
pub fn on_one_device(plan: Plan, area: usize, address: LogicalAddress, n: u32) -> bool
    requires { (plan.sub_area_count ≤ 32) × (area < 8) × (is_inside plan area address n ≡ true) }
    ensures { result ≡ on_one_device plan area address n }
{
    let task = lock_task(address, n);
    let first = segment_at(plan, area, task, 0);
    let mut x = first.length;
    // stays: each turn goes on by the length of the part that it found, which no range and no iterator counts: `while x < n`
    while x < n as u64 {
        let next = segment_at(plan, area, task, x as u32);
        if next.device != first.device {
            return false;
        }
        x += next.length;
    }
    true
}

// Questions 12 to 15, in their order. Accepted, a job is answered with how many retries its first segment may take: its questions have found that segment.
pub fn range_admission(plan: Plan, area: usize, task: Task) -> Result<u8, Refusal>
    requires { (plan.sub_area_count ≤ 32) × (area < 8) }
    ensures answer_value { admission_number result ≡ first_no 12 (range_questions plan area task) }
    ensures retries_value { IfOk result (λ retries. retries ≡ (segment_at plan area task 0).retries) }
{
    let record = plan.areas[area];
    let start = record.start;
    let address = task.address;
    let n = task.length;
    let last = last_byte(
        &plan.sub_areas,
        plan.sub_area_count,
        start,
        area,
        address,
        n,
    );
    if last.is_none() {
        return Err(Refusal::Range);
    }
    let kind = task.kind;
    if is_lock(kind) {
        if !on_one_device(plan, area, address, n) {
            return Err(Refusal::SeveralDevices);
        }
        return Ok(0);
    }
    let first = first_byte(plan, area, task, last);
    let i = index_of(first);
    let begins = plan.sub_areas[i];
    let j = index_of(last);
    let ends = plan.sub_areas[j];
    if !is_aligned(kind, begins, first, ends, last) {
        return Err(Refusal::Alignment);
    }
    if !fits_window(record, task) {
        return Err(Refusal::WindowLength);
    }
    let segment = segment_found(task, 0, begins, first);
    Ok(segment.retries)
}
