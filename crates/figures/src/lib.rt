// The auditor's figures of a job: the bounds of demand 3, and the image bytes that it reaches.
#![tactic(auto)]

ghost use Rattle.std.specs.Prelude.{◌∷◌, ◌≡◌, ◌+◌, ◌*◌, ◌≤◌, ◌<◌};
ghost use Rattle.plan.specs.Questions.{device_of};
ghost use Rattle.segment.specs.Segments.{span_most, segment_at, segments_from};
ghost use Rattle.segment.specs.laws.CutLaws.{Cut};
ghost use Rattle.figures.specs.Figures.{Audited, bounds_of, factor_of};
ghost use Rattle.figures.specs.Ranges.{adjoins, ranges_of};
ghost use Rattle.figures.specs.laws.BoundLaws.{bounds_more, all_bounds};

use memory::Task;
use plan::records::{DeviceRecord, Plan};
use segment::{Segment, is_lock, segment_at};

// What a job has at most as own and below, and how many segments and stretches it has.
#[derive(Clone, Copy, Default)]
pub struct Bounds {
    pub own: u64,
    pub below: u64,
    pub segments: u64,
    pub spans: u64,
}

// Image bytes of a device, one behind the other.
#[derive(Clone, Copy)]
pub struct Range {
    pub device: u8,
    pub start: u64,
    pub length: u64,
}

// The device record of a segment.
pub fn record_of(plan: Plan, device: u8) -> DeviceRecord
    requires { device < 4 }
    ensures { result ≡ device_of plan.devices device }
{
    plan.devices[device as usize]
}

// The factor of chips that suspend.
pub fn factor_of(suspends: bool) -> u64
    ensures { result ≡ factor_of suspends }
{
    if suspends { 2 } else { 1 }
}

// What lower requests can stand before a stretch on the device.
pub fn span_most(record: DeviceRecord) -> u64
    ensures { (result ≡ span_most «record».suspends «record».poll_limit) × (result ≤ 131068) }
{
    factor_of(record.suspends) * (record.poll_limit as u64).saturating_sub(1)
}

// The rounds of a segment with all its tries.
pub fn try_rounds(limit: u16, retries: u8) -> u64
    ensures { (result ≡ limit * (retries + 1)) × (result ≤ 16776960) }
{
    limit as u64 * (retries as u64 + 1)
}

impl Bounds {
    // With one segment more, in the stretch of the last one or in the next.
    fn more(self, same: bool, rounds: u64, most: u64) -> Bounds
        requires { (self.own + rounds < 18446744073709551616) × (self.below + most < 18446744073709551616) × (self.segments < 4294967296) × (self.spans < 4294967296) }
        ensures { result ≡ bounds_more same rounds most self }
    {
        let more = Bounds {
            own: self.own + rounds,
            segments: self.segments + 1,
            ..self
        };
        if same {
            return more;
        }
        Bounds {
            below: self.below + most,
            spans: self.spans + 1,
            ..more
        }
    }
}

// Where the next segment begins.
fn behind(x: u32, segment: Segment) -> u32
    requires { x + segment.length ≤ 4294967295 }
    ensures { result ≡ x + segment.length }
{
    x + segment.length as u32
}

// The segments one by one; before the first one no stretch is begun.
fn cut_bounds(plan: Plan, area: usize, task: Task) -> Bounds
    requires { Audited plan area task }
    ensures { result ≡ all_bounds plan (segments_from (segment_at plan area task) task 0) }
{
    let mut bounds = Bounds::default();
    let mut last = None;
    let mut x = 0;
    while x < task.length {
        let segment = segment_at(plan, area, task, x);
        let record = record_of(plan, segment.device);
        let rounds = try_rounds(record.poll_limit, segment.retries);
        let most = span_most(record);
        let same = last == Some(segment.device);
        bounds = bounds.more(same, rounds, most);
        last = Some(segment.device);
        x = behind(x, segment);
    }
    bounds
}

pub fn job_bounds(plan: Plan, area: usize, task: Task) -> Bounds
    requires { Audited plan area task }
    ensures { result ≡ bounds_of plan area task }
{
    if is_lock(task.kind) {
        let segment = segment_at(plan, area, task, 0);
        return Bounds {
            below: span_most(record_of(plan, segment.device)),
            spans: 1,
            ..Bounds::default()
        };
    }
    cut_bounds(plan, area, task)
}

impl Range {
    // Is the segment on the range's device, and does it begin where the range ends?
    fn adjoins(self, segment: Segment) -> bool
        requires { self.start + self.length ≤ 16777216 }
        ensures { result ≡ adjoins self segment }
    {
        self.device == segment.device && self.start + self.length == segment.start.0
    }
}

// The first range from byte x of a job on, and where the next one begins.
#[derive(Clone, Copy)]
pub struct RangeStep {
    pub range: Range,
    pub next: u32,
}

pub fn next_range(plan: Plan, area: usize, task: Task, x: u32) -> RangeStep
    requires { Audited plan area task × Cut (segment_at plan area task) task x × (x < task.length) }
    ensures x_value { ranges_of (segments_from (segment_at plan area task) task x) ≡ result.range ∷ ranges_of (segments_from (segment_at plan area task) task result.next) }
    ensures cut { Cut (segment_at plan area task) task result.next × (x < result.next) × (result.next ≤ task.length) }
    ensures le_length { (1 ≤ result.range.length) × (result.range.start + result.range.length ≤ 16777216) }
{
    let first = segment_at(plan, area, task, x);
    let mut range = Range {
        device: first.device,
        start: first.start.0,
        length: first.length,
    };
    let mut next = behind(x, first);
    while next < task.length {
        let segment = segment_at(plan, area, task, next);
        if !range.adjoins(segment) {
            return RangeStep { range, next };
        }
        range.length += segment.length;
        next = behind(next, segment);
    }
    RangeStep { range, next }
}
