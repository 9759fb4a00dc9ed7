// Question 1, whole records with known marks in the order of kinds: how many of each stand in a plan's bytes.
ghost use Rattle.std.specs.Prelude.{◌≡◌, ◌+◌, ◌*◌, ◌≤◌, eqb, length, get_or};
ghost use Rattle.arith.specs.Bounded.{some};
ghost use Rattle.plan.specs.Records.{is_record, records_from, record_layout};

use crate::records::{AreaRecord, DeviceRecord, Record, SubAreaRecord, WearRecord};

// The two bytes of a record's mark, and how many bytes it has with its mark.
#[derive(Clone, Copy)]
pub struct RecordFormat {
    pub first: u8,
    // the second bytes that will do
    pub seconds: [u8; 3],
    pub size: usize,
}

// Does a whole record of this format stand at `at`?
#[tactic(auto, using(crate::proofs::laws::RecordLaws::among_seconds), unfolding(crate::specs::Records::is_record))]
fn is_record(bytes: &[u8], at: usize, format: RecordFormat) -> bool
    requires { (at ≤ length bytes.now) × (2 ≤ format.size) }
    ensures { result ≡ is_record format bytes.now at }
{
    format.size <= bytes.len() - at
        && bytes[at] == format.first
        && format.seconds.contains(&bytes[at + 1])
}

// Records of one format, one behind the other: how many, and where they end.
#[derive(Clone, Copy)]
pub struct Run {
    pub count: usize,
    pub end: usize,
}

fn run_from(bytes: &[u8], from: usize, format: RecordFormat) -> Run
    requires { (from ≤ length bytes.now) × (2 ≤ format.size) }
    ensures { (result.count ≡ records_from format bytes.now from) × (result.end ≡ from + result.count * format.size) × (result.end ≤ length bytes.now) }
{
    let size = format.size;
    let mut count = 0;
    let mut end = from;
    // stays: `bytes[from..].chunks_exact(size).take_while(..).count()` would leave the end to be worked out from the count
    while is_record(bytes, end, format) {
        count += 1;
        end += size;
    }
    Run { count, end }
}

// How many records of each kind there are, and where the kinds begin and end.
#[derive(Clone, Copy)]
pub struct RecordLayout {
    pub device_count: usize,
    pub area_count: usize,
    pub sub_area_count: usize,
    pub areas_start: usize,
    pub sub_areas_start: usize,
    pub wear_start: usize,
    pub wear_count: usize,
    pub end: usize,
}

pub fn record_layout(bytes: &[u8]) -> RecordLayout
    ensures value { result ≡ record_layout bytes.now }
    ensures end_in_bounds { result.end ≤ length bytes.now }
{
    let devices = run_from(bytes, 0, DeviceRecord::FORMAT);
    let areas = run_from(bytes, devices.end, AreaRecord::FORMAT);
    let sub_areas = run_from(bytes, areas.end, SubAreaRecord::FORMAT);
    let wear = run_from(bytes, sub_areas.end, WearRecord::FORMAT);
    RecordLayout {
        device_count: devices.count,
        area_count: areas.count,
        sub_area_count: sub_areas.count,
        areas_start: devices.end,
        sub_areas_start: areas.end,
        wear_start: sub_areas.end,
        wear_count: wear.count,
        end: wear.end,
    }
}
