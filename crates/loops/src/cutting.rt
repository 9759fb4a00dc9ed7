// Cutting alone: the burst test over two lists, and the segments of a job one after the other.
ghost use Rattle.std.specs.Prelude.{◌≡◌, ◌≤◌};
ghost use Rattle.manager.specs.Load.{loaded_manager};
ghost use Rattle.loops.specs.Repeated.{task_of};
ghost use Rattle.loops.specs.Cutting.{multiple_count, processed_next, cut_total, place_in, placed_total};
ghost use Rattle.segment.specs.laws.Found.{Inside};

use crate::task_of;
use manager::Manager;
use memory::MemAddress;
use multiples::is_multiple;
use plan::records::SubAreaRecord;
use segment::{FoundByte, segment_at, segment_found};

// Sizes and addresses are lent, so that no test can be made before its turn.
pub fn burst_tests(sizes: &[u64], addresses: &[u64]) -> u64
    ensures { result ≡ multiple_count sizes.now addresses.now }
{
    let mut count: u64 = 0;
    for i in 0..sizes.len().min(addresses.len()) {
        count += u64::from(is_multiple(sizes[i], addresses[i]));
    }
    count
}

#[tactic(auto, unfolding(crate::specs::Cutting::processed_next))]
fn processed_next(length: u32, processed: u32, cut: u64) -> u32
    requires { processed ≤ length }
    ensures { (result ≡ processed_next length processed cut) × (result ≤ length) }
{
    if cut < (length - processed) as u64 {
        return processed + (cut as u32);
    }
    0
}

// A job of area 0, from logical address 0 on, cut from its first segment to its last, and again.
pub fn cuts(plan: &[u8], kind: u8, length: u32, times: u32) -> u64
    ensures { result ≡ cut_total (loaded_manager plan.now).plan (task_of kind length) times }
{
    let manager = Manager::load(plan).manager;
    let task = task_of(kind, length);
    let mut processed: u32 = 0;
    let mut sum: u64 = 0;
    for _turn in 0..times {
        let segment = segment_at(manager.plan, 0, task, processed);
        processed = processed_next(length, processed, segment.length);
        sum += processed as u64;
    }
    sum
}

// Where a byte of the sub-area lies.
fn place_in(sub_area: SubAreaRecord, byte: u32) -> Option<FoundByte>
    ensures { (result ≡ place_in sub_area byte) × Inside sub_area result }
{
    let offset = byte as u64;
    if offset < sub_area.size() {
        let address = MemAddress((sub_area.start as u64) + offset);
        return Some(FoundByte {
            sub_area: 0,
            offset,
            address,
        });
    }
    None
}

// The same without the lookup: a job that begins with its sub-area, cut in the 32 records in turn, so that no test of a size can be made before its turn.
pub fn placed_cuts(plan: &[u8], kind: u8, length: u32, times: u32) -> u64
    ensures { result ≡ placed_total (loaded_manager plan.now).plan.sub_areas (task_of kind length) times }
{
    let plan = Manager::load(plan).manager.plan;
    let task = task_of(kind, length);
    let mut processed: u32 = 0;
    let mut sum: u64 = 0;
    for i in 0..times {
        let sub_area = plan.sub_areas[(i % 32) as usize];
        let found = place_in(sub_area, processed);
        let segment = segment_found(task, processed, sub_area, found);
        processed = processed_next(length, processed, segment.length);
        sum += processed as u64;
    }
    sum
}
