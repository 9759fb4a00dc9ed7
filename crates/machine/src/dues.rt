// The due segments of all pending jobs, found once for a round, and the soundness test with them.
ghost use Rattle.std.specs.Prelude.{◌≡◌, ◌≤◌, length};
ghost use Rattle.arith.specs.Bounded.{every};
ghost use Rattle.machine.specs.laws.Dues.{due_found, dues_of, fits_in};

use crate::soundness::{runner, state_fits};
use jobs::is_pending;
use memory::LogicalAddress;
use plan::checks::device_sum;
use plan::records::{AreaRecord, DeviceRecord, SubAreaRecord};
use segment::{FoundByte, Segment, index_of, locate, no_segment, segment_found};
use state::{Area, Device, Job};

// Where the next byte of a pending job lies.
fn locate_due(
    sub_areas: &[SubAreaRecord],
    start: LogicalAddress,
    area: usize,
    job: Job,
) -> Option<FoundByte>
    ensures { result ≡ due_found sub_areas.now (length sub_areas.now) start.0 area job }
{
    if !is_pending(job) {
        return None;
    }
    locate(sub_areas, start, area, job.task.address, job.processed)
}

// For a round's questions (`questions`). The records in use are lent to all lookups of the loop.
#[tactic(auto, using(crate::specs::laws::Dues::due_index, crate::specs::laws::Dues::due_inside, crate::specs::laws::Dues::due_front))]
pub fn due_segments(
    sub_areas: [SubAreaRecord; 32],
    count: usize,
    area_records: [AreaRecord; 8],
    areas: [Area; 8],
) -> [Segment; 8]
    requires { count ≤ 32 }
    ensures { result ≡ dues_of sub_areas count area_records areas }
{
    let mut dues = [no_segment(); 8];
    let in_use = &sub_areas[..count];
    for a in 0..8 {
        let job = areas[a].job;
        let found = locate_due(in_use, area_records[a].start, a, job);
        dues[a] = segment_found(job.task, job.processed, sub_areas[index_of(found)], found);
    }
    dues
}

// The soundness test of the devices' states, with the due segments, for a round's questions.
pub fn states_fit(
    device_records: [DeviceRecord; 4],
    device_count: usize,
    area_records: [AreaRecord; 8],
    area_count: usize,
    areas: [Area; 8],
    devices: [Device; 4],
    dues: [Segment; 8],
) -> bool
    requires { device_count ≤ 4 }
    ensures { result ≡ every (fits_in device_records device_count area_records area_count areas devices dues) device_count }
{
    let sum = device_sum(device_records, device_count);
    for d in 0..device_count {
        let state = devices[d].state;
        let area = runner(state);
        if !state_fits(
            sum,
            device_records[d],
            area_count,
            area_records[area],
            d,
            areas[area].job,
            dues[area],
            state,
        ) {
            return false;
        }
    }
    true
}
