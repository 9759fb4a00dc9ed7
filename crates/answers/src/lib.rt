// The first half of a round: a device with a running request takes its answer. And what its answer wears.
#![tactic(auto)]

ghost use Rattle.std.specs.Prelude.{◌≡◌, ◌≤◌};
ghost use Rattle.rules.specs.Machine.{doing};
ghost use Rattle.answers.specs.laws.Answers.{Lent, turn_area, turn_state, turn_due, turn_memory};
ghost use Rattle.answers.specs.Worn.{is_done, worn_on};
ghost use Rattle.segment.specs.Segments.{is_erase};
ghost use Rattle.effects.specs.Effects.{memory_of};

use memory::DeviceAnswer;
use plan::records::{AreaRecord, DeviceRecord, SubAreaRecord};
use requests::{next_segment, take_request};
use segment::{Segment, is_erase};
use state::{Area, Device, DeviceState, Job};
use wear::{Worn, sectors_in};

// What a device's answer makes of the device, and of the area that its request is for.
#[derive(Clone, Copy)]
pub struct Turn {
    pub area: Area,
    pub due: Segment,
    pub device: Device,
}

// A device takes its answer; `entry` and `due` are of the area that its request is for. What it keeps suspended stays.
pub fn take_answer(
    sub_areas: [SubAreaRecord; 32],
    count: usize,
    area_record: AreaRecord,
    device_record: DeviceRecord,
    entry: Area,
    due: Segment,
    device: Device,
    answer: DeviceAnswer,
    image: &mut [u8],
    store: &mut [u8],
) -> Turn
    requires { (count ≤ 32) × Lent area_record entry due image.old store.old device.state }
    ensures area_value { result.area ≡ turn_area sub_areas count area_record device_record entry due answer (memory_of image.old store.old) device.state }
    ensures due_value { result.due ≡ turn_due sub_areas count area_record entry due answer (memory_of image.old store.old) device.state }
    ensures device_value { result.device ≡ doing (turn_state area_record device_record entry due answer (memory_of image.old store.old) device.state) device }
    ensures image_after { image.new ≡ (turn_memory area_record device_record entry due answer (memory_of image.old store.old) device.state).image }
    ensures store_after { store.new ≡ (turn_memory area_record device_record entry due answer (memory_of image.old store.old) device.state).store }
{
    match device.state {
        DeviceState::Runs { area, polls } => {
            let job = entry.job;
            let start = area_record.start;
            let next = next_segment(answer, sub_areas, count, start, area as usize, job, due);
            let taken = take_request(
                area_record.window.start,
                device_record.poll_limit,
                device_record.clears,
                area,
                polls,
                job,
                due,
                next,
                answer,
                image,
                store,
            );
            Turn {
                area: Area {
                    job: taken.job,
                    ..entry
                },
                due: taken.due,
                device: Device {
                    state: taken.state,
                    ..device
                },
            }
        }
        DeviceState::Free | DeviceState::LockedFor(_) => Turn {
            area: entry,
            due,
            device,
        },
    }
}

fn is_done(answer: DeviceAnswer) -> bool
    ensures { result ≡ is_done answer }
{
    matches!(answer, DeviceAnswer::Done)
}

// Do the job's requests wear? Those of a cancelled job do too.
fn wears(job: Job) -> bool
    ensures { result ≡ is_erase job.task.kind }
{
    is_erase(job.task.kind)
}

// What a device's answer wears, before it is taken: the sectors of its request, if that is an erase and done. Job and due segment are those of the area that
// the request is for.
pub fn worn_by(state: DeviceState, answer: DeviceAnswer, job: Job, due: Segment) -> Worn
    ensures { result ≡ worn_on state answer job.task.kind due }
{
    match state {
        DeviceState::Runs { .. } if is_done(answer) && wears(job) => Worn {
            sub_area: due.sub_area as usize,
            sectors: sectors_in(due.length, due.sector),
        },
        DeviceState::Free | DeviceState::LockedFor(_) | DeviceState::Runs { .. } => Worn::none(),
    }
}
