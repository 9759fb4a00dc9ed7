// The calls for an owner of a manager who keeps it in one place: each takes the manager's parts and hands back only what it changes, and the owner writes that back. So a call costs the
// same however large the manager is; what a call does not look at, as the wear, it is not given. What the manager is then is what the calls by value return (`changed`, `after_job` and its siblings).
ghost use Rattle.std.specs.Prelude.{◌≡◌, ℕ, ◌<◌, List};
ghost use Rattle.memory.specs.Numbers.{admission_number};
ghost use Rattle.effects.specs.Effects.{memory_of};
ghost use Rattle.wear.specs.Wear.{add_worn};
ghost use Rattle.manager.specs.Calls.{manager_of, changed, job_number_of, after_job, release_number_of, after_release, cancel_number_of, after_cancel, round_number_of, after_round, memory_after_round};

use admission::range_device;
use changes::{Change, ask, begin, stop};
use machine::soundness::is_sound;
use memory::{Admission, DeviceAnswer, LogicalAddress, Task};
use plan::records::Plan;
use questions::{cancel_admission, idle_admission, release_admission, round_admission};
use rounds::halves::{Arrays, run_round};
use state::{Area, Device, DeviceState};
use wear::Worn;

// What a round changes. The owner adds what it wears to the sums: `wear::add_worn`.
// stays: the clause manager_value of round_change says the parts also where the round is refused, and an Err holds none.
#[derive(Clone, Copy)]
pub struct RoundChange {
    pub areas: [Area; 8],
    pub devices: [Device; 4],
    pub worn: [Worn; 4],
    pub answer: Admission,
}

// One of the five jobs, or a lock request.
#[inline(always)]
pub fn job_change(
    plan: Plan,
    areas: [Area; 8],
    devices: [Device; 4],
    ages: [u8; 8],
    area: usize,
    task: Task,
) -> Change
    ensures answer_value { (wear : List ℕ) → admission_number result.answer ≡ job_number_of (manager_of plan areas devices ages wear) area task }
    ensures manager_value { (wear : List ℕ) → changed (manager_of plan areas devices ages wear) result ≡ after_job (manager_of plan areas devices ages wear) area task }
    ensures numbers_bound { (result.area_number < 8) × (result.device_number < 4) }
{
    let asked = ask(plan, areas, devices, area);
    let answer = idle_admission(asked.sound, plan.area_count, area, asked.area.job);
    match answer {
        Err(_) => Change::none(areas, devices, ages, answer),
        Ok(()) => begin(plan, asked, devices[0], ages, task),
    }
}

#[inline(always)]
pub fn cancel_change(
    plan: Plan,
    areas: [Area; 8],
    devices: [Device; 4],
    ages: [u8; 8],
    area: usize,
) -> Change
    ensures answer_value { (wear : List ℕ) → admission_number result.answer ≡ cancel_number_of (manager_of plan areas devices ages wear) area }
    ensures manager_value { (wear : List ℕ) → changed (manager_of plan areas devices ages wear) result ≡ after_cancel (manager_of plan areas devices ages wear) area }
    ensures numbers_bound { (result.area_number < 8) × (result.device_number < 4) }
{
    let asked = ask(plan, areas, devices, area);
    let answer = cancel_admission(asked.sound, plan.area_count, area, asked.area.job);
    match answer {
        Err(_) => Change::none(areas, devices, ages, answer),
        Ok(()) => stop(plan, asked, devices, ages),
    }
}

#[inline(always)]
pub fn release_change(
    plan: Plan,
    areas: [Area; 8],
    devices: [Device; 4],
    ages: [u8; 8],
    area: usize,
    address: LogicalAddress,
    length: u32,
) -> Change
    ensures answer_value { (wear : List ℕ) → admission_number result.answer ≡ release_number_of (manager_of plan areas devices ages wear) area address length }
    ensures manager_value { (wear : List ℕ) → changed (manager_of plan areas devices ages wear) result ≡ after_release (manager_of plan areas devices ages wear) area address length }
    ensures numbers_bound { (result.area_number < 8) × (result.device_number < 4) }
{
    let sound = is_sound(plan, areas, devices);
    let answer = release_admission(sound, plan, devices, area, address, length);
    match answer {
        Err(_) => Change::none(areas, devices, ages, answer),
        Ok(()) => {
            let number = range_device(plan, area, address, length) as usize;
            Change {
                area_number: 0,
                area: areas[0],
                device_number: number,
                device: Device {
                    state: DeviceState::Free,
                    ..devices[number]
                },
                ages,
                answer,
            }
        }
    }
}

// A round takes the four answers of its devices, one each, and is lent image and job store. The ages stay.
pub fn round_change(
    plan: Plan,
    areas: [Area; 8],
    devices: [Device; 4],
    ages: [u8; 8],
    answers: [DeviceAnswer; 4],
    image: &mut [u8],
    store: &mut [u8],
) -> RoundChange
    ensures answer_value { (wear : List ℕ) → admission_number result.answer ≡ round_number_of (manager_of plan areas devices ages wear) (memory_of image.old store.old) }
    ensures manager_value { (wear : List ℕ) → manager_of plan result.areas result.devices ages (add_worn result.worn 4 wear) ≡ after_round (manager_of plan areas devices ages wear) answers (memory_of image.old store.old) }
    ensures image_after { (wear : List ℕ) → image.new ≡ (memory_after_round (manager_of plan areas devices ages wear) answers (memory_of image.old store.old)).image }
    ensures store_after { (wear : List ℕ) → store.new ≡ (memory_after_round (manager_of plan areas devices ages wear) answers (memory_of image.old store.old)).store }
{
    let asked = round_admission(plan, areas, devices, image, store);
    let answer = asked.answer;
    match answer {
        Err(_) => RoundChange {
            areas,
            devices,
            worn: [Worn::none(); 4],
            answer,
        },
        Ok(()) => {
            let Arrays {
                areas,
                devices,
                worn,
            } = run_round(
                plan, answers, areas, devices, ages, asked.dues, image, store,
            );
            RoundChange {
                areas,
                devices,
                worn,
                answer,
            }
        }
    }
}
