// Questions 9 to 19 of the calls, in their order.
#![tactic(auto)]

ghost use Rattle.std.specs.Prelude.{◌∷◌, [], ◌≡◌, true, not, ◌≤◌, ltb};
ghost use Rattle.arith.specs.Cases.{pick};
ghost use Rattle.arith.specs.FirstNo.{first_no};
ghost use Rattle.memory.specs.Numbers.{admission_number};
ghost use Rattle.rules.specs.Admission.{skip, info_questions, memory_info_questions, release_questions, image_fits, store_reaches, round_number};
ghost use Rattle.rules.specs.Machine.{is_pending};
ghost use Rattle.plan.specs.Questions.{counts_fit};
ghost use Rattle.questions.specs.laws.QuestionLaws.{devices_alone};
ghost use Rattle.devices.specs.Arrays.{job_in};
ghost use Rattle.machine.specs.Sound.{is_sound};
ghost use Rattle.machine.specs.laws.Dues.{Due, DueIfSound};

use admission::{is_inside, on_one_device, range_device};
use devices::holds_lock;
use jobs::is_pending;
use machine::dues::{due_segments, states_fit};
use memory::{Admission, LogicalAddress, Refusal};
use plan::checks::{counts_fit, device_sum};
use plan::records::Plan;
use segment::{Segment, no_segment};
use state::{Area, Device, Job};

// Whether the state is sound, question 9, is asked by the caller, who has it whole: to pass it on would cost a copy.
// 9, 10: a query.
pub fn info_admission(sound: bool, plan: Plan, area: usize) -> Admission
    ensures { admission_number result ≡ first_no 9 (sound ∷ info_questions plan area) }
{
    if !sound {
        return Err(Refusal::Unsound);
    }
    if plan.area_count <= area {
        return Err(Refusal::UnknownArea);
    }
    Ok(())
}

// 9, 10, 12: memory info, with length 1.
pub fn memory_admission(sound: bool, plan: Plan, area: usize, address: LogicalAddress) -> Admission
    requires { sound ≡ true → (plan.area_count ≤ 8) × (plan.sub_area_count ≤ 32) }
    ensures { admission_number result ≡ first_no 9 (sound ∷ memory_info_questions plan area address) }
{
    if !sound {
        return Err(Refusal::Unsound);
    }
    if plan.area_count <= area {
        return Err(Refusal::UnknownArea);
    }
    if !is_inside(plan, area, address, 1) {
        return Err(Refusal::Range);
    }
    Ok(())
}

// 9, 10, 17: a cancel, of an area with this job.
pub fn cancel_admission(sound: bool, area_count: usize, area: usize, job: Job) -> Admission
    ensures { admission_number result ≡ first_no 9 (sound ∷ ltb area area_count ∷ skip 6 (is_pending job ∷ [])) }
{
    if !sound {
        return Err(Refusal::Unsound);
    }
    if area_count <= area {
        return Err(Refusal::UnknownArea);
    }
    if !is_pending(job) {
        return Err(Refusal::NotPending);
    }
    Ok(())
}

// 9, 10, 11: one of the five jobs, or a lock request, for an area with this job. Those of its range follow (admission::range_admission).
pub fn idle_admission(sound: bool, area_count: usize, area: usize, job: Job) -> Admission
    ensures { admission_number result ≡ first_no 9 (sound ∷ ltb area area_count ∷ not (is_pending job) ∷ []) }
{
    if !sound {
        return Err(Refusal::Unsound);
    }
    if area_count <= area {
        return Err(Refusal::UnknownArea);
    }
    if is_pending(job) {
        return Err(Refusal::Busy);
    }
    Ok(())
}

// 9, 10, 12, 15, 16: a release.
pub fn release_admission(
    sound: bool,
    plan: Plan,
    devices: [Device; 4],
    area: usize,
    address: LogicalAddress,
    length: u32,
) -> Admission
    requires { sound ≡ true → (plan.area_count ≤ 8) × (plan.sub_area_count ≤ 32) }
    ensures { admission_number result ≡ first_no 9 (sound ∷ release_questions plan (devices_alone devices) area address length) }
{
    if !sound {
        return Err(Refusal::Unsound);
    }
    if plan.area_count <= area {
        return Err(Refusal::UnknownArea);
    }
    if !is_inside(plan, area, address, length) {
        return Err(Refusal::Range);
    }
    if !on_one_device(plan, area, address, length) {
        return Err(Refusal::SeveralDevices);
    }
    let device = range_device(plan, area, address, length);
    if !holds_lock(devices, device as usize, area) {
        return Err(Refusal::NotHolder);
    }
    Ok(())
}

// 18: is the image as long as the devices together?
fn image_fits(plan: Plan, image: &[u8]) -> bool
    requires { plan.device_count ≤ 4 }
    ensures { result ≡ image_fits plan image.now }
{
    image.len() as u64 == device_sum(plan.devices, plan.device_count)
}

// 19: does the store reach every window's end, and so the furthest?
fn store_reaches(plan: Plan, store: &[u8]) -> bool
    requires { plan.area_count ≤ 8 }
    ensures { result ≡ store_reaches plan store.now }
{
    plan.areas[..plan.area_count]
        .iter()
        .all(|area| area.window_end() <= store.len() as u64)
}

// 9, 18, 19, with the due segments of the pending jobs, and counts that fit.
fn round_answer(
    plan: Plan,
    areas: [Area; 8],
    devices: [Device; 4],
    dues: [Segment; 8],
    image: &[u8],
    store: &[u8],
) -> Admission
    requires { (counts_fit plan.device_count plan.area_count plan.sub_area_count ≡ true) × Due plan dues (job_in areas) }
    ensures { admission_number result ≡ pick (is_sound plan areas devices) (round_number plan image.now store.now) 9 }
{
    if !states_fit(
        plan.devices,
        plan.device_count,
        plan.areas,
        plan.area_count,
        areas,
        devices,
        dues,
    ) {
        return Err(Refusal::Unsound);
    }
    if !image_fits(plan, image) {
        return Err(Refusal::ImageLength);
    }
    if !store_reaches(plan, store) {
        return Err(Refusal::StoreLength);
    }
    Ok(())
}

// 9, 18, 19: the answer to a round, with the due segments of the pending jobs, which an accepted round goes on with. Of a state
// that is not sound they are left open: no round follows.
// stays: the clause due_if_sound of round_admission speaks of the dues also where the answer is 18 or 19, and an Err holds none.
#[derive(Clone, Copy)]
pub struct RoundAdmission {
    pub answer: Admission,
    pub dues: [Segment; 8],
}

pub fn round_admission(
    plan: Plan,
    areas: [Area; 8],
    devices: [Device; 4],
    image: &[u8],
    store: &[u8],
) -> RoundAdmission
    ensures answer_value { admission_number result.answer ≡ pick (is_sound plan areas devices) (round_number plan image.now store.now) 9 }
    ensures due_if_sound { DueIfSound plan areas devices result.dues }
{
    if !counts_fit(plan.device_count, plan.area_count, plan.sub_area_count) {
        return RoundAdmission {
            answer: Err(Refusal::Unsound),
            dues: [no_segment(); 8],
        };
    }
    let dues = due_segments(plan.sub_areas, plan.sub_area_count, plan.areas, areas);
    let answer = round_answer(plan, areas, devices, dues, image, store);
    RoundAdmission { answer, dues }
}
