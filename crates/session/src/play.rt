// What a line's call changes of the manager, and its answer printed on a page.
ghost use Rattle.std.specs.Prelude.{◌≡◌, ℕ, ◌≤◌, ◌<◌, List};
ghost use Rattle.std.specs.Result.{result_unwrap_or};
ghost use Rattle.devices.specs.Arrays.{core_in};
ghost use Rattle.effects.specs.Effects.{memory_of};
ghost use Rattle.changes.specs.Accepted.{if_accepted};
ghost use Rattle.manager.specs.Calls.{manager_of, changed, no_job_info, round_number_of, after_round, memory_after_round};
ghost use Rattle.memory.specs.Numbers.{admission_number};
ghost use Rattle.shown.specs.Shown.{devices_line};
ghost use Rattle.texts.specs.Pages.{Prints, room};
ghost use Rattle.texts.specs.Texts.{number_line};
ghost use Rattle.session.specs.Play.{number_of_call, after_call, info_text, round_text};
ghost use Rattle.session.specs.laws.PlayLaws.{job_of, plain_of, LineDone};

use changes::Change;
use lines::{Line, LineCall, Target};
use manager::in_place::{RoundChange, cancel_change, job_change, release_change, round_change};
use manager::{Manager, info_of};
use memory::{Admission, DeviceAnswer, JobType, LogicalAddress, Refusal, Task, answer_number};
use plan::records::Plan;
use shown::devices_line;
use state::{Area, Device, JobInfo};
use texts::page::Page;
use wear::add_worn;

// A call by the function that carries it out: one for the five jobs and the lock request.
#[derive(Clone, Copy)]
pub enum PlainCall {
    Job { area: u32, task: Task },
    Release(Target),
    Cancel(u32),
}

fn job_of(kind: JobType, target: Target) -> PlainCall
    ensures { result ≡ job_of kind target }
{
    let address = LogicalAddress(target.address);
    let task = Task {
        kind,
        address,
        length: target.length,
    };
    PlainCall::Job {
        area: target.area,
        task,
    }
}

pub fn plain_of(call: LineCall) -> PlainCall
    ensures { result ≡ plain_of call }
{
    match call {
        LineCall::Write(target) => job_of(JobType::Write, target),
        LineCall::Read(target) => job_of(JobType::Read, target),
        LineCall::Compare(target) => job_of(JobType::Compare, target),
        LineCall::Erase(target) => job_of(JobType::Erase, target),
        LineCall::BlankCheck(target) => job_of(JobType::BlankCheck, target),
        LineCall::Lock(target) => job_of(JobType::Lock, target),
        LineCall::Release(target) => PlainCall::Release(target),
        LineCall::Cancel(area) => PlainCall::Cancel(area),
    }
}

pub fn make(
    plan: Plan,
    areas: [Area; 8],
    devices: [Device; 4],
    ages: [u8; 8],
    call: LineCall,
) -> Change
    ensures answer_value { (wear : List ℕ) → admission_number result.answer ≡ number_of_call call (manager_of plan areas devices ages wear) }
    ensures manager_value { (wear : List ℕ) → changed (manager_of plan areas devices ages wear) result ≡ after_call call (manager_of plan areas devices ages wear) }
    ensures numbers_bound { (result.area_number < 8) × (result.device_number < 4) }
{
    let plain = plain_of(call);
    match plain {
        PlainCall::Job { area, task } => {
            job_change(plan, areas, devices, ages, area as usize, task)
        }
        PlainCall::Release(target) => {
            let address = LogicalAddress(target.address);
            release_change(
                plan,
                areas,
                devices,
                ages,
                target.area as usize,
                address,
                target.length,
            )
        }
        PlainCall::Cancel(area) => cancel_change(plan, areas, devices, ages, area as usize),
    }
}

pub fn print_answer(page: &mut Page, answer: Admission)
    requires { 338 ≤ room page.old }
    ensures { Prints 338 page.old page.new (number_line (admission_number answer)) }
{
    page.number_line(answer_number(answer) as u64);
}

pub fn print_info(page: &mut Page, asked: Result<JobInfo, Refusal>)
    requires { 338 ≤ room page.old }
    ensures { Prints 338 page.old page.new (info_text (admission_number asked) (result_unwrap_or asked no_job_info)) }
{
    match asked {
        Ok(info) => page.info_line(info.result, info.processed, info.waits),
        Err(refusal) => page.number_line(refusal.number() as u64),
    }
}

pub fn print_round(
    page: &mut Page,
    answer: Admission,
    plan: Plan,
    areas: [Area; 8],
    devices: [Device; 4],
)
    requires room_left { 338 ≤ room page.old }
    requires sub_area_count_bound { admission_number answer ≡ 0 → (plan.sub_area_count ≤ 32) × (plan.device_count ≤ 4) }
    ensures { Prints 338 page.old page.new (if_accepted (admission_number answer) (devices_line plan (core_in areas devices)) (number_line (admission_number answer))) }
{
    let number = answer_number(answer);
    if 0 < number {
        page.number_line(number as u64);
        return;
    }
    devices_line(page, plan, areas, devices);
}

fn play_call(manager: &mut Manager, call: LineCall, page: &mut Page)
    requires { 338 ≤ room page.old }
    ensures manager_value { manager.new ≡ after_call call manager.old }
    ensures printed { Prints 338 page.old page.new (number_line (number_of_call call manager.old)) }
{
    let Change {
        area_number,
        area,
        device_number,
        device,
        ages,
        answer,
    } = make(
        manager.plan,
        manager.areas,
        manager.devices,
        manager.ages,
        call,
    );
    manager.areas[area_number] = area;
    manager.devices[device_number] = device;
    manager.ages = ages;
    print_answer(page, answer);
}

fn play_round(
    manager: &mut Manager,
    answers: [DeviceAnswer; 4],
    image: &mut [u8],
    store: &mut [u8],
    page: &mut Page,
)
    requires { 338 ≤ room page.old }
    ensures manager_value { manager.new ≡ after_round manager.old answers (memory_of image.old store.old) }
    ensures image_after { image.new ≡ (memory_after_round manager.old answers (memory_of image.old store.old)).image }
    ensures store_after { store.new ≡ (memory_after_round manager.old answers (memory_of image.old store.old)).store }
    ensures printed { Prints 338 page.old page.new (round_text (round_number_of manager.old (memory_of image.old store.old)) (after_round manager.old answers (memory_of image.old store.old))) }
{
    let RoundChange {
        areas,
        devices,
        worn,
        answer,
    } = round_change(
        manager.plan,
        manager.areas,
        manager.devices,
        manager.ages,
        answers,
        image,
        store,
    );
    manager.areas = areas;
    manager.devices = devices;
    add_worn(&mut manager.wear, worn);
    print_round(page, answer, manager.plan, areas, devices);
}

// What a line does, and its answer: that of a line that cannot be read is a question mark.
pub(crate) fn play_line(
    manager: &mut Manager,
    line: Option<Line>,
    image: &mut [u8],
    store: &mut [u8],
    page: &mut Page,
)
    requires { 338 ≤ room page.old }
    ensures { LineDone line manager.old manager.new (memory_of image.old store.old) (memory_of image.new store.new) page.old page.new }
{
    match line {
        None => page.question_line(),
        Some(Line::Call(call)) => play_call(manager, call, page),
        Some(Line::Info(area)) => {
            let asked = info_of(manager.plan, manager.areas, manager.devices, area as usize);
            print_info(page, asked)
        }
        Some(
            Line::Round {
                first,
                second,
                third,
                fourth,
            },
        ) => {
            let answers = [first, second, third, fourth];
            play_round(manager, answers, image, store, page)
        }
    }
}
