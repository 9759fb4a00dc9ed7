// The manager: its state by value, and its calls.
#![tactic(auto)]

ghost use Rattle.std.specs.Prelude.{◌≡◌, ℕ, ◌<◌, List};
ghost use Rattle.std.specs.Result.{result_unwrap_or};
ghost use Rattle.memory.specs.Numbers.{job_type_number, admission_number};
ghost use Rattle.plan.specs.Questions.{load_number};
ghost use Rattle.memory.specs.declared.JobType.TheVariants.{Write, Read, Compare, Erase, BlankCheck, Lock};
ghost use Rattle.manager.specs.Calls.{manager_of, changed, job_number_of, after_job, release_number_of, after_release, cancel_number_of, after_cancel, info_number_of, status_of, result_of, processed_of, no_job_info, info_of, job_type_of, memory_info_number_of, memory_of_area, wear_of_area, round_number_of, after_round, memory_after_round};
ghost use Rattle.devices.specs.Arrays.{job_in};
ghost use Rattle.effects.specs.Effects.{memory_of};
ghost use Rattle.rules.specs.Queries.{no_memory_info};
ghost use Rattle.rules.specs.Wear.{no_wear_info};
ghost use Rattle.manager.specs.Load.{fresh_manager, loaded_manager};

pub mod in_place;

use crate::in_place::{RoundChange, release_change, round_change};
use changes::{Change, ask, begin, stop};
use loading::load_plan;
use machine::soundness::is_sound;
use memory::{Admission, DeviceAnswer, JobResult, JobType, LogicalAddress, Refusal, Task};
use plan::records::Plan;
use queries::{job_info, memory_info, wear_info};
use questions::{cancel_admission, idle_admission, info_admission, memory_admission};
use state::{Area, Device, Job, JobInfo, MemoryInfo, WearInfo};
use wear::add_worn;

// What the plan fixes, and what moves. An area's age is the number of other areas that had a job accepted since its own
// latest one: among equal priorities the older is above.
#[derive(Clone, Copy)]
pub struct Manager {
    pub plan: Plan,
    pub areas: [Area; 8],
    pub devices: [Device; 4],
    pub ages: [u8; 8],
    // document 02, 05: each sub-area's sum of sectors erased, which sticks
    pub wear: [u32; 32],
}

// The answer to a load, and the manager: of all zeros where the load was refused.
// stays: the clause manager_value of load says the manager also where the load is refused, and an Err holds none.
#[derive(Clone, Copy)]
pub struct Loaded {
    pub answer: Admission,
    pub manager: Manager,
}

// The next manager, the one given where the call was refused, and the answer. In this order of fields a call by value copies a tenth less.
// stays: the clause manager_value of each call says the manager also where the call is refused, and an Err holds none.
#[derive(Clone, Copy)]
pub struct Answered {
    pub manager: Manager,
    pub answer: Admission,
}

// A job's info for an owner who keeps the manager in one place: ages and wear have no part in it.
pub fn info_of(
    plan: Plan,
    areas: [Area; 8],
    devices: [Device; 4],
    area: usize,
) -> Result<JobInfo, Refusal>
    ensures answer_value { (ages wear : List ℕ) → admission_number result ≡ info_number_of (manager_of plan areas devices ages wear) area }
    ensures info_value { (ages wear : List ℕ) → result_unwrap_or result no_job_info ≡ info_of (manager_of plan areas devices ages wear) area }
{
    info_admission(is_sound(plan, areas, devices), plan, area)?;
    Ok(job_info(plan, areas, devices, area))
}

impl Manager {
    fn fresh(plan: Plan, ages: [u8; 8]) -> Manager
        ensures { result ≡ fresh_manager plan ages }
    {
        Manager {
            plan,
            areas: [Area::fresh(); 8],
            devices: [Device::free(); 4],
            ages,
            wear: [0u32; 32],
        }
    }

    pub fn load(bytes: &[u8]) -> Loaded
        ensures answer_value { admission_number result.answer ≡ load_number bytes.now }
        ensures manager_value { result.manager ≡ loaded_manager bytes.now }
    {
        match load_plan(bytes) {
            Err(refusal) => Loaded {
                answer: Err(refusal),
                manager: Manager::fresh(Plan::empty(), [0; 8]),
            },
            Ok(plan) => Loaded {
                answer: Ok(()),
                manager: Manager::fresh(plan, [0, 1, 2, 3, 4, 5, 6, 7]),
            },
        }
    }

    // The manager once what a call changes is written back.
    fn with(mut self, change: Change) -> Answered
        requires { (change.area_number < 8) × (change.device_number < 4) }
        ensures { result ≡ record { answer = change.answer; manager = changed self change } }
    {
        let Change {
            area_number,
            area,
            device_number,
            device,
            ages,
            answer,
        } = change;
        self.areas[area_number] = area;
        self.devices[device_number] = device;
        self.ages = ages;
        Answered {
            answer,
            manager: self,
        }
    }

    fn job_of(self, area: usize) -> Job
        requires { area < 8 }
        ensures { result ≡ job_in self.areas area }
    {
        self.areas[area].job
    }

    // One of the five jobs, or a lock request: accepted, it is pending with nothing processed and all counts 0, and below all
    // pending jobs of its priority.
    fn submit(self, area: usize, kind: JobType, address: LogicalAddress, length: u32) -> Answered
        ensures answer_value { admission_number result.answer ≡ job_number_of self area (record { kind = kind; address = address; length = length }) }
        ensures manager_value { result.manager ≡ after_job self area (record { kind = kind; address = address; length = length }) }
    {
        let asked = ask(self.plan, self.areas, self.devices, area);
        let answer = idle_admission(asked.sound, self.plan.area_count, area, asked.area.job);
        match answer {
            Err(_) => Answered {
                answer,
                manager: self,
            },
            Ok(()) => {
                let task = Task {
                    kind,
                    address,
                    length,
                };
                let change = begin(self.plan, asked, self.devices[0], self.ages, task);
                self.with(change)
            }
        }
    }

    // stays: the six calls over submit, since document 01 names each of them.
    pub fn write(self, area: usize, address: LogicalAddress, length: u32) -> Answered
        ensures answer_value { admission_number result.answer ≡ job_number_of self area (record { kind = Write; address = address; length = length }) }
        ensures manager_value { result.manager ≡ after_job self area (record { kind = Write; address = address; length = length }) }
    {
        self.submit(area, JobType::Write, address, length)
    }

    pub fn read(self, area: usize, address: LogicalAddress, length: u32) -> Answered
        ensures answer_value { admission_number result.answer ≡ job_number_of self area (record { kind = Read; address = address; length = length }) }
        ensures manager_value { result.manager ≡ after_job self area (record { kind = Read; address = address; length = length }) }
    {
        self.submit(area, JobType::Read, address, length)
    }

    pub fn compare(self, area: usize, address: LogicalAddress, length: u32) -> Answered
        ensures answer_value { admission_number result.answer ≡ job_number_of self area (record { kind = Compare; address = address; length = length }) }
        ensures manager_value { result.manager ≡ after_job self area (record { kind = Compare; address = address; length = length }) }
    {
        self.submit(area, JobType::Compare, address, length)
    }

    pub fn erase(self, area: usize, address: LogicalAddress, length: u32) -> Answered
        ensures answer_value { admission_number result.answer ≡ job_number_of self area (record { kind = Erase; address = address; length = length }) }
        ensures manager_value { result.manager ≡ after_job self area (record { kind = Erase; address = address; length = length }) }
    {
        self.submit(area, JobType::Erase, address, length)
    }

    pub fn blank_check(self, area: usize, address: LogicalAddress, length: u32) -> Answered
        ensures answer_value { admission_number result.answer ≡ job_number_of self area (record { kind = BlankCheck; address = address; length = length }) }
        ensures manager_value { result.manager ≡ after_job self area (record { kind = BlankCheck; address = address; length = length }) }
    {
        self.submit(area, JobType::BlankCheck, address, length)
    }

    // A lock request: it locks the device of its range for the area.
    pub fn lock(self, area: usize, address: LogicalAddress, length: u32) -> Answered
        ensures answer_value { admission_number result.answer ≡ job_number_of self area (record { kind = Lock; address = address; length = length }) }
        ensures manager_value { result.manager ≡ after_job self area (record { kind = Lock; address = address; length = length }) }
    {
        self.submit(area, JobType::Lock, address, length)
    }

    pub fn release(self, area: usize, address: LogicalAddress, length: u32) -> Answered
        ensures answer_value { admission_number result.answer ≡ release_number_of self area address length }
        ensures manager_value { result.manager ≡ after_release self area address length }
    {
        let change = release_change(
            self.plan,
            self.areas,
            self.devices,
            self.ages,
            area,
            address,
            length,
        );
        self.with(change)
    }

    pub fn cancel(self, area: usize) -> Answered
        ensures answer_value { admission_number result.answer ≡ cancel_number_of self area }
        ensures manager_value { result.manager ≡ after_cancel self area }
    {
        let asked = ask(self.plan, self.areas, self.devices, area);
        let answer = cancel_admission(asked.sound, self.plan.area_count, area, asked.area.job);
        match answer {
            Err(_) => Answered {
                answer,
                manager: self,
            },
            Ok(()) => {
                let change = stop(self.plan, asked, self.devices, self.ages);
                self.with(change)
            }
        }
    }

    fn query_admission(self, area: usize) -> Admission
        ensures { admission_number result ≡ info_number_of self area }
    {
        let sound = is_sound(self.plan, self.areas, self.devices);
        info_admission(sound, self.plan, area)
    }

    pub fn status(self, area: usize) -> Result<u8, Refusal>
        ensures answer_value { admission_number result ≡ info_number_of self area }
        ensures status_value { result_unwrap_or result 0 ≡ status_of self area }
    {
        self.query_admission(area)?;
        Ok(self.job_of(area).status.number())
    }

    pub fn result(self, area: usize) -> Result<JobResult, Refusal>
        ensures answer_value { admission_number result ≡ info_number_of self area }
        ensures result_value { result_unwrap_or result (record { 0 = 0 }) ≡ result_of self area }
    {
        self.query_admission(area)?;
        Ok(self.job_of(area).result)
    }

    pub fn processed(self, area: usize) -> Result<u32, Refusal>
        ensures answer_value { admission_number result ≡ info_number_of self area }
        ensures processed_value { result_unwrap_or result 0 ≡ processed_of self area }
    {
        self.query_admission(area)?;
        Ok(self.job_of(area).processed)
    }

    pub fn job_info(self, area: usize) -> Result<JobInfo, Refusal>
        ensures answer_value { admission_number result ≡ info_number_of self area }
        ensures info_value { result_unwrap_or result no_job_info ≡ info_of self area }
        ensures kind_value { job_type_number (result_unwrap_or result no_job_info).task.kind ≡ job_type_of self area }
    {
        info_of(self.plan, self.areas, self.devices, area)
    }

    fn address_admission(self, area: usize, address: LogicalAddress) -> Admission
        ensures { admission_number result ≡ memory_info_number_of self area address }
    {
        let sound = is_sound(self.plan, self.areas, self.devices);
        memory_admission(sound, self.plan, area, address)
    }

    pub fn memory_info(self, area: usize, address: LogicalAddress) -> Result<MemoryInfo, Refusal>
        ensures answer_value { admission_number result ≡ memory_info_number_of self area address }
        ensures info_value { result_unwrap_or result no_memory_info ≡ memory_of_area self area address }
    {
        self.address_admission(area, address)?;
        Ok(memory_info(self.plan, area, address))
    }

    // Refused as memory info is: by the same questions.
    pub fn wear_info(self, area: usize, address: LogicalAddress) -> Result<WearInfo, Refusal>
        ensures answer_value { admission_number result ≡ memory_info_number_of self area address }
        ensures info_value { result_unwrap_or result no_wear_info ≡ wear_of_area self area address }
    {
        self.address_admission(area, address)?;
        Ok(wear_info(self.plan, self.wear, area, address))
    }

    // A round takes the four answers of its devices, one each, and is lent image and job store.
    pub fn round(
        mut self,
        answers: [DeviceAnswer; 4],
        image: &mut [u8],
        store: &mut [u8],
    ) -> Answered
        ensures answer_value { admission_number result.answer ≡ round_number_of self (memory_of image.old store.old) }
        ensures manager_value { result.manager ≡ after_round self answers (memory_of image.old store.old) }
        ensures image_after { image.new ≡ (memory_after_round self answers (memory_of image.old store.old)).image }
        ensures store_after { store.new ≡ (memory_after_round self answers (memory_of image.old store.old)).store }
    {
        let RoundChange {
            areas,
            devices,
            worn,
            answer,
        } = round_change(
            self.plan,
            self.areas,
            self.devices,
            self.ages,
            answers,
            image,
            store,
        );
        self.areas = areas;
        self.devices = devices;
        add_worn(&mut self.wear, worn);
        Answered {
            answer,
            manager: self,
        }
    }
}
