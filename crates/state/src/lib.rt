// What moves in a manager: each area's latest job with its waits, and what each device does.
#![tactic(auto)]

ghost use Rattle.std.specs.Prelude.{◌≡◌};
ghost use Rattle.state.specs.Fresh.{fresh_area, free_device};

use memory::{JobResult, JobStatus, JobType, LogicalAddress, MemAddress, Task};
use plan::records::Granularity;

// An area's latest job. Its data stay after its end until the next job is accepted.
#[derive(Clone, Copy, Default)]
pub struct Job {
    pub task: Task,
    pub processed: u32,
    pub retries_left: u8,
    pub status: JobStatus,
    pub result: JobResult,
}

// The rounds that closed while the latest job was pending, by what it waited for.
#[repr(C)]
#[derive(Clone, Copy, Default)]
pub struct Waits {
    pub own: u32,
    pub above: u32,
    pub below: u32,
    pub locked: u32,
}

#[derive(Clone, Copy, Default)]
pub struct Area {
    pub job: Job,
    pub waits: Waits,
}

// What a device does. What it runs for an area is that area's next segment.
#[derive(Clone, Copy, Default)]
pub enum DeviceState {
    #[default]
    Free,
    Runs { area: u8, polls: u16 },
    LockedFor(u8),
}

// An erase that has given way, with its polls; its area's due segment is the one that it erases.
#[derive(Clone, Copy)]
pub struct SuspendedErase {
    pub area: u8,
    pub polls: u16,
}

#[derive(Clone, Copy, Default)]
pub struct Device {
    pub state: DeviceState,
    pub suspended: Option<SuspendedErase>,
}

// The running request of a job; all zeros where none runs. The hardware id is the device number.
#[derive(Clone, Copy, Default)]
pub struct RequestInfo {
    pub device: u8,
    pub start: MemAddress,
    pub length: u64,
    pub polls: u16,
}

// 000: MemAcc_JobInfoType, with the waits.
#[derive(Clone, Copy, Default)]
pub struct JobInfo {
    pub task: Task,
    pub result: JobResult,
    pub processed: u32,
    pub waits: Waits,
    pub request: RequestInfo,
}

// 000: MemAcc_MemoryInfoType, of the sub-area that holds an address.
#[derive(Clone, Copy, Default)]
pub struct MemoryInfo {
    pub logical_start: LogicalAddress,
    pub physical_start: MemAddress,
    pub max_offset: u64,
    pub erase: Granularity,
    pub write: Granularity,
    pub read: Granularity,
    pub device: u8,
}

// Document 02, 05: the wear of the sub-area that holds an address: its sum of sectors erased, and the charge in millionths.
#[derive(Clone, Copy, Default)]
pub struct WearInfo {
    pub sum: u32,
    pub charge: u64,
}

impl Area {
    // Document 01: loading yields a fresh area.
    pub fn fresh() -> Area
        ensures { result ≡ fresh_area }
    {
        Area::default()
    }
}

impl Device {
    pub fn free() -> Device
        ensures { result ≡ free_device }
    {
        Device::default()
    }
}
