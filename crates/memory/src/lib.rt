// The types of the field: addresses, job types, statuses, results and the answers to calls.
#![tactic(auto)]

ghost use Rattle.std.specs.Prelude.{◌≡◌};
ghost use Rattle.memory.specs.Numbers.{job_type_number, status_number, refusal_number, admission_number};

// An address in an area's logical space (source document 000: MemAcc_AddressType).
#[repr(C)]
#[derive(Clone, Copy, PartialEq, Eq, Default)]
pub struct LogicalAddress(pub u32);

// A physical address: byte p of the image (000: Mem_AddressType). It is wider than a plan's numbers, so that a start and an
// offset always add up.
#[repr(C)]
#[derive(Clone, Copy, PartialEq, Eq, Default)]
pub struct MemAddress(pub u64);

// 000: MemAcc_JobType. Number 5, the hardware specific services, is left out.
#[derive(Clone, Copy, PartialEq, Eq, Default)]
pub enum JobType {
    #[default]
    NoJob = 0,
    Write = 1,
    Read = 2,
    Compare = 3,
    Erase = 4,
    BlankCheck = 6,
    Lock = 7,
}

impl JobType {
    pub fn number(self) -> u8
        ensures { result ≡ job_type_number self }
    {
        self as u8
    }
}

// What a job asks for: its type and its range in the area's logical space.
#[derive(Clone, Copy, PartialEq, Eq, Default)]
pub struct Task {
    pub kind: JobType,
    pub address: LogicalAddress,
    pub length: u32,
}

// A device's answer in a round: its request goes on, is done, or failed after some bytes.
#[derive(Clone, Copy, PartialEq, Eq)]
pub enum DeviceAnswer {
    Pending,
    Done,
    Failed(u32),
}

// 000: MemAcc_JobStatusType. A job that was cancelled while its request ran is pending until that request ends.
#[derive(Clone, Copy, PartialEq, Eq, Default)]
pub enum JobStatus {
    #[default]
    Idle,
    Pending,
    Cancelling,
}

impl JobStatus {
    pub fn number(self) -> u8
        ensures { result ≡ status_number self }
    {
        u8::from(self != JobStatus::Idle)
    }
}

// 000: MemAcc_JobResultType.
// stays: a number, as a manager given by value may hold any (Manager::result): an enum would ask more of callers.
#[repr(C)]
#[derive(Clone, Copy, PartialEq, Eq, Default)]
pub struct JobResult(pub u8);

impl JobResult {
    pub const OK: JobResult = JobResult(0);

    pub const FAILED: JobResult = JobResult(1);

    pub const INCONSISTENT: JobResult = JobResult(2);

    pub const CANCELED: JobResult = JobResult(3);
}

// Document 01, "Questions at the door", and document 02: the question that was answered "no".
#[derive(Clone, Copy, PartialEq, Eq)]
pub enum Refusal {
    Records = 1,
    Counts = 2,
    Devices = 3,
    Windows = 4,
    Sizes = 5,
    Placement = 6,
    AreaSpaces = 7,
    SharedBytes = 8,
    Unsound = 9,
    UnknownArea = 10,
    Busy = 11,
    Range = 12,
    Alignment = 13,
    WindowLength = 14,
    SeveralDevices = 15,
    NotHolder = 16,
    NotPending = 17,
    ImageLength = 18,
    StoreLength = 19,
    Wear = 20,
}

impl Refusal {
    pub fn number(self) -> u8
        ensures { result ≡ refusal_number self }
    {
        self as u8
    }
}

// The answer to a call.
pub type Admission = Result<(), Refusal>;

// The number of an answer, also of one with a value: acceptance is 0.
pub fn answer_number<T: Copy>(answer: Result<T, Refusal>) -> u8
    ensures { result ≡ admission_number answer }
{
    match answer {
        Ok(_) => 0,
        Err(refusal) => refusal.number(),
    }
}
