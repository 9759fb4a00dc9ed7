// The answers to the queries in C's layout. Each has its number, 0 or that of the first question answered "no"; where it
// is refused, what was asked for is 0.
// stays: `number`, `status` and `kind` are numbers, and each view a struct of its own, as the C interface has them.
ghost use Rattle.std.specs.Prelude.{◌≡◌};
ghost use Rattle.interface.specs.Queries.{status_view, result_view, processed_view, job_info_view, memory_info_view, wear_info_view, query_view};

use manager::Manager;
use memory::{JobResult, LogicalAddress, MemAddress, answer_number};
use plan::records::Granularity;
use state::Waits;

#[repr(C)]
#[derive(Clone, Copy)]
pub struct StatusView {
    pub number: u8,
    pub status: u8,
}

#[repr(C)]
#[derive(Clone, Copy)]
pub struct ResultView {
    pub number: u8,
    pub result: JobResult,
}

#[repr(C)]
#[derive(Clone, Copy)]
pub struct ProcessedView {
    pub number: u8,
    pub processed: u32,
}

// The request fields are 0 unless the area's request runs.
#[repr(C)]
#[derive(Clone, Copy)]
pub struct JobInfoView {
    pub number: u8,
    pub kind: u8,
    pub address: LogicalAddress,
    pub length: u32,
    pub result: JobResult,
    pub processed: u32,
    pub waits: Waits,
    pub request_device: u8,
    pub request_start: MemAddress,
    pub request_length: u64,
    pub request_polls: u16,
}

// Of the sub-area that holds the address asked for.
#[repr(C)]
#[derive(Clone, Copy)]
pub struct MemoryInfoView {
    pub number: u8,
    pub logical_start: LogicalAddress,
    pub physical_start: MemAddress,
    pub max_offset: u64,
    pub erase: Granularity,
    pub write: Granularity,
    pub read: Granularity,
    pub device: u8,
}

// Of the sub-area that holds the address asked for: sectors erased, and the charge in millionths of what the sub-area endures.
#[repr(C)]
#[derive(Clone, Copy)]
pub struct WearInfoView {
    pub number: u8,
    pub sum: u32,
    pub charge: u64,
}

// Every query of one area, memory and wear info at one address.
#[repr(C)]
#[derive(Clone, Copy)]
pub struct QueryView {
    pub status: StatusView,
    pub result: ResultView,
    pub processed: ProcessedView,
    pub job_info: JobInfoView,
    pub memory_info: MemoryInfoView,
    pub wear_info: WearInfoView,
}

impl StatusView {
    fn of(manager: Manager, area: usize) -> StatusView
        ensures { result ≡ status_view manager area }
    {
        let asked = manager.status(area);
        StatusView {
            number: answer_number(asked),
            status: asked.unwrap_or(0),
        }
    }
}

impl ResultView {
    fn of(manager: Manager, area: usize) -> ResultView
        ensures { result ≡ result_view manager area }
    {
        let asked = manager.result(area);
        ResultView {
            number: answer_number(asked),
            result: asked.unwrap_or(JobResult::OK),
        }
    }
}

impl ProcessedView {
    fn of(manager: Manager, area: usize) -> ProcessedView
        ensures { result ≡ processed_view manager area }
    {
        let asked = manager.processed(area);
        ProcessedView {
            number: answer_number(asked),
            processed: asked.unwrap_or(0),
        }
    }
}

impl JobInfoView {
    fn of(manager: Manager, area: usize) -> JobInfoView
        ensures { result ≡ job_info_view manager area }
    {
        let asked = manager.job_info(area);
        let info = asked.unwrap_or_default();
        JobInfoView {
            number: answer_number(asked),
            kind: info.task.kind.number(),
            address: info.task.address,
            length: info.task.length,
            result: info.result,
            processed: info.processed,
            waits: info.waits,
            request_device: info.request.device,
            request_start: info.request.start,
            request_length: info.request.length,
            request_polls: info.request.polls,
        }
    }
}

impl MemoryInfoView {
    fn of(manager: Manager, area: usize, address: LogicalAddress) -> MemoryInfoView
        ensures { result ≡ memory_info_view manager area address }
    {
        let asked = manager.memory_info(area, address);
        let info = asked.unwrap_or_default();
        MemoryInfoView {
            number: answer_number(asked),
            logical_start: info.logical_start,
            physical_start: info.physical_start,
            max_offset: info.max_offset,
            erase: info.erase,
            write: info.write,
            read: info.read,
            device: info.device,
        }
    }
}

impl WearInfoView {
    fn of(manager: Manager, area: usize, address: LogicalAddress) -> WearInfoView
        ensures { result ≡ wear_info_view manager area address }
    {
        let asked = manager.wear_info(area, address);
        let info = asked.unwrap_or_default();
        WearInfoView {
            number: answer_number(asked),
            sum: info.sum,
            charge: info.charge,
        }
    }
}

impl QueryView {
    pub fn of(manager: Manager, area: usize, address: LogicalAddress) -> QueryView
        ensures { result ≡ query_view manager area address }
    {
        QueryView {
            status: StatusView::of(manager, area),
            result: ResultView::of(manager, area),
            processed: ProcessedView::of(manager, area),
            job_info: JobInfoView::of(manager, area),
            memory_info: MemoryInfoView::of(manager, area, address),
            wear_info: WearInfoView::of(manager, area, address),
        }
    }
}
