// What C and Rust see of a manager: structs in C's layout, with the papers' number in the place of each enum.
#![tactic(auto)]

ghost use Rattle.std.specs.Prelude.{◌≡◌, ◌≤◌, length, take};
ghost use Rattle.effects.specs.Effects.{memory_of};
ghost use Rattle.session.specs.Fold.{played_all};
ghost use Rattle.interface.specs.Queries.{query_view};
ghost use Rattle.interface.specs.Views.{job_view, area_view, state_view, kept_view, device_view, load_view};

pub mod query_views;

use crate::query_views::QueryView;
use manager::Manager;
use memory::{JobResult, LogicalAddress, answer_number};
use plan::records::Plan;
use session::play_all;
use state::{Area, Device, DeviceState, Job, SuspendedErase, Waits};

// stays: `kind` and `status` are numbers, as the C interface has them (JobView in luvdrog_load).
#[repr(C)]
#[derive(Clone, Copy)]
pub struct JobView {
    pub kind: u8,
    pub status: u8,
    pub result: JobResult,
    pub retries_left: u8,
    pub address: LogicalAddress,
    pub length: u32,
    pub processed: u32,
}

#[repr(C)]
#[derive(Clone, Copy)]
pub struct AreaView {
    pub job: JobView,
    pub waits: Waits,
}

// What a device does, or the erase that is suspended on it.
// stays: `state` is a number, as the C interface has it (DeviceView in luvdrog_load).
#[repr(C)]
#[derive(Clone, Copy, Default)]
pub struct StateView {
    pub state: u8,
    pub area: u8,
    pub polls: u16,
}

// does.state: 0 nothing runs, 1 runs for the area, 2 locked for the area. suspended.state: 0 nothing is suspended, 1 the erase of the area.
#[repr(C)]
#[derive(Clone, Copy)]
pub struct DeviceView {
    pub does: StateView,
    pub suspended: StateView,
}

#[repr(C)]
#[derive(Clone, Copy)]
pub struct LoadView {
    pub number: u8,
    pub plan: Plan,
    pub areas: [AreaView; 8],
    pub devices: [DeviceView; 4],
    pub ages: [u8; 8],
    pub wear: [u32; 32],
}

impl From<Job> for JobView {
    ghost from_gives = { λ job view. view ≡ job_view job };

    fn from(job: Job) -> JobView {
        JobView {
            kind: job.task.kind.number(),
            status: job.status.number(),
            result: job.result,
            retries_left: job.retries_left,
            address: job.task.address,
            length: job.task.length,
            processed: job.processed,
        }
    }
}

impl From<Area> for AreaView {
    ghost from_gives = { λ area view. view ≡ area_view area };

    fn from(area: Area) -> AreaView {
        AreaView {
            job: JobView::from(area.job),
            waits: area.waits,
        }
    }
}

impl From<DeviceState> for StateView {
    ghost from_gives = { λ state view. view ≡ state_view state };

    fn from(state: DeviceState) -> StateView {
        match state {
            DeviceState::Free => StateView::default(),
            DeviceState::Runs { area, polls } => StateView {
                state: 1,
                area,
                polls,
            },
            DeviceState::LockedFor(area) => StateView {
                state: 2,
                area,
                polls: 0,
            },
        }
    }
}

impl From<Option<SuspendedErase>> for StateView {
    ghost from_gives = { λ suspended view. view ≡ kept_view suspended };

    fn from(suspended: Option<SuspendedErase>) -> StateView {
        match suspended {
            None => StateView::default(),
            Some(SuspendedErase { area, polls }) => StateView {
                state: 1,
                area,
                polls,
            },
        }
    }
}

impl From<Device> for DeviceView {
    ghost from_gives = { λ device view. view ≡ device_view device };

    fn from(device: Device) -> DeviceView {
        DeviceView {
            does: StateView::from(device.state),
            suspended: StateView::from(device.suspended),
        }
    }
}

#[unsafe(no_mangle)]
pub extern "C" fn luvdrog_load(bytes: &[u8]) -> LoadView
    ensures { result ≡ load_view bytes.now }
{
    let loaded = Manager::load(bytes);
    let manager = loaded.manager;
    let ages = manager.ages;
    let wear = manager.wear;
    LoadView {
        number: answer_number(loaded.answer),
        plan: manager.plan,
        areas: manager.areas.map(AreaView::from),
        devices: manager.devices.map(DeviceView::from),
        ages,
        wear,
    }
}

// How many bytes of the input a session used, and how many it wrote.
#[repr(C)]
#[derive(Clone, Copy)]
pub struct SessionView {
    pub used: usize,
    pub written: usize,
}

// A whole session of the bench on lent buffers (session::play_all). Left open are the bytes of the output behind those written.
#[unsafe(no_mangle)]
pub extern "C" fn luvdrog_session(
    plan: &[u8],
    input: &[u8],
    image: &mut [u8],
    store: &mut [u8],
    out: &mut [u8],
) -> SessionView
    ensures image_after { image.new ≡ (played_all plan.now input.now (length out.old) (memory_of image.old store.old)).memory.image }
    ensures store_after { store.new ≡ (played_all plan.now input.now (length out.old) (memory_of image.old store.old)).memory.store }
    ensures out_after { take result.written out.new ≡ (played_all plan.now input.now (length out.old) (memory_of image.old store.old)).printed }
    ensures used_value { result.used ≡ (played_all plan.now input.now (length out.old) (memory_of image.old store.old)).used }
    ensures used_in_bounds { (result.used ≤ length input.now) × (result.written ≤ length out.new) }
{
    let played = play_all(plan, input, image, store, out);
    SessionView {
        used: played.used,
        written: played.written,
    }
}

// A session, and the queries of one area when it is over.
#[repr(C)]
#[derive(Clone, Copy)]
pub struct SessionQueryView {
    pub session: SessionView,
    pub queries: QueryView,
}

// A whole session as above, then every query of the area, memory and wear info at the address. Where the plan is refused the
// manager is that of all zeros, and every query answers 9.
#[unsafe(no_mangle)]
pub extern "C" fn luvdrog_session_query(
    plan: &[u8],
    input: &[u8],
    image: &mut [u8],
    store: &mut [u8],
    out: &mut [u8],
    area: usize,
    address: u32,
) -> SessionQueryView
    ensures image_after { image.new ≡ (played_all plan.now input.now (length out.old) (memory_of image.old store.old)).memory.image }
    ensures store_after { store.new ≡ (played_all plan.now input.now (length out.old) (memory_of image.old store.old)).memory.store }
    ensures out_after { take result.session.written out.new ≡ (played_all plan.now input.now (length out.old) (memory_of image.old store.old)).printed }
    ensures used_value { result.session.used ≡ (played_all plan.now input.now (length out.old) (memory_of image.old store.old)).used }
    ensures used_in_bounds { (result.session.used ≤ length input.now) × (result.session.written ≤ length out.new) }
    ensures queries_value { result.queries ≡ query_view (played_all plan.now input.now (length out.old) (memory_of image.old store.old)).manager area (record { 0 = address }) }
{
    let played = play_all(plan, input, image, store, out);
    SessionQueryView {
        session: SessionView {
            used: played.used,
            written: played.written,
        },
        queries: QueryView::of(played.manager, area, LogicalAddress(address)),
    }
}
