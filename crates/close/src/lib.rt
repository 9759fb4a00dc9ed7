// The close of a round: each job that was pending before it and still is adds 1 to one count.
#![tactic(auto)]

ghost use Rattle.std.specs.Prelude.{◌≡◌};
ghost use Rattle.plan.specs.Questions.{area_of};
ghost use Rattle.rules.specs.Machine.{wait_behind, wait_on};
ghost use Rattle.close.specs.Close.{stick, counted};
ghost use Rattle.close.specs.laws.Waits.{wait_is, rank_layout, closed_area};

use jobs::is_pending;
use jobs::ranks::{age_of, ranks_above};
use plan::records::AreaRecord;
use state::{Area, DeviceState, Waits};

// What a pending job waits for. It waits for nothing where the device that it needs is free.
#[derive(Clone, Copy)]
pub enum Wait {
    Own,
    Above,
    Below,
    Locked,
}

fn stick(count: u32) -> u32
    ensures { result ≡ stick count }
{
    count.saturating_add(1)
}

fn counted(wait: Option<Wait>, waits: Waits) -> Waits
    ensures { result ≡ counted (wait_is wait) waits }
{
    match wait {
        None => waits,
        Some(Wait::Own) => Waits {
            own: stick(waits.own),
            ..waits
        },
        Some(Wait::Above) => Waits {
            above: stick(waits.above),
            ..waits
        },
        Some(Wait::Below) => Waits {
            below: stick(waits.below),
            ..waits
        },
        Some(Wait::Locked) => Waits {
            locked: stick(waits.locked),
            ..waits
        },
    }
}

#[tactic(auto, using(crate::specs::laws::Waits::no_priority))]
fn priority_of(records: [AreaRecord; 8], area: usize) -> u16
    ensures { result ≡ (area_of records area).priority }
{
    match records.get(area) {
        Some(record) => record.priority,
        None => 0,
    }
}

// An area behind a request of another, or its own.
fn wait_behind(records: [AreaRecord; 8], ages: [u8; 8], area: u8, runner: u8) -> Wait
    ensures { wait_is (Some result) ≡ wait_behind (rank_layout records ages) area runner }
{
    if runner == area {
        return Wait::Own;
    }
    let runner_priority = priority_of(records, runner as usize);
    let priority = priority_of(records, area as usize);
    let runner_age = age_of(ages, runner);
    let age = age_of(ages, area);
    if ranks_above(runner_priority, runner_age, priority, age) {
        return Wait::Above;
    }
    Wait::Below
}

fn wait_on(records: [AreaRecord; 8], ages: [u8; 8], area: u8, state: DeviceState) -> Option<Wait>
    ensures { wait_is result ≡ wait_on (rank_layout records ages) area state }
{
    match state {
        DeviceState::Free => None,
        DeviceState::LockedFor(_) => Some(Wait::Locked),
        DeviceState::Runs { area: runner, .. } => Some(wait_behind(records, ages, area, runner)),
    }
}

// An area when the round closes; `state` is that of the device that its job needs.
pub fn closed_area(
    records: [AreaRecord; 8],
    ages: [u8; 8],
    number: u8,
    before: Area,
    after: Area,
    state: DeviceState,
) -> Area
    ensures { result ≡ closed_area records ages number before after state }
{
    let waits = if is_pending(before.job) && is_pending(after.job) {
        counted(wait_on(records, ages, number, state), before.waits)
    } else {
        before.waits
    };
    Area { waits, ..after }
}
