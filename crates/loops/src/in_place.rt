// An owner in place: it holds one manager and writes back what a call changes.
ghost use Rattle.std.specs.Prelude.{◌≡◌, ◌<◌};
ghost use Rattle.manager.specs.Calls.{changed};

use crate::Owner;
use changes::Change;
use manager::Manager;
use manager::in_place::{cancel_change, job_change, round_change};
use memory::{Admission, DeviceAnswer, Task};
use wear::add_worn;

#[derive(Clone, Copy)]
pub struct InPlace {
    manager: Manager,
}

impl InPlace {
    #[inline(always)]
    fn write_back(&mut self, change: Change)
        requires { (change.area_number < 8) × (change.device_number < 4) }
        ensures { self.new.manager ≡ changed self.old.manager change }
    {
        let ages = change.ages;
        self.manager.areas[change.area_number] = change.area;
        self.manager.devices[change.device_number] = change.device;
        self.manager.ages = ages;
    }
}

impl Owner for InPlace {
    ghost owned = { λ owner. owner.manager };

    fn of(manager: Manager) -> InPlace {
        InPlace { manager }
    }

    #[inline(always)]
    fn submit(&mut self, area: usize, task: Task) -> Admission {
        let change = job_change(
            self.manager.plan,
            self.manager.areas,
            self.manager.devices,
            self.manager.ages,
            area,
            task,
        );
        self.write_back(change);
        change.answer
    }

    #[inline(always)]
    fn cancel(&mut self, area: usize) -> Admission {
        let change = cancel_change(
            self.manager.plan,
            self.manager.areas,
            self.manager.devices,
            self.manager.ages,
            area,
        );
        self.write_back(change);
        change.answer
    }

    #[inline(always)]
    fn round(
        &mut self,
        answers: [DeviceAnswer; 4],
        image: &mut [u8],
        store: &mut [u8],
    ) -> Admission {
        let change = round_change(
            self.manager.plan,
            self.manager.areas,
            self.manager.devices,
            self.manager.ages,
            answers,
            image,
            store,
        );
        let areas = change.areas;
        let devices = change.devices;
        self.manager.areas = areas;
        self.manager.devices = devices;
        add_worn(&mut self.manager.wear, change.worn);
        change.answer
    }

    fn manager(&self) -> Manager {
        self.manager
    }

    fn rest(&self, _times: u32) -> u64 {
        0
    }
}
