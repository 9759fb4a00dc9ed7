// An owner by value: a call takes the manager and returns the next one.
ghost use Rattle.std.specs.Prelude.{◌≡◌};

use crate::Owner;
use manager::Manager;
use memory::{Admission, DeviceAnswer, JobType, Task};

#[derive(Clone, Copy)]
pub struct ByValue {
    manager: Manager,
}

impl Owner for ByValue {
    ghost owned = { λ owner. owner.manager };

    fn of(manager: Manager) -> ByValue {
        ByValue { manager }
    }

    #[inline(always)]
    fn submit(&mut self, area: usize, task: Task) -> Admission {
        let manager = self.manager;
        let answered = match task.kind {
            JobType::NoJob => unreachable!(),
            JobType::Write => manager.write(area, task.address, task.length),
            JobType::Read => manager.read(area, task.address, task.length),
            JobType::Compare => manager.compare(area, task.address, task.length),
            JobType::Erase => manager.erase(area, task.address, task.length),
            JobType::BlankCheck => manager.blank_check(area, task.address, task.length),
            JobType::Lock => manager.lock(area, task.address, task.length),
        };
        self.manager = answered.manager;
        answered.answer
    }

    #[inline(always)]
    fn cancel(&mut self, area: usize) -> Admission {
        let answered = self.manager.cancel(area);
        self.manager = answered.manager;
        answered.answer
    }

    fn round(
        &mut self,
        answers: [DeviceAnswer; 4],
        image: &mut [u8],
        store: &mut [u8],
    ) -> Admission {
        let answered = self.manager.round(answers, image, store);
        self.manager = answered.manager;
        answered.answer
    }

    fn manager(&self) -> Manager {
        self.manager
    }

    fn rest(&self, _times: u32) -> u64 {
        0
    }
}
