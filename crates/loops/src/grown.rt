// A manager grown by 6 KB, as later requests will grow it: what a call costs by value grows with it, what it costs an owner in place does not.
ghost use Rattle.std.specs.Prelude.{◌≡◌, replicate};

use crate::Owner;
use crate::in_place::InPlace;
use manager::Manager;
use memory::{Admission, DeviceAnswer, Task};

// The owner in place, with more beside the manager.
#[derive(Clone, Copy)]
pub struct Grown {
    owner: InPlace,
    more: [u64; 768],
    ghost nothing: { more ≡ replicate 768 0 },
}

impl Owner for Grown {
    ghost owned = { λ grown. grown.owner.manager };

    fn of(manager: Manager) -> Grown {
        let more = [0u64; 768];
        Grown {
            owner: InPlace::of(manager),
            more,
        }
    }

    #[inline(always)]
    fn submit(&mut self, area: usize, task: Task) -> Admission {
        self.owner.submit(area, task)
    }

    #[inline(always)]
    fn cancel(&mut self, area: usize) -> Admission {
        self.owner.cancel(area)
    }

    #[inline(always)]
    fn round(
        &mut self,
        answers: [DeviceAnswer; 4],
        image: &mut [u8],
        store: &mut [u8],
    ) -> Admission {
        self.owner.round(answers, image, store)
    }

    fn manager(&self) -> Manager {
        self.owner.manager()
    }

    fn rest(&self, times: u32) -> u64 {
        self.more[(times % 768) as usize]
    }
}

// The same by value: each call moves all of it, and back.
#[derive(Clone, Copy)]
pub struct GrownByValue {
    grown: Grown,
}

impl Owner for GrownByValue {
    ghost owned = { λ owner. owner.grown.owner.manager };

    fn of(manager: Manager) -> GrownByValue {
        GrownByValue {
            grown: Grown::of(manager),
        }
    }

    fn submit(&mut self, area: usize, task: Task) -> Admission {
        let mut grown = self.grown;
        let answer = grown.submit(area, task);
        self.grown = grown;
        answer
    }

    fn cancel(&mut self, area: usize) -> Admission {
        let mut grown = self.grown;
        let answer = grown.cancel(area);
        self.grown = grown;
        answer
    }

    fn round(
        &mut self,
        answers: [DeviceAnswer; 4],
        image: &mut [u8],
        store: &mut [u8],
    ) -> Admission {
        let mut grown = self.grown;
        let answer = grown.round(answers, image, store);
        self.grown = grown;
        answer
    }

    fn manager(&self) -> Manager {
        self.grown.manager()
    }

    fn rest(&self, times: u32) -> u64 {
        self.grown.rest(times)
    }
}
