// What a request's answer does to image and store.
#![tactic(auto)]

ghost use Rattle.std.specs.Prelude.{◌≡◌, ◌+◌, ◌≤◌, length};
ghost use Rattle.arith.specs.Parts.{put};
ghost use Rattle.memory.specs.declared.JobType.TheVariants.{Compare};
ghost use Rattle.rules.specs.Memory.{written, image_after, store_after, agrees, verdict_of, answered_memory};
ghost use Rattle.effects.specs.Effects.{verdict, memory_of, Within};

use memory::{DeviceAnswer, JobType};
use transfer::{and_part, blank_part, erase_part, read_part, same_part, window_part, write_part};

// What an answer comes to.
#[derive(Clone, Copy)]
pub enum Outcome {
    GoesOn,
    Finished,
    Differs,
    Failed,
}

// A request: what it does with the n bytes at `at` in the image and at `window` in the store. `clears`: its device only clears bits.
#[derive(Clone, Copy)]
pub struct Request {
    pub kind: JobType,
    pub clears: bool,
    pub at: usize,
    pub window: usize,
    pub n: usize,
}

impl Request {
    // The window's bytes are written: and-ed into the image on a device that only clears bits, else stored there.
    fn write_on(self, image: &mut [u8], store: &[u8])
        requires { (self.at + self.n ≤ length image.old) × (self.window + self.n ≤ length store.now) }
        ensures { image.new ≡ put self.at (written self.clears self.at self.window self.n (memory_of image.old store.now)) image.old }
    {
        let part = window_part(store, self.window, self.n);
        if self.clears {
            and_part(image, self.at, part);
        } else {
            write_part(image, self.at, part);
        }
    }

    // Are the bytes in the image those of the window?
    fn compare_on(self, image: &[u8], store: &[u8]) -> bool
        requires { (self.at + self.n ≤ length image.now) × (self.window + self.n ≤ length store.now) }
        ensures { result ≡ agrees Compare self.at self.window self.n (memory_of image.now store.now) }
    {
        let part = window_part(store, self.window, self.n);
        same_part(image, self.at, part)
    }

    // A request that is done: its effect on the lent memory. Answers whether every byte is as the job asks.
    fn finish(self, image: &mut [u8], store: &mut [u8]) -> bool
        requires { Within self image.old store.old }
        ensures value { result ≡ agrees self.kind self.at self.window self.n (memory_of image.old store.old) }
        ensures image_after { image.new ≡ image_after self.clears self.kind self.at self.window self.n (memory_of image.old store.old) }
        ensures store_after { store.new ≡ store_after self.kind self.at self.window self.n (memory_of image.old store.old) }
    {
        match self.kind {
            JobType::Write => {
                self.write_on(image, store);
                true
            }
            JobType::Read => {
                read_part(store, self.window, image, self.at, self.n);
                true
            }
            JobType::Erase => {
                erase_part(image, self.at, self.n);
                true
            }
            JobType::Compare => self.compare_on(image, store),
            JobType::BlankCheck => blank_part(image, self.at, self.n),
            JobType::Lock | JobType::NoJob => true,
        }
    }

    // A request that failed has acted on its bytes, of which these are the first.
    fn act_on_first(self, image: &mut [u8], store: &[u8])
        requires { Within self image.old store.now }
        ensures { image.new ≡ image_after self.clears self.kind self.at self.window self.n (memory_of image.old store.now) }
    {
        match self.kind {
            JobType::Write => self.write_on(image, store),
            JobType::Erase => erase_part(image, self.at, self.n),
            JobType::Read
            | JobType::Compare
            | JobType::BlankCheck
            | JobType::Lock
            | JobType::NoJob => {}
        }
    }

    // A request takes its answer.
    pub fn take_effect(self, answer: DeviceAnswer, image: &mut [u8], store: &mut [u8]) -> Outcome
        requires { Within self image.old store.old }
        ensures result_value { verdict result ≡ verdict_of answer self.kind self.at self.window self.n (memory_of image.old store.old) }
        ensures image_after { image.new ≡ (answered_memory self.clears answer self.kind self.at self.window self.n (memory_of image.old store.old)).image }
        ensures store_after { store.new ≡ (answered_memory self.clears answer self.kind self.at self.window self.n (memory_of image.old store.old)).store }
    {
        match answer {
            DeviceAnswer::Pending => Outcome::GoesOn,
            DeviceAnswer::Done => {
                if self.finish(image, store) {
                    Outcome::Finished
                } else {
                    Outcome::Differs
                }
            }
            DeviceAnswer::Failed(k) => {
                let n = self.n.min(k as usize);
                let acted = Request { n, ..self };
                acted.act_on_first(image, store);
                Outcome::Failed
            }
        }
    }
}
