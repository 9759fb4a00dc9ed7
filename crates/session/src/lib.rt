// The bench's session (document 01, "A printed session"): a plan and the lines that follow it.
#![tactic(auto)]

ghost use Rattle.std.specs.Prelude.{◌≡◌, ◌≤◌, ◌<◌, length, IfErr};
ghost use Rattle.manager.specs.Load.{loaded_manager};
ghost use Rattle.effects.specs.Effects.{memory_of};
ghost use Rattle.texts.specs.Appended.{Appended};
ghost use Rattle.session.specs.Fold.{played_all};
ghost use Rattle.session.specs.laws.FoldLaws.{session_of};
ghost use Rattle.session.specs.PlanText.{open_text, image_length_of, manager_in, written_in, image_length_in};

pub mod fold;
pub mod play;

use crate::fold::{Progress, play_lines};
use manager::Manager;
use memory::answer_number;
use plan::checks::device_sum;
use texts::page::Page;

// The manager of a plan, and the length of its image.
#[derive(Clone, Copy)]
pub struct Opened {
    pub manager: Manager,
    pub image_length: usize,
}

// The session does not go on, and needs no image: the manager of the plan, and how many bytes were written.
#[derive(Clone, Copy)]
pub struct Closed {
    pub manager: Manager,
    pub written: usize,
}

// Loads the plan, and prints what the bench answers to it; nothing where the longest answer has no room. Left open are the bytes of `out` behind those written.
pub fn open(plan: &[u8], out: &mut [u8]) -> Result<Opened, Closed>
    ensures manager_value { manager_in result ≡ loaded_manager plan.now }
    ensures appended { (Appended out.old out.new 0 (written_in result) (open_text (length out.old) plan.now)) × (written_in result ≤ length out.new) }
    ensures image_length_value { (image_length_in result ≡ image_length_of (length out.old) plan.now) × (image_length_in result ≤ 65536) }
    ensures refused_text { IfErr result (λ closed. 338 ≤ length out.old → 0 < closed.written) }
{
    let loaded = Manager::load(plan);
    let manager = loaded.manager;
    if out.len() < 338 {
        return Err(Closed {
            manager,
            written: 0,
        });
    }
    let mut page = Page::new(out);
    if 4096 < plan.len() {
        page.question_line();
        return Err(Closed {
            manager,
            written: page.written(),
        });
    }
    let number = answer_number(loaded.answer);
    if 0 < number {
        page.number_line(number as u64);
        return Err(Closed {
            manager,
            written: page.written(),
        });
    }
    let sum = device_sum(manager.plan.devices, manager.plan.device_count);
    if 65536 < sum {
        page.question_line();
        return Err(Closed {
            manager,
            written: page.written(),
        });
    }
    Ok(Opened {
        manager,
        image_length: sum as usize,
    })
}

// A whole session: the plan, then the lines of the input, on lent image and store. It writes to `out` as long as the
// longest answer has room there. Left open are the bytes of `out` behind those written.
pub fn play_all(
    plan: &[u8],
    input: &[u8],
    image: &mut [u8],
    store: &mut [u8],
    out: &mut [u8],
) -> Progress
    ensures used_after { session_of result.manager image.new store.new out.new result.written result.used ≡ played_all plan.now input.now (length out.old) (memory_of image.old store.old) }
    ensures written_in_bounds { (result.written ≤ length out.new) × (result.used ≤ length input.now) }
{
    match open(plan, out) {
        Ok(opened) => play_lines(opened.manager, input, true, image, store, out),
        Err(closed) => Progress {
            manager: closed.manager,
            used: 0,
            written: closed.written,
        },
    }
}
