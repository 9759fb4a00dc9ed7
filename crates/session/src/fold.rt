// The lines of an input, played one after the other on a manager that stays in one place: what a line changes is written back.
ghost use Rattle.std.specs.Prelude.{◌≡◌, ◌≤◌, length};
ghost use Rattle.session.specs.Fold.{played_input};
ghost use Rattle.session.specs.laws.FoldLaws.{session_of, is_line};

use crate::play::play_line;
use lines::{line_of, part_end};
use manager::Manager;
use texts::page::Page;

// The next manager, how much of the input was used, and how many bytes were written.
#[derive(Clone, Copy)]
pub struct Progress {
    pub manager: Manager,
    pub used: usize,
    pub written: usize,
}

// What stands from `at` to `to` is a line where a line end follows; behind the last line end only where the input ends there, and if it has a byte.
// By cases, of which the bench program gets branches: there one expression was worked out whole for each line, in ten instructions.
fn is_line(at: usize, to: usize, length: usize, ends: bool) -> bool
    ensures { result ≡ is_line ends at to length }
{
    match (to < length, ends) {
        (true, _) => true,
        (false, false) => false,
        (false, true) => at < to,
    }
}

// The lines of the input, as long as the longest answer has room; what stands behind the last line end is a line only
// where the input ends there. Left open are the bytes of `out` behind those written.
pub fn play_lines(
    manager: Manager,
    input: &[u8],
    ends: bool,
    image: &mut [u8],
    store: &mut [u8],
    out: &mut [u8],
) -> Progress
    ensures used_after { session_of result.manager image.new store.new out.new result.written result.used ≡ played_input ends (length out.old) input.now (session_of manager image.old store.old out.old 0 0) }
    ensures written_in_bounds { (result.written ≤ length out.new) × (result.used ≤ length input.now) }
{
    let mut manager = manager;
    let mut at = 0;
    let mut page = Page::new(out);
    while at <= input.len() && 338 <= page.room() {
        let to = part_end(input, b'\n', at);
        if !is_line(at, to, input.len(), ends) {
            break;
        }
        let line = line_of(&input[at..to], manager.plan.device_count);
        play_line(&mut manager, line, image, store, &mut page);
        at = to + 1;
    }
    Progress {
        manager,
        used: at.min(input.len()),
        written: page.written(),
    }
}
