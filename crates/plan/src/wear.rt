// Question 20: no wear record names an unknown or repeated sub-area or endurance 0.
ghost use Rattle.std.specs.Prelude.{◌≡◌, ◌+◌, ◌*◌, ◌≤◌, ◌<◌, length};
ghost use Rattle.arith.specs.Bounded.{every};
ghost use Rattle.plan.specs.Records.{wear_at};
ghost use Rattle.plan.specs.Questions.{is_named, wear_record_fits};

use crate::records::{Record, WearRecord};

// Does one of the first `count` wear records from `from` on name the sub-area?
fn is_named(bytes: &[u8], from: usize, count: usize, sub_area: u8) -> bool
    requires { from + count * 7 ≤ length bytes.now }
    ensures { result ≡ is_named (λ j. wear_at bytes.now (from + j * 7)) count sub_area }
{
    (0..count).any(|j| WearRecord::read(bytes, from + j * 7).sub_area == sub_area)
}

// Wear record i of a plan with this many sub-areas.
#[tactic(auto, unfolding(crate::specs::Questions::wear_record_fits))]
fn wear_record_fits(bytes: &[u8], from: usize, sub_area_count: usize, i: usize) -> bool
    requires { from + i * 7 + 7 ≤ length bytes.now }
    ensures { result ≡ wear_record_fits (λ j. wear_at bytes.now (from + j * 7)) sub_area_count i }
{
    let wear = WearRecord::read(bytes, from + i * 7);
    (wear.sub_area as usize) < sub_area_count
        && wear.endurance != 0
        && !is_named(bytes, from, i, wear.sub_area)
}

// Of more records than there are sub-areas one is unknown or repeated, so that the walk ends there however many follow.
pub fn wear_fits(bytes: &[u8], from: usize, count: usize, sub_area_count: usize) -> bool
    requires { from + count * 7 ≤ length bytes.now }
    ensures { result ≡ every (wear_record_fits (λ j. wear_at bytes.now (from + j * 7)) sub_area_count) count }
{
    (0..count).all(|i| wear_record_fits(bytes, from, sub_area_count, i))
}
