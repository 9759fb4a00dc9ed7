// Ranks of areas, and the order in which their jobs were accepted, kept as each area's age.
ghost use Rattle.std.specs.Prelude.{◌≡◌, ◌<◌};
ghost use Rattle.arith.specs.Cases.{pick};
ghost use Rattle.arith.specs.Tables.{table};
ghost use Rattle.rules.specs.Ranks.{older, ages_after, rank_above};
ghost use Rattle.state.specs.Ages.{age_in};

// The larger priority is above; "Areas of equal priority shall be ranked by acceptance: the earlier accepted job is above."
#[tactic(auto, unfolding(rules::specs::Ranks::rank_above))]
pub fn ranks_above(priority: u16, age: u8, other_priority: u16, other_age: u8) -> bool
    ensures { result ≡ rank_above priority age other_priority other_age }
{
    other_priority < priority || (other_priority == priority && other_age < age)
}

// An area's age when the job of an area with age `accepted` is accepted: of that area itself, or of another.
fn age_after(is_accepted: bool, age: u8, accepted: u8) -> u8
    ensures { result ≡ pick is_accepted 0 (older accepted age) }
{
    if is_accepted {
        0
    } else if age < accepted {
        age + 1
    } else {
        age
    }
}

// All ages when a job of the area is accepted.
pub fn ages_after(ages: [u8; 8], area: usize) -> [u8; 8]
    requires { area < 8 }
    ensures { result ≡ table 8 (ages_after area (age_in ages)) 0 8 }
{
    let accepted = ages[area];
    let mut next = [0u8; 8];
    for a in 0..8 {
        next[a] = age_after(a == area, ages[a], accepted);
    }
    next
}

// The age of an area; one that the array has no room for keeps its first.
#[tactic(auto, unfolding(state::specs::Ages::age_in))]
pub fn age_of(ages: [u8; 8], area: u8) -> u8
    ensures { result ≡ age_in ages area }
{
    match ages.get(area as usize) {
        Some(age) => *age,
        None => area,
    }
}
