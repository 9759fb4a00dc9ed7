// Wear in numbers: the sectors of an erase, a sum of them that sticks, and its charge.
#![tactic(auto)]

ghost use Rattle.std.specs.Prelude.{◌≡◌};
ghost use Rattle.wear.specs.Wear.{sectors_in, worn_to, no_worn, add_worn, charge_of};

// What a device's answer wears: so many sectors of a sub-area. Both fields are words, which are moved faster than bytes.
// stays: the definition `no_worn` has the number 32 for no sub-area, and a round moves four of these as two words each.
#[derive(Clone, Copy)]
pub struct Worn {
    pub sub_area: usize,
    pub sectors: u64,
}

impl Worn {
    // Nothing: a manager has 32 sums, and none of them is meant.
    pub fn none() -> Worn
        ensures { result ≡ no_worn }
    {
        Worn {
            sub_area: 32,
            sectors: 0,
        }
    }
}

// The sectors of an erase of this length. A sector of no bytes, which no accepted plan has, is in none.
#[tactic(auto, unfolding(crate::specs::Wear::sectors_in))]
pub fn sectors_in(length: u64, sector: u32) -> u64
    ensures { result ≡ sectors_in length sector }
{
    length.checked_div(sector as u64).unwrap_or(0)
}

// The sum once these sectors are added.
#[tactic(auto, unfolding(crate::specs::Wear::worn_to))]
fn worn_to(sum: u32, sectors: u64) -> u32
    ensures { result ≡ worn_to sum sectors }
{
    (sum as u64).saturating_add(sectors).min(u32::MAX as u64) as u32
}

// The sums of a manager once what the answers of its devices wear is added.
pub fn add_worn(wear: &mut [u32; 32], worn: [Worn; 4])
    ensures { wear.new ≡ add_worn worn 4 wear.old }
{
    for one in worn {
        let place = one.sub_area;
        if place < wear.len() {
            wear[place] = worn_to(wear[place], one.sectors);
        }
    }
}

#[tactic(auto, using(crate::proofs::laws::WearLaws::up_is), unfolding(crate::specs::Wear::charge_of))]
pub fn charge_of(sum: u32, endurance: u32, sector_count: u32) -> u64
    ensures { result ≡ charge_of sum endurance sector_count }
{
    let total = (endurance as u64) * (sector_count as u64);
    if total == 0 {
        0
    } else {
        ((sum as u64) * 1000000).div_ceil(total)
    }
}
