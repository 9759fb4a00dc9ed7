// Questions 3 to 8 of a load, each over all records of a plan.
#![tactic(auto)]

ghost use Rattle.std.specs.Prelude.{◌≡◌, ℕ, ◌+◌, ◌≤◌, ◌<◌, length, get_or, leb};
ghost use Rattle.arith.specs.Bounded.{every, every_pair};
ghost use Rattle.plan.specs.Questions.{area_of, sub_area_of, devices_join, window_end, windows_fit, all_sizes_fit, size_of, never_falling, has_sub_area, size_in, area_size, space_fits, all_apart, all_placed, spaces_fit};

use memory::LogicalAddress;
use plan::checks::Apart;
use plan::records::{AreaRecord, DeviceRecord, Plan, SubAreaRecord};

// Question 3.
pub fn devices_join(devices: [DeviceRecord; 4], count: usize) -> bool
    requires { count ≤ 4 }
    ensures { result ≡ devices_join devices count }
{
    let mut due: u64 = 0;
    let mut sum: u64 = 0;
    for device in &devices[..count] {
        if !device.joins(due) {
            return false;
        }
        due = device.end();
        sum += device.length as u64;
    }
    sum <= 16777216
}

fn windows_end(areas: [AreaRecord; 8], count: usize) -> bool
    requires { count ≤ 8 }
    ensures { result ≡ every (λ i. leb (window_end (area_of areas i)) 65536) count }
{
    areas[..count].iter().all(|area| area.window_fits())
}

// Is it apart from each of these?
fn is_clear<T: Apart>(own: T, others: &[T]) -> bool
    ensures { result ≡ every (λ i. T.apart (get_or others.now i T.blank) own) (length others.now) }
{
    others.iter().all(|other| other.is_apart(own))
}

// Is each of these apart from those before it?
fn pairs_apart<T: Apart>(items: &[T]) -> bool
    ensures { result ≡ every_pair (λ i j. T.apart (get_or items.now i T.blank) (get_or items.now j T.blank)) (length items.now) }
{
    items
        .iter()
        .enumerate()
        .all(|(j, own)| is_clear(*own, &items[..j]))
}

// Question 4.
pub fn windows_fit(areas: [AreaRecord; 8], count: usize) -> bool
    requires { count ≤ 8 }
    ensures { result ≡ windows_fit areas count }
{
    windows_end(areas, count) && pairs_apart(&areas[..count])
}

// Question 5.
pub fn all_sizes_fit(sub_areas: [SubAreaRecord; 32], count: usize) -> bool
    requires { count ≤ 32 }
    ensures { result ≡ all_sizes_fit sub_areas count }
{
    sub_areas[..count]
        .iter()
        .all(|sub_area| sub_area.sizes_fit())
}

// Question 6.
pub fn places_fit(plan: Plan) -> bool
    requires { (plan.device_count ≤ 4) × (plan.sub_area_count ≤ 32) }
    ensures { result ≡ all_placed plan }
{
    plan.sub_areas[..plan.sub_area_count].iter().all(|sub_area| sub_area.is_placed(
        plan.devices,
        plan.device_count,
        plan.area_count,
    ))
}

fn never_falling(sub_areas: [SubAreaRecord; 32], count: usize) -> bool
    requires { (1 ≤ count) × (count ≤ 32) }
    ensures { result ≡ never_falling sub_areas count }
{
    sub_areas[..count].is_sorted_by_key(|sub_area| sub_area.area)
}

fn has_sub_area(sub_areas: [SubAreaRecord; 32], count: usize, area: usize) -> bool
    requires { count ≤ 32 }
    ensures { result ≡ has_sub_area sub_areas count area }
{
    sub_areas[..count]
        .iter()
        .any(|sub_area| sub_area.area as usize == area)
}

// The bytes that this record adds to the area's logical space.
#[tactic(auto, unfolding(plan::specs::Questions::size_in))]
fn size_in(sub_area: SubAreaRecord, area: usize) -> u64
    ensures { result ≡ size_in area sub_area }
{
    if sub_area.area as usize == area {
        sub_area.size()
    } else {
        0
    }
}

pub fn area_size(sub_areas: [SubAreaRecord; 32], count: usize, area: usize) -> u64
    requires count_bound { count ≤ 32 }
    requires sizes_bound { (i : ℕ) → i < count → size_of (sub_area_of sub_areas i) ≤ 16777216 }
    ensures { (result ≡ area_size sub_areas count area) × (result ≤ 536870912) }
{
    sub_areas[..count]
        .iter()
        .map(|sub_area| size_in(*sub_area, area))
        .sum()
}

#[tactic(auto, unfolding(plan::specs::Questions::space_fits))]
fn space_fits(
    start: LogicalAddress,
    sub_areas: [SubAreaRecord; 32],
    count: usize,
    area: usize,
) -> bool
    requires count_bound { count ≤ 32 }
    requires sizes_bound { (i : ℕ) → i < count → size_of (sub_area_of sub_areas i) ≤ 16777216 }
    ensures { result ≡ space_fits start.0 sub_areas count area }
{
    has_sub_area(sub_areas, count, area)
        && (start.0 as u64) + area_size(sub_areas, count, area) <= 4294967295
}

// Question 7.
pub fn spaces_fit(plan: Plan) -> bool
    requires area_count_bound { (plan.area_count ≤ 8) × (1 ≤ plan.sub_area_count) × (plan.sub_area_count ≤ 32) }
    requires sizes_bound { (i : ℕ) → i < plan.sub_area_count → size_of (sub_area_of plan.sub_areas i) ≤ 16777216 }
    ensures { result ≡ spaces_fit plan }
{
    never_falling(plan.sub_areas, plan.sub_area_count)
        && plan.areas[..plan.area_count].iter().enumerate().all(|(a, area)| space_fits(
            area.start,
            plan.sub_areas,
            plan.sub_area_count,
            a,
        ))
}

// Question 8.
pub fn all_apart(sub_areas: [SubAreaRecord; 32], count: usize) -> bool
    requires { count ≤ 32 }
    ensures { result ≡ all_apart sub_areas count }
{
    pairs_apart(&sub_areas[..count])
}
