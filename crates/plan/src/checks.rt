// What the questions of a load ask of one record, of two records, and of the counts; the length of all devices.
ghost use Rattle.std.specs.Prelude.{◌≡◌, ◌+◌, ◌*◌, ◌≤◌, ◌<◌, Bool, leb};
ghost use Rattle.plan.specs.Records.{no_area, no_sub_area};
ghost use Rattle.plan.specs.Questions.{within, counts_fit, length_sum, apart, device_end, device_joins, window_end, windows_apart, granularity_fits, sizes_fit, size_of, end_of, inside_device, is_placed, sub_areas_apart};

use crate::records::{AreaRecord, DeviceRecord, Granularity, SubAreaRecord};
use multiples::is_multiple;

fn is_within(most: usize, n: usize) -> bool
    ensures { result ≡ within most n }
{
    (1..=most).contains(&n)
}

// Question 2.
#[tactic(auto, unfolding(crate::specs::Questions::counts_fit))]
pub fn counts_fit(devices: usize, areas: usize, sub_areas: usize) -> bool
    ensures { result ≡ counts_fit devices areas sub_areas }
{
    is_within(4, devices) && is_within(8, areas) && is_within(32, sub_areas)
}

// The length of the image.
pub fn device_sum(devices: [DeviceRecord; 4], count: usize) -> u64
    requires { count ≤ 4 }
    ensures { (result ≡ length_sum devices count) × (result ≤ 17179869180) }
{
    let mut sum: u64 = 0;
    for device in &devices[..count] {
        sum += device.length as u64;
    }
    sum
}

// Do the n bytes from s on and the m bytes from t on share no byte?
#[tactic(auto, unfolding(crate::specs::Questions::apart))]
fn are_apart(s: u64, n: u64, t: u64, m: u64) -> bool
    requires { (s + n ≤ 18446744073709551615) × (t + m ≤ 18446744073709551615) }
    ensures { result ≡ apart s n t m }
{
    s + n <= t || t + m <= s || n == 0 || m == 0
}

// Records of which no two may share a byte: windows of the job store, sub-areas of the devices.
pub trait Apart: Copy {
    // the record of all zeros
    ghost blank: { Self };

    ghost apart: { Self → Self → Bool };

    fn is_apart(self, other: Self) -> bool
        ensures { result ≡ apart self other };
}

impl DeviceRecord {
    pub fn end(self) -> u64
        ensures { result ≡ device_end self }
    {
        (self.start as u64) + (self.length as u64)
    }

    // Does it start where it is due, and has it a length and a poll limit?
    #[tactic(auto, unfolding(crate::specs::Questions::device_joins))]
    pub fn joins(self, due: u64) -> bool
        ensures { result ≡ device_joins due self }
    {
        self.start as u64 == due && 1 <= self.length && 1 <= self.poll_limit
    }
}

impl AreaRecord {
    pub fn window_end(self) -> u64
        ensures { result ≡ window_end self }
    {
        (self.window.start as u64) + (self.window.length as u64)
    }

    pub fn window_fits(self) -> bool
        ensures { result ≡ leb (window_end self) 65536 }
    {
        self.window_end() <= 65536
    }
}

impl Apart for AreaRecord {
    ghost blank = { no_area };

    ghost apart = { windows_apart };

    #[tactic(auto, unfolding(crate::specs::Questions::windows_apart))]
    fn is_apart(self, other: AreaRecord) -> bool {
        are_apart(
            self.window.start as u64,
            self.window.length as u64,
            other.window.start as u64,
            other.window.length as u64,
        )
    }
}

impl Granularity {
    #[tactic(auto, unfolding(crate::specs::Questions::granularity_fits))]
    fn fits(self) -> bool
        ensures { result ≡ granularity_fits self }
    {
        1 <= self.unit && 1 <= self.burst && is_multiple(self.unit as u64, self.burst as u64)
    }
}

impl SubAreaRecord {
    pub fn size(self) -> u64
        ensures { (result ≡ size_of self) × (result ≤ 18446744065119617025) }
    {
        (self.erase.unit as u64) * (self.sector_count as u64)
    }

    fn end(self) -> u64
        ensures { result ≡ end_of self }
    {
        (self.start as u64) + self.size()
    }

    #[tactic(auto, unfolding(crate::specs::Questions::sizes_fit))]
    pub fn sizes_fit(self) -> bool
        ensures { result ≡ sizes_fit self }
    {
        self.erase.fits()
            && self.write.fits()
            && self.read.fits()
            && 1 <= self.sector_count
            && is_multiple(self.write.unit as u64, self.erase.unit as u64)
            && is_multiple(self.read.unit as u64, self.erase.unit as u64)
    }

    #[tactic(auto, unfolding(crate::specs::Questions::inside_device))]
    fn is_inside(self, device: DeviceRecord) -> bool
        ensures { result ≡ inside_device self device }
    {
        device.start <= self.start && self.end() <= device.end()
    }

    #[tactic(auto, unfolding(crate::specs::Questions::is_placed))]
    pub fn is_placed(
        self,
        devices: [DeviceRecord; 4],
        device_count: usize,
        area_count: usize,
    ) -> bool
        requires { device_count ≤ 4 }
        ensures { result ≡ is_placed devices device_count area_count self }
    {
        (self.area as usize) < area_count
            && (self.device as usize) < device_count
            && is_multiple(self.erase.unit as u64, self.start as u64)
            && self.is_inside(devices[self.device as usize])
    }
}

impl Apart for SubAreaRecord {
    ghost blank = { no_sub_area };

    ghost apart = { sub_areas_apart };

    #[tactic(auto, unfolding(crate::specs::Questions::sub_areas_apart))]
    fn is_apart(self, other: SubAreaRecord) -> bool {
        are_apart(
            self.start as u64,
            self.size(),
            other.start as u64,
            other.size(),
        )
    }
}
