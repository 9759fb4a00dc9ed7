// The records of a plan, and a plan as a load keeps it.
ghost use Rattle.std.specs.Prelude.{◌≡◌, ℕ, ◌+◌, ◌*◌, ◌≤◌, ◌<◌, ◌||◌, List, eqb, length};
ghost use Rattle.std.proofs.Common.{rules};
ghost use Rattle.arith.specs.Tables.{table};
ghost use Rattle.plan.specs.Records.{device_at, area_at, sub_area_at, granularity_at, wear_at, endurance_by, no_device, no_area, no_granularity, no_sub_area, no_wear, device_format, area_format, sub_area_format, wear_format, empty_plan, plan_of, record_layout};

use crate::number::{u8_at, u16_at, u32_at};
use crate::scan::{RecordFormat, RecordLayout};
use memory::LogicalAddress;

// Document 01: a device record. `poll_limit` is its patience.
#[repr(C)]
#[derive(Clone, Copy, Default)]
pub struct DeviceRecord {
    pub start: u32,
    pub length: u32,
    pub poll_limit: u16,
    // document 02, 02: the chip can pause an erase
    pub suspends: bool,
    // document 02, 03: a write there only clears bits
    pub clears: bool,
}

// An area's part of the job store.
#[repr(C)]
#[derive(Clone, Copy, Default)]
pub struct Window {
    pub start: u32,
    pub length: u32,
}

#[repr(C)]
#[derive(Clone, Copy, Default)]
pub struct AreaRecord {
    pub priority: u16,
    pub start: LogicalAddress,
    pub window: Window,
}

// The unit of an operation, and the most that one request of it takes: sector and sector burst,
// page and page burst, smallest and largest read.
#[repr(C)]
#[derive(Clone, Copy, Default)]
pub struct Granularity {
    pub unit: u32,
    pub burst: u32,
}

#[repr(C)]
#[derive(Clone, Copy, Default)]
pub struct SubAreaRecord {
    pub start: u32,
    pub erase: Granularity,
    pub write: Granularity,
    pub read: Granularity,
    pub sector_count: u32,
    pub area: u8,
    pub device: u8,
    pub write_retries: u8,
    pub erase_retries: u8,
}

// Document 02, 05: what a sub-area's sectors endure.
#[derive(Clone, Copy, Default)]
pub struct WearRecord {
    pub sub_area: u8,
    pub endurance: u32,
}

// The records of a plan with how many of each kind are in use; the others are all zeros.
#[repr(C)]
#[derive(Clone, Copy, Default)]
pub struct Plan {
    pub devices: [DeviceRecord; 4],
    pub areas: [AreaRecord; 8],
    pub sub_areas: [SubAreaRecord; 32],
    pub device_count: usize,
    pub area_count: usize,
    pub sub_area_count: usize,
    // document 02, 05: cycles per sector of each sub-area; 0 is no record
    pub endurance: [u32; 32],
}

// A record as it stands in a plan's bytes, with its mark.
pub(crate) trait Record: Copy + Default {
    ghost use Rattle.plan.specs.declared.scan.RecordFormat.{RecordFormat};

    const FORMAT: RecordFormat;

    ghost FORMAT: { RecordFormat };

    // the record of all zeros
    ghost blank: { Self };

    // the record that begins at this byte
    ghost record_at: { List ℕ → ℕ → Self };

    fn read(bytes: &[u8], at: usize) -> Self
        requires { at + FORMAT.size ≤ length bytes.now }
        ensures { result ≡ record_at bytes.now at };

    ghost default_is_blank: { (x : Self) → Self.is_default x → x ≡ blank };
}

// Does the second byte of a device's mark say that the chip can suspend?
fn can_suspend(mark: u8) -> bool
    ensures { result ≡ (eqb mark 83 || eqb mark 70) }
{
    mark == b'S' || mark == b'F'
}

impl Record for DeviceRecord {
    const FORMAT: RecordFormat = RecordFormat {
        first: b'D',
        seconds: [b'V', b'S', b'F'],
        size: 12,
    };

    ghost FORMAT = { device_format };

    ghost blank = { no_device };

    ghost record_at = { device_at };

    ghost default_is_blank = { λ x e. Prim.search rules };

    #[tactic(auto, unfolding(crate::specs::Records::device_at))]
    fn read(bytes: &[u8], at: usize) -> DeviceRecord {
        let mark = bytes[at + 1];
        DeviceRecord {
            start: u32_at(bytes, at + 2),
            length: u32_at(bytes, at + 6),
            poll_limit: u16_at(bytes, at + 10),
            suspends: can_suspend(mark),
            clears: mark == b'F',
        }
    }
}

impl Record for AreaRecord {
    const FORMAT: RecordFormat = RecordFormat {
        first: b'A',
        seconds: [b'R'; 3],
        size: 16,
    };

    ghost FORMAT = { area_format };

    ghost blank = { no_area };

    ghost record_at = { area_at };

    ghost default_is_blank = { λ x e. Prim.search rules };

    #[tactic(auto, unfolding(crate::specs::Records::area_at))]
    fn read(bytes: &[u8], at: usize) -> AreaRecord {
        AreaRecord {
            priority: u16_at(bytes, at + 2),
            start: LogicalAddress(u32_at(bytes, at + 4)),
            window: Window {
                start: u32_at(bytes, at + 8),
                length: u32_at(bytes, at + 12),
            },
        }
    }
}

impl Granularity {
    #[tactic(auto, unfolding(crate::specs::Records::granularity_at))]
    fn read(bytes: &[u8], at: usize) -> Granularity
        requires { at + 8 ≤ length bytes.now }
        ensures { result ≡ granularity_at bytes.now at }
    {
        Granularity {
            unit: u32_at(bytes, at),
            burst: u32_at(bytes, at + 4),
        }
    }
}

impl Record for SubAreaRecord {
    const FORMAT: RecordFormat = RecordFormat {
        first: b'S',
        seconds: [b'B'; 3],
        size: 38,
    };

    ghost FORMAT = { sub_area_format };

    ghost blank = { no_sub_area };

    ghost record_at = { sub_area_at };

    ghost default_is_blank = { λ x e. Prim.search rules };

    #[tactic(auto, unfolding(crate::specs::Records::sub_area_at))]
    fn read(bytes: &[u8], at: usize) -> SubAreaRecord {
        SubAreaRecord {
            area: u8_at(bytes, at + 2),
            device: u8_at(bytes, at + 3),
            start: u32_at(bytes, at + 4),
            erase: Granularity::read(bytes, at + 8),
            write: Granularity::read(bytes, at + 16),
            read: Granularity::read(bytes, at + 24),
            sector_count: u32_at(bytes, at + 32),
            write_retries: u8_at(bytes, at + 36),
            erase_retries: u8_at(bytes, at + 37),
        }
    }
}

impl Record for WearRecord {
    const FORMAT: RecordFormat = RecordFormat {
        first: b'W',
        seconds: [b'R'; 3],
        size: 7,
    };

    ghost FORMAT = { wear_format };

    ghost blank = { no_wear };

    ghost record_at = { wear_at };

    ghost default_is_blank = { λ x e. Prim.search rules };

    #[tactic(auto, unfolding(crate::specs::Records::wear_at))]
    fn read(bytes: &[u8], at: usize) -> WearRecord {
        WearRecord {
            sub_area: u8_at(bytes, at + 2),
            endurance: u32_at(bytes, at + 3),
        }
    }
}

// The records of one kind from `from` on; the others are all zeros.
fn read_records<T: Record, const N: usize>(bytes: &[u8], from: usize, count: usize) -> [T; N]
    requires { (count ≤ N) × (from + count * T.FORMAT.size ≤ length bytes.now) }
    ensures { result ≡ table N (λ i. T.record_at bytes.now (from + i * T.FORMAT.size)) T.blank count }
{
    let mut records = [T::default(); N];
    for i in 0..count {
        records[i] = T::read(bytes, from + i * T::FORMAT.size);
    }
    records
}

// The endurance of each sub-area, by the wear records from `from` on. One that names no sub-area that a plan has room for is passed over:
// question 20 refuses it.
fn read_endurance(bytes: &[u8], from: usize, count: usize) -> [u32; 32]
    requires { from + count * 7 ≤ length bytes.now }
    ensures { result ≡ table 32 (endurance_by (λ i. wear_at bytes.now (from + i * 7)) count) 0 32 }
{
    let mut endurance = [0u32; 32];
    for i in 0..count {
        let wear = WearRecord::read(bytes, from + i * 7);
        let sub_area = wear.sub_area as usize;
        if sub_area < endurance.len() {
            endurance[sub_area] = wear.endurance;
        }
    }
    endurance
}

impl Plan {
    // stays: that the check shows `Plan::default()` to be the plan of all zeros was tried; it does not.
    #[tactic(auto, unfolding(crate::specs::Records::empty_plan))]
    pub fn empty() -> Plan
        ensures { result ≡ empty_plan }
    {
        Plan {
            devices: [DeviceRecord::default(); 4],
            areas: [AreaRecord::default(); 8],
            sub_areas: [SubAreaRecord::default(); 32],
            device_count: 0,
            area_count: 0,
            sub_area_count: 0,
            endurance: [0; 32],
        }
    }

    // The records that stand in the bytes, where there are no more of each kind than a plan keeps.
    pub fn read(bytes: &[u8], layout: RecordLayout) -> Plan
        requires layout_value { (layout ≡ record_layout bytes.now) × (layout.end ≤ length bytes.now) }
        requires device_count_bound { (layout.device_count ≤ 4) × (layout.area_count ≤ 8) × (layout.sub_area_count ≤ 32) }
        ensures { result ≡ plan_of bytes.now }
    {
        Plan {
            devices: read_records(bytes, 0, layout.device_count),
            areas: read_records(bytes, layout.areas_start, layout.area_count),
            sub_areas: read_records(bytes, layout.sub_areas_start, layout.sub_area_count),
            device_count: layout.device_count,
            area_count: layout.area_count,
            sub_area_count: layout.sub_area_count,
            endurance: read_endurance(bytes, layout.wear_start, layout.wear_count),
        }
    }
}
