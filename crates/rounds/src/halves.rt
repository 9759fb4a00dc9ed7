// A whole round on what moves in a manager.
ghost use Rattle.std.specs.Prelude.{ℕ, true, List, ◌≡◌};
ghost use Rattle.machine.specs.laws.Dues.{Due};
ghost use Rattle.devices.specs.Arrays.{job_in};
ghost use Rattle.machine.specs.Sound.{is_sound};
ghost use Rattle.rules.specs.Admission.{image_fits, store_reaches};
ghost use Rattle.rules.specs.Layout.{layout_at};
ghost use Rattle.close.specs.Close.{areas_after, devices_after, wear_after_round, halves_of};
ghost use Rattle.rounds.specs.laws.NeedLaws.{needs_of};
ghost use Rattle.effects.specs.Effects.{memory_of};
ghost use Rattle.state.specs.Ages.{age_in};
ghost use Rattle.wear.specs.Wear.{add_worn};

use answers::{take_answer, worn_by};
use close::closed_area;
use devices::state_on;
use machine::soundness::runner;
use memory::DeviceAnswer;
use picks::{chosen, pick_area, slot_on, start_choice};
use plan::records::Plan;
use segment::Segment;
use state::{Area, Device};
use wear::Worn;

// What a round makes of areas and devices, and what each device's answer wears. The sums themselves do not go through it: what is handed on is copied.
#[derive(Clone, Copy)]
pub struct Arrays {
    pub areas: [Area; 8],
    pub devices: [Device; 4],
    pub worn: [Worn; 4],
}

// The devices that the pending jobs need: those of their due segments.
fn needed_devices(dues: [Segment; 8]) -> [u8; 8]
    ensures { result ≡ needs_of dues }
{
    dues.map(|due| due.device)
}

// Both halves, then the close; `dues` are the due segments of the pending jobs, and go with their jobs. The loops stand in one
// function, which sets an entry at a time, since an array that goes through a call is copied.
pub fn run_round(
    plan: Plan,
    answers: [DeviceAnswer; 4],
    mut areas: [Area; 8],
    mut devices: [Device; 4],
    ages: [u8; 8],
    mut dues: [Segment; 8],
    image: &mut [u8],
    store: &mut [u8],
) -> Arrays
    requires { (is_sound plan areas devices ≡ true) × (image_fits plan image.old ≡ true) × (store_reaches plan store.old ≡ true) × Due plan dues (job_in areas) }
    ensures areas_value { result.areas ≡ areas_after (layout_at plan (age_in ages)) areas (halves_of plan areas devices ages answers (memory_of image.old store.old)).core }
    ensures devices_value { result.devices ≡ devices_after (halves_of plan areas devices ages answers (memory_of image.old store.old)).core }
    ensures worn_value { (wear : List ℕ) → add_worn result.worn 4 wear ≡ wear_after_round plan areas devices answers (memory_of image.old store.old) wear }
    ensures image_after { image.new ≡ (halves_of plan areas devices ages answers (memory_of image.old store.old)).memory.image }
    ensures store_after { store.new ≡ (halves_of plan areas devices ages answers (memory_of image.old store.old)).memory.store }
{
    // the close counts from these waits
    let before = areas;
    let sub_areas = plan.sub_areas;
    let records = plan.areas;
    let device_records = plan.devices;
    // the wear first: what the answers finish is told by the state before them
    let mut worn = [Worn::none(); 4];
    for k in 0..plan.device_count {
        let state = devices[k].state;
        let area = runner(state);
        worn[k] = worn_by(state, answers[k], areas[area].job, dues[area]);
    }
    for d in 0..plan.device_count {
        // the area that its request is for, or any: without a request it stays as it is
        let area = runner(devices[d].state);
        let turn = take_answer(
            sub_areas,
            plan.sub_area_count,
            records[area],
            device_records[d],
            areas[area],
            dues[area],
            devices[d],
            answers[d],
            image,
            store,
        );
        areas[area] = turn.area;
        dues[area] = turn.due;
        devices[d] = turn.device;
    }
    let needs = needed_devices(dues);
    for e in 0..plan.device_count {
        let running = areas[runner(devices[e].state)];
        let slot = slot_on(device_records[e].suspends, running, devices[e]);
        let best = pick_area(slot, records, ages, plan.area_count, needs, areas, e);
        // without a choice any area will do: it stays as it is
        let area = chosen(best);
        let start = start_choice(slot, best, areas[area], devices[e]);
        areas[area] = start.area;
        devices[e] = start.device;
    }
    for a in 0..8 {
        let state = state_on(devices, needs[a] as usize);
        areas[a] = closed_area(records, ages, a as u8, before[a], areas[a], state);
    }
    Arrays {
        areas,
        devices,
        worn,
    }
}
