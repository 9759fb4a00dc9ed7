// Which of the questions 3 to 8 refuses a plan.
ghost use Rattle.std.specs.Prelude.{true, ◌≡◌};
ghost use Rattle.arith.specs.FirstNo.{first_no};
ghost use Rattle.memory.specs.Numbers.{admission_number};
ghost use Rattle.plan.specs.Questions.{counts_fit, record_questions};

use memory::{Admission, Refusal};
use plan::records::Plan;
use plan_questions::{all_apart, all_sizes_fit, devices_join, places_fit, spaces_fit, windows_fit};

// Questions 3 to 8, in their order.
pub(crate) fn admission(plan: Plan) -> Admission
    requires { counts_fit plan.device_count plan.area_count plan.sub_area_count ≡ true }
    ensures { admission_number result ≡ first_no 3 (record_questions plan) }
{
    if !devices_join(plan.devices, plan.device_count) {
        return Err(Refusal::Devices);
    }
    if !windows_fit(plan.areas, plan.area_count) {
        return Err(Refusal::Windows);
    }
    if !all_sizes_fit(plan.sub_areas, plan.sub_area_count) {
        return Err(Refusal::Sizes);
    }
    if !places_fit(plan) {
        return Err(Refusal::Placement);
    }
    if !spaces_fit(plan) {
        return Err(Refusal::AreaSpaces);
    }
    if !all_apart(plan.sub_areas, plan.sub_area_count) {
        return Err(Refusal::SharedBytes);
    }
    Ok(())
}
