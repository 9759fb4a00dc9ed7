// Loading a plan: the first question answered "no", or the plan.
#![tactic(auto)]

mod questions;

ghost use Rattle.std.specs.Prelude.{◌≡◌, MatchResult};
ghost use Rattle.memory.specs.Numbers.{admission_number};
ghost use Rattle.plan.specs.Questions.{load_number, loaded_plan};
ghost use Rattle.plan.specs.Records.{empty_plan};

use crate::questions::admission;
use memory::Refusal;
use plan::checks::counts_fit;
use plan::records::Plan;
use plan::scan::record_layout;
use plan::wear::wear_fits;

// Any bytes: the first "no", or the plan that the bytes hold.
pub fn load_plan(bytes: &[u8]) -> Result<Plan, Refusal>
    ensures answer_value { admission_number result ≡ load_number bytes.now }
    ensures plan_value { MatchResult result (λ plan. plan ≡ loaded_plan bytes.now) (λ _. loaded_plan bytes.now ≡ empty_plan) }
{
    let layout = record_layout(bytes);
    if layout.end != bytes.len() {
        return Err(Refusal::Records);
    }
    if !counts_fit(
        layout.device_count,
        layout.area_count,
        layout.sub_area_count,
    ) {
        return Err(Refusal::Counts);
    }
    let plan = Plan::read(bytes, layout);
    admission(plan)?;
    if !wear_fits(
        bytes,
        layout.wear_start,
        layout.wear_count,
        layout.sub_area_count,
    ) {
        return Err(Refusal::Wear);
    }
    Ok(plan)
}
