// The rows that the auditor's program prints: a form and its numbers, printed on a page.
#![tactic(auto)]

ghost use Rattle.std.specs.Prelude.{◌≡◌, ◌*◌, ◌≤◌, length, get_or};
ghost use Rattle.texts.specs.Pages.{Prints, room};
ghost use Rattle.rows.specs.Forms.{filled};
ghost use Rattle.rows.specs.Rows.{plan_form, job_form, reach_form, wait_form, form_of, row_text};

use texts::page::Page;

// Rows of the plan.
#[derive(Clone, Copy)]
pub enum PlanForm {
    Device,
    DeviceSuspends,
    DeviceClears,
    Area,
    AreaNoWindow,
    AreaOn,
    PairAbove,
    PairBelow,
    PairEqual,
}

// The head of a job, by its type, and what is said instead where it is no job or not admitted.
#[derive(Clone, Copy)]
pub enum JobForm {
    Unreadable,
    Write,
    Read,
    Compare,
    Erase,
    BlankCheck,
    Lock,
    Refused,
}

// What a job reaches, and how it is cut.
#[derive(Clone, Copy)]
pub enum ReachForm {
    ImageChanged,
    ImageRead,
    ImageNone,
    WindowChanged,
    WindowRead,
    WindowNone,
    Stretch,
    Segment,
    Counts,
}

// How long a job waits at most.
#[derive(Clone, Copy)]
pub enum WaitForm {
    Own,
    Below,
    Above,
    AboveOver,
    LockedNone,
    LockedSome,
    Rounds,
    RoundsNone,
}

#[derive(Clone, Copy)]
pub enum Form {
    OfPlan(PlanForm),
    OfJob(JobForm),
    OfReach(ReachForm),
    OfWait(WaitForm),
}

#[derive(Clone, Copy)]
pub struct Row {
    pub form: Form,
    pub numbers: [u64; 8],
}

// Past the numbers there are zeros.
fn number_at(numbers: &[u64], k: usize) -> u64
    ensures { result ≡ get_or numbers.now k 0 }
{
    numbers.get(k).copied().unwrap_or(0)
}

// A form with its numbers: each of its bytes takes at most 20 bytes.
fn push_filled(page: &mut Page, form: &[u8], numbers: &[u64])
    requires { 20 * length form.now ≤ room page.old }
    ensures { Prints (20 * length form.now) page.old page.new (filled form.now numbers.now) }
{
    let mut k = 0;
    for byte in form {
        if *byte == b'#' {
            page.number(number_at(numbers, k));
            k += 1;
        } else {
            page.push(*byte);
        }
    }
}

impl PlanForm {
    #[tactic(auto, unfolding(arith::specs::Listed::listed))]
    fn text(self) -> &'static [u8]
        ensures { (result.now ≡ plan_form self) × (length result.now ≤ 150) }
    {
        match self {
            PlanForm::Device => b"device # bytes #..# patience #\n",
            PlanForm::DeviceSuspends => b"device # bytes #..# patience # suspends\n",
            PlanForm::DeviceClears => b"device # bytes #..# patience # suspends clears\n",
            PlanForm::Area => b"area # rank # priority # logical #..# window #..#\n",
            PlanForm::AreaNoWindow => b"area # rank # priority # logical #..# window none\n",
            PlanForm::AreaOn => b"area # on device #\n",
            PlanForm::PairAbove =>
                b"pair # behind # device # above: each job of area # adds at most its own by Demands.above-bounded\n",
            PlanForm::PairBelow =>
                b"pair # behind # device # below: each stretch adds at most # x (# - 1) = # by Demand3.below\n",
            PlanForm::PairEqual =>
                b"pair # behind # device # above if accepted later by FirstCome, else below: each stretch adds at most # x (# - 1) = # by Demand3.below\n",
        }
    }
}

impl JobForm {
    #[tactic(auto, unfolding(arith::specs::Listed::listed))]
    fn text(self) -> &'static [u8]
        ensures { (result.now ≡ job_form self) × (length result.now ≤ 150) }
    {
        match self {
            JobForm::Unreadable => b"?\n",
            JobForm::Write => b"job 1 # # # write\n",
            JobForm::Read => b"job 2 # # # read\n",
            JobForm::Compare => b"job 3 # # # compare\n",
            JobForm::Erase => b"job 4 # # # erase\n",
            JobForm::BlankCheck => b"job 6 # # # blank check\n",
            JobForm::Lock => b"job 7 # # # lock\n",
            JobForm::Refused => b"refused #\n",
        }
    }
}

impl ReachForm {
    #[tactic(auto, unfolding(arith::specs::Listed::listed))]
    fn text(self) -> &'static [u8]
        ensures { (result.now ≡ reach_form self) × (length result.now ≤ 150) }
    {
        match self {
            ReachForm::ImageChanged =>
                b"image device # bytes #..# changed by RoundChanges.image-reach\n",
            ReachForm::ImageRead => b"image device # bytes #..# looked at by Demand2.cut\n",
            ReachForm::ImageNone => b"image none\n",
            ReachForm::WindowChanged => b"window bytes #..# changed by RoundChanges.store-reach\n",
            ReachForm::WindowRead => b"window bytes #..# looked at\n",
            ReachForm::WindowNone => b"window none\n",
            ReachForm::Stretch => b"stretch # device # below at most # x (# - 1) = #\n",
            ReachForm::Segment => b"segment # device # bytes #..# tries # rounds # x # = #\n",
            ReachForm::Counts => b"segments # stretches #\n",
        }
    }
}

impl WaitForm {
    #[tactic(auto, unfolding(arith::specs::Listed::listed))]
    fn text(self) -> &'static [u8]
        ensures { (result.now ≡ wait_form self) × (length result.now ≤ 150) }
    {
        match self {
            WaitForm::Own => b"own at most # by Demand3.own\n",
            WaitForm::Below => b"below at most # by Demand3.below\n",
            WaitForm::Above =>
                b"above at most # by OnlyThese.above if no other job is accepted; else each job above it adds at most its own by Demands.above-bounded\n",
            WaitForm::AboveOver => b"above no figure: it is over 64 bits\n",
            WaitForm::LockedNone =>
                b"locked 0 by OnlyThese.locked if no other job is accepted; else no bound: as long as an area holds the device\n",
            WaitForm::LockedSome =>
                b"locked no bound: as long as an area holds the device, as a lock request here may\n",
            WaitForm::Rounds =>
                b"rounds at most # + # + # + 1 = # by OnlyThese.rounds if no other job is accepted\n",
            WaitForm::RoundsNone => b"rounds no bound\n",
        }
    }
}

impl Form {
    // A form is at most 150 bytes long.
    fn text(self) -> &'static [u8]
        ensures { (result.now ≡ form_of self) × (length result.now ≤ 150) }
    {
        match self {
            Form::OfPlan(form) => form.text(),
            Form::OfJob(form) => form.text(),
            Form::OfReach(form) => form.text(),
            Form::OfWait(form) => form.text(),
        }
    }
}

// A row is at most 3,000 bytes long.
#[tactic(auto, unfolding(crate::specs::Rows::row_text))]
pub fn print_row(page: &mut Page, row: Row)
    requires { 3000 ≤ room page.old }
    ensures { Prints 3000 page.old page.new (row_text row) }
{
    push_filled(page, row.form.text(), &row.numbers);
}
