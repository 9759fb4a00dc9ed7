// The lines of a session (document 01, "A printed session"): what a line asks for.
#![tactic(auto)]

ghost use Rattle.std.specs.Prelude.{◌≡◌, ◌≤◌, ◌<◌, length, ◌∷◌, ◌+◌, Some, MatchOption, []};
ghost use Rattle.lines.specs.Fields.{cut_from, rest, is_last};
ghost use Rattle.lines.specs.laws.FieldLaws.{word};
ghost use Rattle.lines.specs.Lines.{first_number, only_number, target_of, is_letter, answer_word, first_answer, answer_for, rest_for, answers_of, round_line, kind_of, job_in, job_line, release_line, cancel_line, info_line, line_of_type, line_of};
ghost use Rattle.lines.specs.Number.{number_of};

use memory::{DeviceAnswer, JobType};
use std::marker::Model;

// A line may have at most so many bytes.
const LONGEST_LINE: usize = 4096;

// "area address length" of a line.
#[derive(Clone, Copy)]
pub struct Target {
    pub area: u32,
    pub address: u32,
    pub length: u32,
}

// A call on the manager that answers with its number alone.
#[derive(Clone, Copy)]
pub enum LineCall {
    Write(Target),
    Read(Target),
    Compare(Target),
    Erase(Target),
    BlankCheck(Target),
    Lock(Target),
    Release(Target),
    Cancel(u32),
}

// What a line asks for.
#[derive(Clone, Copy)]
pub enum Line {
    Call(LineCall),
    Info(u32),
    Round {
        first: DeviceAnswer,
        second: DeviceAnswer,
        third: DeviceAnswer,
        fourth: DeviceAnswer,
    },
}

// The number that a field's bytes say. Every number of a line is read here.
fn number_of(text: &[u8]) -> Option<u32>
    ensures { result ≡ number_of text.now }
{
    if text.is_empty() {
        return None;
    }
    let mut value: u32 = 0;
    for byte in text {
        if !byte.is_ascii_digit() {
            return None;
        }
        value = value.checked_mul(10)?.checked_add((*byte - b'0') as u32)?;
    }
    Some(value)
}

// Where the part from byte `from` on ends: at the next byte `mark`, or at the end.
pub fn part_end(bytes: &[u8], mark: u8, from: usize) -> usize
    requires { from ≤ length bytes.now }
    ensures { (from ≤ result) × (result ≤ length bytes.now) × (cut_from mark bytes.now from ≡ word bytes.now from result ∷ cut_from mark bytes.now (result + 1)) }
{
    for i in from..bytes.len() {
        if bytes[i] == mark {
            return i;
        }
    }
    bytes.len()
}

fn is_letter(letter: u8, text: &[u8]) -> bool
    ensures { result ≡ is_letter letter text.now }
{
    text.len() == 1 && text[0] == letter
}

#[tactic(auto, unfolding(crate::specs::Lines::answer_word))]
fn answer_of(text: &[u8]) -> Option<DeviceAnswer>
    ensures { result ≡ answer_word text.now }
{
    if is_letter(b'p', text) {
        return Some(DeviceAnswer::Pending);
    }
    if is_letter(b'd', text) {
        return Some(DeviceAnswer::Done);
    }
    Some(DeviceAnswer::Failed(number_of(text)?))
}

// The fields of a line that are still to be read: those from byte `at` on, and none past its end.
#[derive(Drop)]
struct Fields<'a> {
    line: &'a [u8],
    at: usize,
}

impl<'a> Model for Fields<'a> {
    ghost use Rattle.std.specs.Prelude.{ℕ, List};
    ghost use Rattle.lines.specs.Fields.{fields_from};

    ghost Value = { List (List ℕ) };

    ghost view = { λ f. fields_from f.line.now f.at };
}

impl<'a> Fields<'a> {
    fn are_read(&self) -> bool
        ensures { result ≡ is_last self.now }
    {
        self.line.len() < self.at
    }

    fn next(&mut self) -> Option<&'a [u8]>
        ensures { MatchOption result ((self.old ≡ []) × (self.new ≡ [])) (λ field. self.old ≡ field.now ∷ self.new) }
    {
        if self.are_read() {
            return None;
        }
        let from = self.at;
        let to = part_end(self.line, b' ', from);
        self.at = to + 1;
        Some(&self.line[from..to])
    }

    fn number(&mut self) -> Option<u32>
        ensures { (result ≡ first_number self.old) × (self.new ≡ rest self.old) }
    {
        number_of(self.next()?)
    }

    fn answer(&mut self) -> Option<DeviceAnswer>
        ensures { (result ≡ first_answer self.old) × (self.new ≡ rest self.old) }
    {
        answer_of(self.next()?)
    }
}

#[tactic(auto, unfolding(crate::specs::Lines::only_number))]
fn only_number(fields: &mut Fields) -> Option<u32>
    ensures { result ≡ only_number fields.old }
{
    let number = fields.number()?;
    if !fields.are_read() {
        return None;
    }
    Some(number)
}

#[tactic(auto, unfolding(crate::specs::Lines::target_of))]
fn target_of(fields: &mut Fields) -> Option<Target>
    ensures { result ≡ target_of fields.old }
{
    let area = fields.number()?;
    let address = fields.number()?;
    let length = fields.number()?;
    if !fields.are_read() {
        return None;
    }
    Some(Target {
        area,
        address,
        length,
    })
}

// A device beyond the plan's takes no field.
fn answer_for(fields: &mut Fields, device: usize, devices: usize) -> Option<DeviceAnswer>
    ensures { (result ≡ answer_for devices device fields.old) × (fields.new ≡ rest_for devices device fields.old) }
{
    if device < devices {
        return fields.answer();
    }
    Some(DeviceAnswer::Pending)
}

fn answers_of(fields: &mut Fields, devices: usize) -> Option<Line>
    ensures { result ≡ answers_of devices fields.old }
{
    let first = answer_for(fields, 0, devices)?;
    let second = answer_for(fields, 1, devices)?;
    let third = answer_for(fields, 2, devices)?;
    let fourth = answer_for(fields, 3, devices)?;
    if !fields.are_read() {
        return None;
    }
    Some(Line::Round {
        first,
        second,
        third,
        fourth,
    })
}

#[tactic(auto, unfolding(crate::specs::Lines::round_line))]
fn round_line(fields: &mut Fields, devices: usize) -> Option<Line>
    ensures { result ≡ round_line devices fields.old }
{
    if 4 < devices {
        return None;
    }
    answers_of(fields, devices)
}

#[tactic(auto, unfolding(crate::specs::Lines::kind_of))]
fn kind_of(number: u32) -> JobType
    ensures { result ≡ kind_of number }
{
    match number {
        1 => JobType::Write,
        2 => JobType::Read,
        3 => JobType::Compare,
        4 => JobType::Erase,
        6 => JobType::BlankCheck,
        7 => JobType::Lock,
        _ => JobType::NoJob,
    }
}

fn job_in(kind: JobType, target: Target) -> Option<Line>
    ensures { result ≡ job_in kind target }
{
    let call = match kind {
        JobType::NoJob => return None,
        JobType::Write => LineCall::Write(target),
        JobType::Read => LineCall::Read(target),
        JobType::Compare => LineCall::Compare(target),
        JobType::Erase => LineCall::Erase(target),
        JobType::BlankCheck => LineCall::BlankCheck(target),
        JobType::Lock => LineCall::Lock(target),
    };
    Some(Line::Call(call))
}

fn job_line(kind: JobType, fields: &mut Fields) -> Option<Line>
    ensures { result ≡ job_line kind (target_of fields.old) }
{
    job_in(kind, target_of(fields)?)
}

fn release_line(fields: &mut Fields) -> Option<Line>
    ensures { result ≡ release_line (target_of fields.old) }
{
    Some(Line::Call(LineCall::Release(target_of(fields)?)))
}

fn cancel_line(fields: &mut Fields) -> Option<Line>
    ensures { result ≡ cancel_line (only_number fields.old) }
{
    Some(Line::Call(LineCall::Cancel(only_number(fields)?)))
}

fn info_line(fields: &mut Fields) -> Option<Line>
    ensures { result ≡ info_line (only_number fields.old) }
{
    Some(Line::Info(only_number(fields)?))
}

// The line of a type's number, its other fields still to be read. By value: lent fields would stand in memory before the number is read.
fn line_of_type(kind: u32, mut fields: Fields, devices: usize) -> Option<Line>
    ensures { result ≡ line_of_type devices (Some kind) fields.entry }
{
    match kind {
        0 => round_line(&mut fields, devices),
        8 => release_line(&mut fields),
        9 => cancel_line(&mut fields),
        10 => info_line(&mut fields),
        _ => job_line(kind_of(kind), &mut fields),
    }
}

// What a line asks for, where the plan has so many devices; the line's bytes are without its end. `None` is a line
// that cannot be read.
#[tactic(auto, using(crate::specs::laws::FieldLaws::fields_all), unfolding(crate::specs::Lines::line_of))]
pub fn line_of(line: &[u8], devices: usize) -> Option<Line>
    ensures { result ≡ line_of devices line.now }
{
    if LONGEST_LINE < line.len() {
        return None;
    }
    let mut fields = Fields { line, at: 0 };
    let kind = fields.number()?;
    line_of_type(kind, fields, devices)
}
