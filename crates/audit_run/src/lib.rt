// The auditor's program: it reads plan.bin in the current directory and the jobs that a reader brings, the standard input, and prints the audit.
//
// What is printed into a buffer, and what is left then, is an equation (`audits::fill`); which bytes a read brings, and whether a write took its bytes, is for the reader and the writer to say, and those of the system say nothing but counts: each
// function that reads or writes says at its contract what that leaves open.
#![tactic(auto)]

ghost use Rattle.std.specs.Prelude.{ℕ, true, List, ◌≡◌, ◌<◌, ◌≤◌, IfSome, length};
ghost use Rattle.std.specs.Io.KnownBytes.{Appends};
ghost use Rattle.streams.specs.Moved.{Wrote};
ghost use Rattle.manager.specs.Load.{loaded_manager};
ghost use Rattle.rows.specs.Rows.{rows_text};
ghost use Rattle.texts.specs.Texts.{question_line};
ghost use Rattle.audits.specs.Audits.{audit_rows, jobs_in};
ghost use Rattle.audits.specs.laws.LoadLaws.{Loaded};
ghost use Rattle.audits.specs.laws.TableLaws.{Tabled};
ghost use Rattle.session.specs.AllLines.{lines_of};

use audits::fill::{Place, fill, is_finished};
use audits::{Table, table_of};
use buffers::question_text;
use manager::Manager;
use std::io::{Read, Write};
use std::rt::Files;
use streams::write_all;

// Writes the audit of the input, as many rows at a time as have room, and answers how many bytes of the input were audited: all, or none where a write failed. What stands in the buffer each time, and what is
// left then, is said by `fill`; the writes decide how far it comes, and a front of the audit is what they took, all of it where bytes were audited. Nothing bounds the number of rows, so the turns are counted from a number that no run uses up.
fn write_rows<W: Write>(
    writer: &mut W,
    manager: Manager,
    table: Table,
    input: &[u8],
    out: &mut [u8],
) -> usize
    requires { Loaded manager × Tabled manager (jobs_in manager.plan.device_count (lines_of true input.now)) table }
    ensures used { result ≤ length input.now }
    ensures written { Wrote (W.contents writer.old) (W.contents writer.new) (rows_text (audit_rows manager (lines_of true input.now))) (0 < result) }
{
    let mut place = Place::first();
    for _ in 0..u64::MAX {
        let filled = fill(manager, table, input, place, out);
        place = filled.place;
        if write_all(writer, &out[..filled.end]).is_err() {
            return 0;
        }
        if is_finished(place, input.len()) {
            return input.len();
        }
    }
    0
}

// The audit of jobs: each is set beside all others.
fn write_audit<W: Write>(writer: &mut W, manager: Manager, input: &[u8], out: &mut [u8]) -> usize
    requires { Loaded manager }
    ensures used { result ≤ length input.now }
    ensures written { Wrote (W.contents writer.old) (W.contents writer.new) (rows_text (audit_rows manager (lines_of true input.now))) (0 < result) }
{
    let table = table_of(manager, input);
    write_rows(writer, manager, table, input, out)
}

// A plan that cannot be read, or jobs: whether it could be written is not asked.
fn unreadable<W: Write>(writer: &mut W) -> usize
    ensures result_value { result ≡ 0 }
    ensures written { Wrote (W.contents writer.old) (W.contents writer.new) question_line ⊥ }
{
    let _ = write_all(writer, &question_text());
    0
}

// Reads the jobs, all of them.
fn audit_jobs<R: Read, W: Write>(
    reader: &mut R,
    writer: &mut W,
    manager: Manager,
    out: &mut [u8],
) -> usize
    requires { Loaded manager }
    ensures used { result ≤ 262144 }
    ensures written { 0 < result → IfSome (R.remaining reader.old) (λ jobs. Appends (W.contents writer.old) (W.contents writer.new) (rows_text (audit_rows manager (lines_of true jobs)))) }
{
    // one byte more than may come, so that more is seen
    let mut input = [0u8; 262144];
    match streams::read_to_end(reader, &mut input) {
        Ok(n) => write_audit(writer, manager, &input[..n], out),
        Err(_) => unreadable(writer),
    }
}

// A plan is loaded first: the jobs of one that is refused are not read.
fn audit_plan<R: Read, W: Write>(reader: &mut R, writer: &mut W, plan: &[u8]) -> usize
    ensures used { result ≤ 262144 }
    ensures accepted { 0 < result → Loaded (loaded_manager plan.now) }
    ensures written { 0 < result → IfSome (R.remaining reader.old) (λ jobs. Appends (W.contents writer.old) (W.contents writer.new) (rows_text (audit_rows (loaded_manager plan.now) (lines_of true jobs)))) }
{
    let mut out = [0u8; 65536];
    match session::open(plan, &mut out) {
        Ok(opened) => audit_jobs(reader, writer, opened.manager, &mut out),
        Err(closed) => {
            let _ = write_all(writer, &out[..closed.written]);
            0
        }
    }
}

// Runs the audit, and answers how many bytes of the jobs were audited. What plan.bin holds is decided outside, and what the jobs are and what
// can be written; a reader and a writer that say their bytes, as those over memory do, get the audit of these jobs, whole, where bytes were audited.
pub fn run<F: Files, R: Read, W: Write>(files: &F, reader: &mut R, writer: &mut W) -> usize
    ensures used { result ≤ 262144 }
    ensures written { 0 < result → (plan : List ℕ) × Loaded (loaded_manager plan) × IfSome (R.remaining reader.old) (λ jobs. Appends (W.contents writer.old) (W.contents writer.new) (rows_text (audit_rows (loaded_manager plan) (lines_of true jobs)))) }
{
    // one byte more than a plan may have, so that a longer one is seen
    let mut plan = [0u8; 4097];
    match streams::read_file(files, "plan.bin", &mut plan) {
        Ok(n) => audit_plan(reader, writer, &plan[..n]),
        Err(_) => unreadable(writer),
    }
}
