// The bench program: it reads plan.bin in the current directory and plays the session that a reader brings, the standard input.
// Programs over it differ only in the files that they are run on.
//
// What is done with bytes once they are in a buffer is an equation: what the lines of the input leave of manager, image and store, and what is kept of a begun line. Which bytes a read
// brings, and whether a write took its bytes, is for the reader and the writer to say, and those of the system say nothing but counts: each function that reads or writes says at its contract what that leaves open.
#![tactic(auto)]

ghost use Rattle.std.specs.Prelude.{ℕ, true, false, List, [], ◌++◌, ◌≡◌, ◌≤◌, length, take, drop, replicate};
ghost use Rattle.std.specs.Io.KnownBytes.{Consumes};
ghost use Rattle.streams.specs.Moved.{Wrote};
ghost use Rattle.texts.specs.Texts.{question_line};
ghost use Rattle.session.specs.AllLines.{bench_of, after_lines, lines_of, PlayedTo};
ghost use Rattle.bench_run.specs.Input.{TakenInput, TakenWhole};
ghost use Rattle.bench_run.specs.Texts.{bench_text, text_of_lines};
ghost use Rattle.bench_run.specs.Turns.{TookTurn};

use buffers::{first_image, first_store, keep, question_text};
use manager::Manager;
use session::fold::play_lines;
use std::io::{Read, Write};
use std::rt::Files;
use streams::write_all;

// The next manager, how much of the input was used, and whether the answers could be written.
// stays: manager and used are answered where a write failed too, so an Option or a Result would hold both in each of its arms.
#[derive(Clone, Copy)]
struct Answered {
    manager: Manager,
    used: usize,
    is_open: bool,
}

// Plays the lines of the input, and writes what they print whenever the buffer is full and at the end. The writes decide how far it comes: no line is played after one that failed. A front
// of what the played lines print is written, and all of it where none failed. Where none failed, and the buffer has room for an answer, no line is left. What stands in the buffer afterwards is left open.
fn answer_lines<W: Write>(
    writer: &mut W,
    manager: Manager,
    input: &[u8],
    ends: bool,
    image: &mut [u8],
    store: &mut [u8],
    out: &mut [u8],
) -> Answered
    ensures played_to { PlayedTo ends input.now (bench_of manager image.old store.old) (bench_of result.manager image.new store.new) result.used }
    ensures input_value { 338 ≤ length out.old → result.used ≡ 0 → lines_of ends input.now ≡ [] }
    ensures input_value_2 { 338 ≤ length out.old → result.is_open ≡ true → lines_of ends (drop result.used input.now) ≡ [] }
    ensures written { Wrote (W.contents writer.old) (W.contents writer.new) (text_of_lines (lines_of ends (take result.used input.now)) (bench_of manager image.old store.old)) (result.is_open ≡ true) }
{
    let mut next = manager;
    let mut at = 0;
    while at < input.len() {
        let progress = play_lines(next, &input[at..], ends, image, store, out);
        next = progress.manager;
        if progress.used == 0 {
            return Answered {
                manager: next,
                used: at,
                is_open: true,
            };
        }
        at += progress.used;
        if write_all(writer, &out[..progress.written]).is_err() {
            return Answered {
                manager: next,
                used: at,
                is_open: false,
            };
        }
    }
    Answered {
        manager: next,
        used: at,
        is_open: true,
    }
}

// The manager, the length of the begun line in front of the input, and whether there may be more input.
// stays: manager and kept are answered of the last turn too, so an Option or a Result would hold both in each of its arms.
#[derive(Clone, Copy)]
struct Turn {
    manager: Manager,
    kept: usize,
    is_open: bool,
}

// Takes the input that came behind the begun line. Nothing waits to be written when it returns. Where a write failed, it says how far the lines were played; else they were all played, and
// what they print was written, and what is kept is the line that is begun then. The bytes of the input behind what is kept, and those of the buffer, are left open.
fn take_input<W: Write>(
    writer: &mut W,
    manager: Manager,
    input: &mut [u8],
    image: &mut [u8],
    store: &mut [u8],
    out: &mut [u8],
) -> Turn
    ensures taken_input { TakenInput input.old (bench_of manager image.old store.old) (bench_of result.manager image.new store.new) (take result.kept input.new) }
    ensures taken_whole { 338 ≤ length out.old → result.is_open ≡ true → TakenWhole input.old (bench_of manager image.old store.old) (bench_of result.manager image.new store.new) (take result.kept input.new) }
    ensures written { Wrote (W.contents writer.old) (W.contents writer.new) (text_of_lines (lines_of false input.old) (bench_of manager image.old store.old)) ((338 ≤ length out.old) × (result.is_open ≡ true)) }
    ensures kept_bound { (result.kept ≤ 4097) × (result.kept ≤ length input.new) }
{
    let answered = answer_lines(writer, manager, input, false, image, store, out);
    let filled = input.len();
    Turn {
        manager: answered.manager,
        kept: keep(input, answered.used, filled),
        is_open: answered.is_open,
    }
}

// The input has ended: the begun line is a line, and it is played whether or not its answer can be written, of which a front is. Left open are the bytes of the buffer.
fn end_input<W: Write>(
    writer: &mut W,
    manager: Manager,
    line: &[u8],
    image: &mut [u8],
    store: &mut [u8],
    out: &mut [u8],
) -> Turn
    ensures store_after { 338 ≤ length out.old → lines_of false line.now ≡ [] → bench_of result.manager image.new store.new ≡ after_lines (lines_of true line.now) (bench_of manager image.old store.old) }
    ensures written { Wrote (W.contents writer.old) (W.contents writer.new) (text_of_lines (lines_of true line.now) (bench_of manager image.old store.old)) ⊥ }
    ensures kept_value { (result.kept ≡ 0) × (result.is_open ≡ false) }
{
    Turn {
        manager: answer_lines(writer, manager, line, true, image, store, out).manager,
        kept: 0,
        is_open: false,
    }
}

// Reads once, and takes what came, or the end. The reader decides which bytes these are: some piece of what it had left, where it says what that is, and of a reader that does not say it,
// some bytes. What they leave of manager, image, store and input, and what of their text is written, is said of the kept line and that piece.
fn take_turn<R: Read, W: Write>(
    reader: &mut R,
    writer: &mut W,
    manager: Manager,
    kept: usize,
    input: &mut [u8],
    image: &mut [u8],
    store: &mut [u8],
    out: &mut [u8],
) -> Turn
    requires { (kept ≤ 4097) × (4097 ≤ length input.old) }
    ensures kept_bound { result.kept ≤ 4097 }
    ensures turn { 338 ≤ length out.old → (piece : List ℕ) × Consumes (R.remaining reader.old) (R.remaining reader.new) piece × TookTurn (take kept input.old ++ piece) (bench_of manager image.old store.old) (bench_of result.manager image.new store.new) (W.contents writer.old) (W.contents writer.new) result.is_open (take result.kept input.new) }
{
    // a read that fails is the end too
    let n = streams::read_some(reader, &mut input[kept..]).unwrap_or(0);
    if n == 0 {
        return end_input(writer, manager, &input[..kept], image, store, out);
    }
    take_input(writer, manager, &mut input[..kept + n], image, store, out)
}

// All of the input, from the bench's first image and store. Nothing says that it ends, so the turns are counted, from a number that no run uses up. The reads decide what is played:
// a front of what the reader had left. What is written is a front of what the lines of that print.
fn serve<R: Read, W: Write>(
    reader: &mut R,
    writer: &mut W,
    manager: Manager,
    input: &mut [u8],
    image: &mut [u8],
    store: &mut [u8],
    out: &mut [u8],
) -> usize
    requires { (4097 ≤ length input.old) × (image.old ≡ replicate (length image.old) 255) × (store.old ≡ replicate 65536 0) }
    ensures kept_bound { result ≤ 4097 }
    ensures served { 338 ≤ length out.old → (came : List ℕ) × Consumes (R.remaining reader.old) (R.remaining reader.new) came × Wrote (W.contents writer.old) (W.contents writer.new) (text_of_lines (lines_of true came) (bench_of manager image.old store.old)) ⊥ }
{
    let mut next = manager;
    let mut kept = 0;
    for _ in 0..u64::MAX {
        let turn = take_turn(reader, writer, next, kept, input, image, store, out);
        next = turn.manager;
        kept = turn.kept;
        if !turn.is_open {
            return kept;
        }
    }
    kept
}

// The session over a plan. The reads decide what is played, and the writes how much of its text is written.
fn play_session<R: Read, W: Write>(reader: &mut R, writer: &mut W, plan: &[u8]) -> usize
    ensures kept_bound { result ≤ 4097 }
    ensures session { (came : List ℕ) × Consumes (R.remaining reader.old) (R.remaining reader.new) came × Wrote (W.contents writer.old) (W.contents writer.new) (bench_text plan.now came) ⊥ }
{
    let mut out = [0u8; 65536];
    match session::open(plan, &mut out) {
        Ok(opened) => {
            let mut image = first_image();
            let mut store = first_store();
            // a begun line, and what one read brings behind it
            let mut input = [0u8; 69633];
            serve(
                reader,
                writer,
                opened.manager,
                &mut input,
                &mut image[..opened.image_length],
                &mut store,
                &mut out,
            )
        }
        Err(closed) => {
            let _ = write_all(writer, &out[..closed.written]);
            0
        }
    }
}

// "a plan above that sum, over 4,096 bytes or unreadable prints only '?'": whether it could be written is not asked.
fn unreadable<W: Write>(writer: &mut W) -> usize
    ensures result_value { result ≡ 0 }
    ensures written { Wrote (W.contents writer.old) (W.contents writer.new) question_line ⊥ }
{
    let _ = write_all(writer, &question_text());
    0
}

// Runs the session, and answers how many bytes of a begun line were not taken. What plan.bin holds, what the input is and what can be written is decided outside: it is the
// session over some plan, one over 4,096 bytes where it cannot be read, and over some bytes that came, of whose text a front is written.
pub fn run<F: Files, R: Read, W: Write>(files: &F, reader: &mut R, writer: &mut W) -> usize
    ensures kept_bound { result ≤ 4097 }
    ensures session { (plan came : List ℕ) × Consumes (R.remaining reader.old) (R.remaining reader.new) came × Wrote (W.contents writer.old) (W.contents writer.new) (bench_text plan came) ⊥ }
{
    // one byte more than a plan may have, so that a longer one is seen
    let mut plan = [0u8; 4097];
    match streams::read_file(files, "plan.bin", &mut plan) {
        Ok(n) => play_session(reader, writer, &plan[..n]),
        Err(_) => unreadable(writer),
    }
}
