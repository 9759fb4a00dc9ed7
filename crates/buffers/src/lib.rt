// The bytes that the bench program starts from, and what it keeps of them between two reads.
#![tactic(auto)]

ghost use Rattle.std.specs.Prelude.{◌++◌, ◌≡◌, ◌-◌, ◌≤◌, min, length, take, drop, replicate};
ghost use Rattle.texts.specs.Texts.{question_line};

// "image all 255": the largest; a session takes as much of it as its devices have.
pub fn first_image() -> [u8; 65536]
    ensures { result ≡ replicate 65536 255 }
{
    [255; 65536]
}

// "store 65,536 zeros"
pub fn first_store() -> [u8; 65536]
    ensures { result ≡ replicate 65536 0 }
{
    [0; 65536]
}

// The text of a plan that cannot be read.
pub fn question_text() -> [u8; 2]
    ensures { result ≡ question_line }
{
    *b"?\n"
}

// Moves the begun line to the front. Of a line over 4,096 bytes, 4,097 are enough to know it.
pub fn keep(input: &mut [u8], from: usize, filled: usize) -> usize
    requires { (from ≤ filled) × (filled ≤ length input.old) }
    ensures value { result ≡ min 4097 (filled - from) }
    ensures input_after { input.new ≡ take result (drop from input.old) ++ drop result input.old }
{
    let kept = (filled - from).min(4097);
    input.copy_within(from..from + kept, 0);
    kept
}
