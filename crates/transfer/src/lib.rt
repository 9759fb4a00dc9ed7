// What drivers do with parts of lent memory: the chip image and the job store.
#![tactic(auto)]

ghost use Rattle.std.specs.Prelude.{◌≡◌, ◌+◌, ◌≤◌, eqb, length, get_or, replicate};
ghost use Rattle.std.specs.Int.Bits.{bit_and};
ghost use Rattle.arith.specs.Bounded.{every};
ghost use Rattle.arith.specs.Listed.{listed};
ghost use Rattle.arith.specs.Parts.{part, put};
ghost use Rattle.transfer.specs.PartLaws.{anded};

// stays: `copy_from_slice` is a call of memmove, a name that the archives for C would need from outside.
fn copy_all(dst: &mut [u8], src: &[u8])
    requires { length src.now ≡ length dst.old }
    ensures { dst.new ≡ src.now }
{
    for i in 0..src.len() {
        dst[i] = src[i];
    }
}

// Each byte of dst becomes the bits that it has in common with that of src, as far as both go.
// stays: of a slice written through `iter_mut().zip(..)` the proof of `anded` knows no byte, so that the index is written here.
fn and_all(dst: &mut [u8], src: &[u8])
    ensures { dst.new ≡ anded dst.old src.now }
{
    let n = dst.len().min(src.len());
    for i in 0..n {
        dst[i] &= src[i];
    }
}

// The part of the job store that a driver gets: n bytes from `from` on, never a copy.
pub fn window_part<'a>(store: &'a [u8], from: usize, n: usize) -> &'a [u8]
    requires { from + n ≤ length store.now }
    ensures { (result.now ≡ part from n store.now) × (length result.now ≡ n) }
{
    &store[from..from + n]
}

// All of src goes to dst at p: for a write the window's part to the image, for a read the image's part to the window.
pub fn write_part(dst: &mut [u8], p: usize, src: &[u8])
    requires { p + length src.now ≤ length dst.old }
    ensures { dst.new ≡ put p src.now dst.old }
{
    copy_all(&mut dst[p..p + src.len()], src);
}

// All of src is and-ed into dst at p.
pub fn and_part(dst: &mut [u8], p: usize, src: &[u8])
    requires { p + length src.now ≤ length dst.old }
    ensures { dst.new ≡ put p (listed (λ i. bit_and (get_or dst.old (p + i) 0) (get_or src.now i 0)) 0 (length src.now)) dst.old }
{
    and_all(&mut dst[p..p + src.len()], src);
}

// n bytes of the image at p go to the window at q.
pub fn read_part(store: &mut [u8], q: usize, image: &[u8], p: usize, n: usize)
    requires { (q + n ≤ length store.old) × (p + n ≤ length image.now) }
    ensures { store.new ≡ put q (part p n image.now) store.old }
{
    write_part(store, q, &image[p..p + n]);
}

pub fn erase_part(image: &mut [u8], p: usize, n: usize)
    requires { p + n ≤ length image.old }
    ensures { image.new ≡ put p (replicate n 255) image.old }
{
    image[p..p + n].fill(255);
}

// Are the bytes of the image at p those of the window's part?
pub fn same_part(image: &[u8], p: usize, window: &[u8]) -> bool
    requires { p + length window.now ≤ length image.now }
    ensures { result ≡ every (λ i. eqb (get_or image.now (p + i) 0) (get_or window.now i 0)) (length window.now) }
{
    &image[p..p + window.len()] == window
}

// Are the n bytes of the image at p all 255?
pub fn blank_part(image: &[u8], p: usize, n: usize) -> bool
    requires { p + n ≤ length image.now }
    ensures { result ≡ every (λ i. eqb (get_or image.now (p + i) 0) 255) n }
{
    image[p..p + n].iter().all(|byte| *byte == 255)
}
