// A lent buffer, and how many of its bytes are written.
ghost use Rattle.std.specs.Prelude.{◌≡◌, [], ◌∷◌, ◌≤◌, ◌<◌, length};

#[derive(Drop)]
pub struct Page<'a> {
    out: &'a mut [u8],
    end: usize,
    ghost in_bounds: { end ≤ length out.now },
}

impl<'a> Page<'a> {
    ghost use Rattle.texts.specs.Pages.{Prints, room};

    // Nothing is written yet.
    pub fn new(out: &'a mut [u8]) -> Page<'a>
        ensures same_buffer { result.out.ghost_name ≡ out.entry.ghost_name }
        ensures empty { (result.out.now ≡ out.old) × (result.end ≡ 0) }
    {
        Page { out, end: 0 }
    }

    pub fn written(&self) -> usize
        ensures { result ≡ self.now.end }
    {
        self.end
    }

    // How many bytes are free.
    pub fn room(&self) -> usize
        ensures { result ≡ room self.now }
    {
        self.out.len() - self.end
    }

    pub fn push(&mut self, byte: u8)
        requires { 1 ≤ room self.old }
        ensures { Prints 1 self.old self.new (byte ∷ []) }
    {
        self.out[self.end] = byte;
        self.end += 1;
    }

    pub fn push_all(&mut self, bytes: &[u8])
        requires { length bytes.now ≤ room self.old }
        ensures { Prints (length bytes.now) self.old self.new bytes.now }
    {
        let end = self.end + bytes.len();
        self.out[self.end..end].copy_from_slice(bytes);
        self.end = end;
    }
}
