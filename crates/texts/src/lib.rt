// What a session prints (document 01, "A printed session"), written behind what stands on a page.
#![tactic(auto)]

ghost use Rattle.std.specs.Prelude.{[], ◌∷◌, ◌≤◌, length};
ghost use Rattle.texts.specs.Pages.{Prints, room};
ghost use Rattle.texts.specs.Texts.{behind, decimal, number_line, question_line, info_line, free_text, locked_text, request_text};

pub mod page;

use crate::page::Page;
use memory::JobResult;
use state::Waits;

impl<'a> Page<'a> {
    // The digits of a number, the highest first.
    fn digits(&mut self, n: u64)
        requires { length (decimal n) ≤ room self.old }
        ensures { Prints (length (decimal n)) self.old self.new (decimal n) }
    {
        if n < 10 {
            self.push(b'0' + n as u8);
        } else {
            self.digits(n / 10);
            self.push(b'0' + (n % 10) as u8);
        }
    }

    // A number takes at most 20 bytes.
    pub fn number(&mut self, n: u64)
        requires { 20 ≤ room self.old }
        ensures { Prints 20 self.old self.new (decimal n) }
    {
        self.digits(n);
    }

    // A number behind a character.
    fn number_behind(&mut self, character: u8, n: u64)
        requires { 21 ≤ room self.old }
        ensures { Prints 21 self.old self.new (character ∷ decimal n) }
    {
        self.push(character);
        self.number(n);
    }

    #[tactic(auto, unfolding(crate::specs::Texts::number_line))]
    pub fn number_line(&mut self, n: u64)
        requires { 21 ≤ room self.old }
        ensures { Prints 21 self.old self.new (number_line n) }
    {
        self.number(n);
        self.push(b'\n');
    }

    pub fn question_line(&mut self)
        requires { 2 ≤ room self.old }
        ensures { Prints 2 self.old self.new question_line }
    {
        // byte by byte: a copy of two takes longer
        self.push(b'?');
        self.push(b'\n');
    }

    #[tactic(auto, unfolding(crate::specs::Texts::behind))]
    fn waits(&mut self, waits: Waits)
        requires { 84 ≤ room self.old }
        ensures { Prints 84 self.old self.new (behind 32 (waits.own ∷ waits.above ∷ waits.below ∷ waits.locked ∷ [])) }
    {
        self.number_behind(b' ', waits.own as u64);
        self.number_behind(b' ', waits.above as u64);
        self.number_behind(b' ', waits.below as u64);
        self.number_behind(b' ', waits.locked as u64);
    }

    #[tactic(auto, unfolding(crate::specs::Texts::info_line))]
    pub fn info_line(&mut self, res: JobResult, processed: u32, waits: Waits)
        requires { 126 ≤ room self.old }
        ensures { Prints 126 self.old self.new (info_line res.0 processed waits.own waits.above waits.below waits.locked) }
    {
        self.number(res.0 as u64);
        self.number_behind(b' ', processed as u64);
        self.waits(waits);
        self.push(b'\n');
    }

    // What a device shows in the line of a round.
    pub fn free_text(&mut self)
        requires { 2 ≤ room self.old }
        ensures { Prints 2 self.old self.new free_text }
    {
        self.push_all(b" -");
    }

    pub fn locked_text(&mut self)
        requires { 2 ≤ room self.old }
        ensures { Prints 2 self.old self.new locked_text }
    {
        self.push_all(b" L");
    }

    #[tactic(auto, unfolding(crate::specs::Texts::request_text))]
    pub fn request_text(&mut self, area: u64, kind: u64, physical: u64, count: u64)
        requires { 84 ≤ room self.old }
        ensures { Prints 84 self.old self.new (request_text area kind physical count) }
    {
        self.number_behind(b' ', area);
        self.number_behind(b':', kind);
        self.number_behind(b':', physical);
        self.number_behind(b':', count);
    }
}
