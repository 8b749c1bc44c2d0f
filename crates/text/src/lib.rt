// Texts put into a lent output, one behind the other: each public function puts its text behind the last one, or refuses the output
// and writes nothing; `check_parts` only tells whether there is room.
#![tactic(auto)]

ghost use Rattle.std.specs.Prelude.{◌+◌, ◌*◌, ◌≤◌, ◌↔◌, length, IsOk, IsOkUnless};
ghost use Rattle.text.specs.Writes.{Writes};

use refusal::Refusal;

mod hex;
mod numbers;

// A lent output, and the place in it for the next text, any place. What may not change: `Writes` says where a text ends, and callers hand
// that out as the length.
#[derive(Drop)]
pub struct Page<'a> {
    pub out: &'a mut [u8],
    pub end: usize,
}

impl Page<'_> {
    // Refuses so many bytes if there is no room for them.
    fn check_room(&self, len: usize) -> Result<(), Refusal>
        ensures fits { IsOk result ↔ (self.now.end + len ≤ length self.now.out.now) }
        ensures err { IsOkUnless result Refusal.Room }
    {
        // A speed bar: where an output and a text have a known length this is one test, and `checked_sub` of the end was three.
        if len <= self.out.len() && self.end <= self.out.len() - len {
            Ok(())
        } else {
            Err(Refusal::Room)
        }
    }

    // Refuses so many bytes, and so many more for each of some parts, if there is no room for them.
    pub fn check_parts(&self, fixed: usize, each: usize, parts: usize) -> Result<(), Refusal>
        ensures fits { IsOk result ↔ (self.now.end + (fixed + each * parts) ≤ length self.now.out.now) }
        ensures err { IsOkUnless result Refusal.Room }
    {
        self.check_room(each.saturating_mul(parts).saturating_add(fixed))
    }

    // A text as it is.
    pub fn words(&mut self, text: &[u8]) -> Result<(), Refusal>
        ensures { Writes self.old text.now self.new result }
    {
        self.check_room(text.len())?;
        let end = self.end + text.len();
        self.out[self.end..end].copy_from_slice(text);
        self.end = end;
        Ok(())
    }
}
