// Text into a lent buffer. What does not fit is not written.
#![tactic(auto)]

ghost use Rattle.std.specs.Prelude.{◌≡◌, ◌≤◌, length, take};
ghost use Rattle.buffer.specs.Pages.{Put};
ghost use Rattle.number.specs.Decimal.{decimal_text};

use itoa::Buffer;

// A lent buffer, and the place in it where the next text goes.
#[derive(Drop)]
pub struct Page<'a> {
    pub buffer: &'a mut [u8],
    pub place: usize,
}

impl<'a> Page<'a> {
    // A page that begins at the buffer's front.
    pub fn new(buffer: &'a mut [u8]) -> Page<'a>
        ensures same_reference { result.buffer.ghost_name ≡ buffer.entry.ghost_name }
        ensures held { result.buffer.now ≡ buffer.old }
        ensures place { result.place ≡ 0 }
    {
        Page { buffer, place: 0 }
    }

    // Writes a text, where it fits.
    #[tactic(auto, unfolding(crate::specs::Buffers::written, crate::specs::Buffers::place_after))]
    pub fn write(&mut self, text: &[u8])
        ensures { Put self.old self.new text.now }
    {
        if self.buffer.len() < self.place || self.buffer.len() - self.place < text.len() {
            return;
        }
        let end = self.place + text.len();
        self.buffer[self.place..end].copy_from_slice(text);
        self.place = end;
    }

    // Writes a number in decimal.
    #[tactic(auto, using(crate::proofs::DecimalLaws::decimal_is))]
    pub fn write_number(&mut self, number: u64)
        ensures { Put self.old self.new (decimal_text number) }
    {
        let mut digits = Buffer::new();
        self.write(digits.format(number).as_bytes());
    }

    // What is written, where the page began at the front.
    pub fn text(&self) -> &[u8]
        requires { self.now.place ≤ length self.now.buffer.now }
        ensures { result.now ≡ take self.now.place self.now.buffer.now }
    {
        &self.buffer[..self.place]
    }
}
