// Bytes and decimal numbers, written one after another into a lent buffer.
ghost use Rattle.std.specs.Prelude.{◌∷◌, [], ◌+◌, ◌<◌, ◌≤◌, length};
ghost use Rattle.listing_text.specs.Text.{decimal, next, most_number, number_bytes, next_bytes};
ghost use Rattle.listing_text.specs.Wrote.{Added};

// A text in the front part of a buffer, and where it ends. It is no `fmt::Write`: of an `Err` of `write!` no clause says anything, and a listing
// promises each byte.
#[derive(Drop)]
pub struct Page<'a> {
    pub out: &'a mut [u8],
    pub end: usize,
}

impl Page<'_> {
    // One byte.
    pub fn byte(&mut self, b: u8)
        requires { self.old.end < length self.old.out.now }
        ensures { Added 1 self.old (b ∷ []) self.new }
    {
        self.out[self.end] = b;
        self.end += 1;
    }

    // The bytes of a word.
    pub fn word(&mut self, word: &[u8])
        requires { self.old.end + length word.now ≤ length self.old.out.now }
        ensures { Added (length word.now) self.old word.now self.new }
    {
        let end = self.end + word.len();
        self.out[self.end..end].copy_from_slice(word);
        self.end = end;
    }

    // A number in decimal; std writes one only through `fmt`, or to the heap. `as`: a digit fits a byte.
    pub fn number(&mut self, n: u32)
        requires { (n < most_number) × (self.old.end + number_bytes ≤ length self.old.out.now) }
        ensures { Added number_bytes self.old (decimal n) self.new }
    {
        if n < 10 {
            self.byte(b'0' + n as u8);
            return;
        }
        self.number(n / 10);
        self.byte(b'0' + (n % 10) as u8);
    }

    // A space and a number.
    pub fn next(&mut self, n: u32)
        requires { (n < most_number) × (self.old.end + next_bytes ≤ length self.old.out.now) }
        ensures { Added next_bytes self.old (next n) self.new }
    {
        self.byte(b' ');
        self.number(n);
    }
}
