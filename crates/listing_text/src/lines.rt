// The lines of a listing. Each asks that there is room for a line: a fact of the page at that call, and no invariant of pages.
ghost use Rattle.std.specs.Prelude.{Bool, ◌+◌, ◌<◌, ◌≤◌, length};
ghost use Rattle.listing_text.specs.Text.{most_number, row_line, head_line, sums_line, me_line, verdict, refused_line, line_bytes};
ghost use Rattle.listing_text.specs.Wrote.{Added};

use crate::page::Page;

impl Page<'_> {
    // A letter and four numbers: a `t` line or an `l` line.
    pub fn row(&mut self, letter: u8, a: u32, b: u32, c: u32, d: u32)
        requires { (a < most_number) × (b < most_number) × (c < most_number) × (d < most_number) × (self.old.end + line_bytes ≤ length self.old.out.now) }
        ensures { Added line_bytes self.old (row_line letter a b c d) self.new }
    {
        self.byte(letter);
        self.next(a);
        self.next(b);
        self.next(c);
        self.next(d);
        self.byte(b'\n');
    }

    // The first line: k and L.
    pub fn head(&mut self, k: u32, bits: u32)
        requires { (k < most_number) × (bits < most_number) × (self.old.end + line_bytes ≤ length self.old.out.now) }
        ensures { Added line_bytes self.old (head_line k bits) self.new }
    {
        self.word(b"k");
        self.next(k);
        self.word(b" L");
        self.next(bits);
        self.byte(b'\n');
    }

    // The sums of the gaps.
    pub fn sums(&mut self, a: u32, b: u32)
        requires { (a < most_number) × (b < most_number) × (self.old.end + line_bytes ≤ length self.old.out.now) }
        ensures { Added line_bytes self.old (sums_line a b) self.new }
    {
        self.word(b"sum");
        self.next(a);
        self.next(b);
        self.byte(b'\n');
    }

    // The last word.
    fn verdict(&mut self, me: bool)
        requires { self.old.end + 3 ≤ length self.old.out.now }
        ensures { Added 3 self.old (verdict me) self.new }
    {
        if me {
            self.word(b"yes");
        } else {
            self.word(b"no");
        }
    }

    // The last line.
    pub fn me(&mut self, me: bool)
        requires { self.old.end + line_bytes ≤ length self.old.out.now }
        ensures { Added line_bytes self.old (me_line me) self.new }
    {
        self.word(b"ME ");
        self.verdict(me);
        self.byte(b'\n');
    }

    // The line of a refusal.
    pub fn refused(&mut self, refusal: u32)
        requires { (refusal < most_number) × (self.old.end + line_bytes ≤ length self.old.out.now) }
        ensures { Added line_bytes self.old (refused_line refusal) self.new }
    {
        self.word(b"refused");
        self.next(refusal);
        self.byte(b'\n');
    }
}
