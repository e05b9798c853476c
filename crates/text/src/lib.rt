// Lines of numbers, written into a lent buffer. What does not fit is left out: nothing is written past the end.
#![tactic(auto)]

ghost use Rattle.std.specs.Prelude.{◌≡◌, [], ◌∷◌};
ghost use Rattle.text.specs.Text.{ended, last, lead, digits, row, lettered};
ghost use Rattle.text.specs.Wrote.{Wrote};

// A lent buffer, and the position where the next byte goes.
#[derive(Drop)]
pub struct Page<'a> {
    pub out: &'a mut [u8],
    pub at: usize,
}

impl Page<'_> {
    // One byte. By index: the library does not say what stands in a slice after a write through `get_mut`.
    fn byte(&mut self, b: u8)
        ensures { Wrote self.old (b ∷ []) self.new }
    {
        if self.at < self.out.len() {
            self.out[self.at] = b;
            self.at += 1;
        }
    }

    // The last digit of x.
    fn last(&mut self, x: u16)
        ensures { Wrote self.old (last x) self.new }
    {
        self.byte(b'0' + (x % 10) as u8);
    }

    // The last digit of x, and nothing for 0.
    fn lead(&mut self, x: u16)
        ensures { Wrote self.old (lead x) self.new }
    {
        if x != 0 {
            self.last(x);
        }
    }

    // A number in decimal. Most have one digit, and are not divided. A line for each digit, as `digits` has it: a loop over the divisors
    // would want an invariant of its own.
    fn number(&mut self, x: u16)
        ensures { Wrote self.old (digits x) self.new }
    {
        if x < 10 {
            return self.last(x);
        }
        self.lead(x / 10000);
        self.lead(x / 1000);
        self.lead(x / 100);
        self.lead(x / 10);
        self.last(x);
    }

    // A line of numbers. Its position is in a page of its own: behind `self` it would be read and stored again at each byte.
    pub fn row(&mut self, xs: &[u16])
        ensures { Wrote self.old (row xs.now) self.new }
    {
        let mut page = Page {
            out: &mut *self.out,
            at: self.at,
        };
        for (i, x) in xs.iter().enumerate() {
            page.number(*x);
            page.byte(ended(xs.len(), i));
        }
        self.at = page.at;
    }

    // A letter and a line of numbers.
    pub fn lettered(&mut self, letter: u8, xs: &[u16])
        ensures { Wrote self.old (lettered letter xs.now) self.new }
    {
        self.byte(letter);
        self.byte(b' ');
        self.row(xs);
    }
}

// What comes after number i of n: a space, or the end of the line.
fn ended(n: usize, i: usize) -> u8
    ensures { result ≡ ended n i }
{
    if i < n && i + 1 < n { b' ' } else { b'\n' }
}
