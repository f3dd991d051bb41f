// Text written into a run of bytes, in ASCII.
ghost use Rattle.std.specs.Prelude.{◌≡◌, ◌+◌, ◌≤◌, ◌<◌, length};
ghost use Rattle.line.specs.Text.{decimal, decimal_length, digits, hex};
ghost use Rattle.line.specs.Text as text;
ghost use Rattle.line.specs.Writing.{Grows, HasRoom};

// A run with a text at its start, of so many bytes. std's writers over a slice don't serve: no clause says which bytes `write_all` and `write!`
// leave there, and each answers a Result.
#[derive(Drop)]
pub struct Text<'a> {
    pub bytes: &'a mut [u8],
    pub length: usize,
}

impl Text<'_> {
    // Puts a text behind it.
    pub fn put(&mut self, text: &[u8])
        requires { HasRoom self.old (length text.now) }
        ensures same { self.new.bytes.ghost_name ≡ self.old.bytes.ghost_name }
        ensures grows { Grows self.old self.new text.now }
    {
        let to = self.length + text.len();
        self.bytes[self.length..to].copy_from_slice(text);
        self.length = to;
    }

    // Puts a number in decimal.
    pub fn put_decimal(&mut self, n: u64)
        requires { HasRoom self.old (decimal_length n) }
        ensures same { self.new.bytes.ghost_name ≡ self.old.bytes.ghost_name }
        ensures grows { Grows self.old self.new (decimal n) }
    {
        let to = self.length + decimal_length(n);
        fill_digits(&mut self.bytes[self.length..to], 10, n);
        self.length = to;
    }

    // Puts eight hexadecimal digits.
    pub(crate) fn put_hex(&mut self, n: u32)
        requires { HasRoom self.old 8 }
        ensures same { self.new.bytes.ghost_name ≡ self.old.bytes.ghost_name }
        ensures grows { Grows self.old self.new (hex n) }
    {
        let to = self.length + 8;
        fill_digits(&mut self.bytes[self.length..to], 16, n as u64);
        self.length = to;
    }
}

// 0 to 9, then A to F.
fn digit(d: u64) -> u8
    requires { d < 16 }
    ensures { result ≡ text.digit d }
{
    if d < 10 { 48 + d as u8 } else { 55 + d as u8 }
}

// Fills a part with as many digits of a number as it has places.
fn fill_digits(part: &mut [u8], base: u64, n: u64)
    requires { (0 < base) × (base ≤ 16) }
    ensures { part.new ≡ digits base (length part.old) n }
{
    let mut rest = n;
    for place in (0..part.len()).rev() {
        part[place] = digit(rest % base);
        rest /= base;
    }
}

// How many decimal digits a number has. It divides as its definition does; std's `checked_ilog10` is told by powers of ten.
fn decimal_length(n: u64) -> usize
    ensures { (result ≡ decimal_length n) × (result ≤ 20) }
{
    let mut rest = n;
    let mut count = 1;
    while 10 <= rest {
        rest /= 10;
        count += 1;
    }
    count
}
