// Bytes and numbers appended to a lent buffer. Where it is full, bytes are left out.
ghost use Rattle.std.specs.Prelude.{◌≡◌, [], ◌∷◌, take};
ghost use Rattle.pages.specs.Page.{page};
ghost use Rattle.pages.specs.Added.{written, Added};
ghost use Rattle.pages.specs.Decimal.{digits as digits_of, decimal as decimal_of};

use crate::number::Number;

// A lent buffer, and how many of its bytes are in use.
#[derive(Drop)]
pub struct Page<'a> {
    bytes: &'a mut [u8],
    used: usize,
}

impl<'a> Page<'a> {
    // The buffer, whose first `used` bytes stay.
    pub fn on(bytes: &'a mut [u8], used: usize) -> Page<'a>
        ensures lent { result.bytes.ghost_name ≡ bytes.entry.ghost_name }
        ensures now { written result ≡ page used bytes.old }
    {
        Page { bytes, used }
    }

    pub fn used(&self) -> usize
        ensures { result ≡ (written self.now).used }
    {
        self.used
    }

    // The bytes that are in use.
    pub fn text(&self) -> &[u8]
        ensures { result.now ≡ take self.now.used self.now.bytes.now }
    {
        if self.bytes.len() < self.used {
            &self.bytes[..]
        } else {
            &self.bytes[..self.used]
        }
    }

    pub fn put(&mut self, b: u8)
        ensures { Added self.old (b ∷ []) self.new }
    {
        if self.used < self.bytes.len() {
            self.bytes[self.used] = b;
            self.used += 1;
        }
    }

    pub fn put_all(&mut self, bytes: &[u8])
        ensures { Added self.old bytes.now self.new }
    {
        let mut used = self.used;
        for b in bytes {
            if used < self.bytes.len() {
                self.bytes[used] = *b;
                used += 1;
            }
        }
        self.used = used;
    }

    // The decimal digits of n, which are made from the last to the first. A loop and a count of its own: each byte through `put`, and a call for
    // each digit, took a third more instructions.
    pub fn digits(&mut self, n: u64)
        ensures { Added self.old (digits_of n) self.new }
    {
        let mut ds = [0u8; 20];
        let mut at = 19;
        let mut left = n;
        while 10 <= left {
            ds[at] = b'0' + (left % 10) as u8;
            left /= 10;
            at -= 1;
        }
        ds[at] = b'0' + left as u8;
        self.put_all(&ds[at..]);
    }

    // A whole number, with a minus before a negative one. Written out and no `Display`: the contract states the bytes.
    pub fn decimal<T: Number>(&mut self, x: T)
        ensures { Added self.old (decimal_of (T.value x)) self.new }
    {
        let z = x.value();
        if z < 0 {
            self.put(b'-');
        }
        self.digits(z.unsigned_abs());
    }
}
