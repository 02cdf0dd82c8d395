// A buffer that is written from a place on.
ghost use Rattle.std.specs.Prelude.{◌≡◌, List, ℕ, [], ◌∷◌, ◌+◌, ◌*◌, ◌^◌, ◌<◌, ◌≤◌, length};
ghost use Rattle.octets.specs.Fields.{be16, be32};
ghost use Rattle.octets.specs.Decimal.{decimal};
ghost use Rattle.octets.specs.Hexadecimal.{hex_octet};
ghost use Rattle.octets.specs.Lists.{each};
ghost use Rattle.octets.specs.Writes.{Writes};

use crate::{put, put_all, put_be16, put_be32, put_decimal, put_hex};

// A lent buffer, and the place where its next octet goes. An octet that has no room there is counted and not written.
#[derive(Drop)]
pub struct Writer<'a> {
    out: &'a mut [u8],
    to: usize,
}

impl<'a> Writer<'a> {
    // A writer of the buffer from a place on.
    pub fn at(out: &'a mut [u8], to: usize) -> Writer<'a>
        ensures same { result.out.ghost_name ≡ out.entry.ghost_name }
        ensures buffer { result.out.now ≡ out.old }
        ensures place { result.to ≡ to }
    {
        Writer { out, to }
    }

    // The place of the next octet.
    pub fn place(&self) -> usize
        ensures { result ≡ self.now.to }
    {
        self.to
    }

    // The number of the buffer's octets.
    pub fn room(&self) -> usize
        ensures { result ≡ length self.now.out.now }
    {
        self.out.len()
    }

    // Counts n octets for which there is no room.
    pub fn skip(&mut self, n: usize)
        requires { (length self.old.out.now ≤ self.old.to) × (self.old.to + n < 2 ^ 40) }
        ensures { (xs : List ℕ) → length xs ≡ n → Writes self.old xs self.new }
    {
        self.to += n;
    }

    // Writes an octet.
    pub fn put(&mut self, b: u8)
        requires { self.old.to < 2 ^ 40 }
        ensures { Writes self.old (b ∷ []) self.new }
    {
        self.to = put(b, self.out, self.to);
    }

    // Writes octets.
    pub fn put_all(&mut self, src: &[u8])
        requires { self.old.to + length src.now < 2 ^ 40 }
        ensures { Writes self.old src.now self.new }
    {
        self.to = put_all(src, self.out, self.to);
    }

    // Writes a number in decimal.
    pub fn put_decimal(&mut self, n: u32)
        requires { self.old.to < 2 ^ 39 }
        ensures wrote { Writes self.old (decimal n) self.new }
        ensures upper_bound { self.new.to ≤ self.old.to + 10 }
    {
        self.to = put_decimal(n, self.out, self.to);
    }

    // Writes each octet as two hexadecimal digits.
    pub fn put_hex(&mut self, src: &[u8])
        requires { self.old.to + 2 * length src.now < 2 ^ 40 }
        ensures wrote { Writes self.old (each hex_octet src.now) self.new }
        ensures value { self.new.to ≡ self.old.to + 2 * length src.now }
    {
        self.to = put_hex(src, self.out, self.to);
    }

    // Writes a number in two octets, the high one first.
    pub fn put_be16(&mut self, n: u32)
        requires { (self.old.to + 1 < 2 ^ 40) × (n < 65536) }
        ensures { Writes self.old (be16 n) self.new }
    {
        self.to = put_be16(n, self.out, self.to);
    }

    // Writes a number in four octets, the high ones first.
    pub fn put_be32(&mut self, n: u32)
        requires { self.old.to < 2 ^ 39 }
        ensures { Writes self.old (be32 n) self.new }
    {
        self.to = put_be32(n, self.out, self.to);
    }
}
