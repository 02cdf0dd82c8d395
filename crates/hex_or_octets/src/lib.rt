// Octets to be read: as they are, or as the hexadecimal digits of them in a text. The definitions are in specs/.
#![tactic(auto)]

ghost use Rattle.std.specs.Prelude.{◌≡◌, List, ℕ, ◌+◌, ◌*◌, ◌<◌, ◌≤◌, length, get_or, take, drop};
ghost use Rattle.std.proofs.Props.{props};
ghost use Rattle.std.specs.Iterator.{YieldsFirst, item_count};
ghost use Rattle.octets.specs.Lists.{digit_value, paired};
ghost use Rattle.octets.specs.Fields.{be16_at};
ghost use Rattle.hex_or_octets.specs.Digits.{Hexes, Octets-prop};

// Octets, in the way that they are stored.
pub trait Octets: Copy {
    ghost octets: { Self → List ℕ };

    // The number of octets.
    fn count(self) -> usize
        ensures { result ≡ length (octets self) };

    // The i-th octet.
    fn octet(self, i: usize) -> u8
        requires { i < length (octets self) }
        ensures { result ≡ get_or (octets self) i 0 };

    // The first n octets.
    fn first(self, n: usize) -> Self
        requires { n ≤ length (octets self) }
        ensures { octets result ≡ take n (octets self) };

    // The octets after the first n.
    fn after(self, n: usize) -> Self
        requires { n ≤ length (octets self) }
        ensures { octets result ≡ drop n (octets self) };

    // The number in the two octets at `at`, the high one first.
    final fn be16_at(self, at: usize) -> u32
        requires { at + 2 ≤ length (octets self) }
        ensures value { result ≡ be16_at (octets self) at }
        ensures upper_bound { result < 65536 }
    {
        let rest = self.after(at);
        octets::be16_at(&[rest.octet(0), rest.octet(1)], 0)
    }

    // The octets one by one.
    final fn iter(self) -> Iter<Self>
        ensures { result.rest ≡ self }
    {
        Iter { rest: self }
    }
}

// The octets that are left of some.
#[derive(Clone, Copy)]
pub struct Iter<O> {
    pub rest: O,
}

impl<O: Octets> Iterator for Iter<O> {
    type Item = u8;

    ghost next_gives = { YieldsFirst (λ s. O.octets s.rest) };

    ghost remaining = { item_count (λ s. O.octets s.rest) };

    fn next(&mut self) -> Option<u8> {
        if self.rest.count() == 0 {
            return None;
        }
        let first = self.rest.octet(0);
        self.rest = self.rest.after(1);
        Some(first)
    }
}

impl<'a> Octets for &'a [u8] {
    ghost octets = { λ s. s.now };

    fn count(self) -> usize {
        self.len()
    }

    fn octet(self, i: usize) -> u8 {
        self[i]
    }

    fn first(self, n: usize) -> &'a [u8] {
        &self[..n]
    }

    fn after(self, n: usize) -> &'a [u8] {
        &self[n..]
    }
}

// The number of octets that digits spell, two each; an odd one is left.
#[tactic(auto, using(crate::specs::Digits::paired_half))]
pub fn count(digits: &[u8]) -> usize
    ensures value { result ≡ length (paired digits.now) }
    ensures upper_bound { result ≤ length digits.now }
{
    digits.len() / 2
}

// Hexadecimal digits, two an octet, in capitals.
#[derive(Clone, Copy)]
pub struct HexDigits<'a> {
    pub digits: &'a [u8],
    pub ghost spelled: { Hexes digits.now } by { Prim.hlevel (Octets-prop, props) },
}

impl<'a> HexDigits<'a> {
    pub fn new(digits: &'a [u8]) -> Self
        requires { Hexes digits.now }
        ensures { result.digits.now ≡ digits.now }
    {
        HexDigits { digits }
    }
}

impl<'a> Octets for HexDigits<'a> {
    ghost octets = { λ hex. paired hex.digits.now };

    fn count(self) -> usize
        ensures value { result ≡ length (paired self.entry.digits.now) }
        ensures upper_bound { result ≤ length self.entry.digits.now }
    {
        count(self.digits)
    }

    #[tactic(auto, using(crate::specs::Digits::paired_half, crate::specs::Digits::digit_at, crate::specs::Digits::paired_at))]
    fn octet(self, i: usize) -> u8 {
        let digits = self.digits;
        digit_value(digits[2 * i]) * 16 + digit_value(digits[2 * i + 1])
    }

    #[tactic(auto, using(crate::specs::Digits::paired_half))]
    fn first(self, n: usize) -> HexDigits<'a> {
        let digits = self.digits;
        HexDigits::new(&digits[..2 * n])
    }

    #[tactic(auto, using(crate::specs::Digits::paired_half))]
    fn after(self, n: usize) -> HexDigits<'a> {
        let digits = self.digits;
        HexDigits::new(&digits[2 * n..])
    }
}

// The value of a digit.
fn digit_value(c: u8) -> u8
    requires { (48 ≤ c) × (c ≤ 70) }
    ensures value { result ≡ digit_value c }
    ensures upper_bound { result < 16 }
{
    match c {
        b'0'..=b'9' => c - b'0',
        _ => c - (b'A' - 10),
    }
}
