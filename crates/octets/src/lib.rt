// Octets, numbers and texts: what every layer above shares. The definitions are in specs/.
#![tactic(auto)]

ghost use Rattle.std.specs.Prelude.{◌≡◌, [], ◌∷◌, ◌+◌, ◌*◌, ◌^◌, ◌<◌, ◌≤◌, length};
ghost use Rattle.octets.specs.Fields.{be16, be32, be16_at, be32_at};
ghost use Rattle.octets.specs.Decimal.{decimal};
ghost use Rattle.octets.specs.Hexadecimal.{hex_digit, hex_octet};
ghost use Rattle.octets.specs.Overlay.{Wrote};
ghost use Rattle.octets.specs.Calls.{number_of};
ghost use Rattle.octets.specs.Lists.{each};

pub use writer::Writer;

mod writer;

// The rule of the format by which a message or a text is refused.
#[derive(Clone, Copy, Debug, PartialEq, Eq)]
pub enum Rule {
    // of messages
    Cut,
    LongMessage,
    Reserved,
    Target,
    LongName,
    Short,
    LeftOver,
    LongForm,
    TextRoom,
    Surplus,
    // of texts
    Grammar,
    Meaning,
    Limit,
    MessageRoom,
}

impl Rule {
    // The format's number of the rule.
    pub fn number(self) -> u32
        ensures { result ≡ number_of self }
    {
        match self {
            Rule::Cut => 1,
            Rule::LongMessage => 2,
            Rule::Reserved => 4,
            Rule::Target => 5,
            Rule::LongName => 6,
            Rule::Short => 7,
            Rule::LeftOver => 8,
            Rule::LongForm => 9,
            Rule::TextRoom => 10,
            Rule::Surplus => 11,
            Rule::Grammar => 20,
            Rule::Meaning => 21,
            Rule::Limit => 22,
            Rule::MessageRoom => 23,
        }
    }

    // The refusal by this rule at a place.
    pub fn at(self, place: usize) -> Refusal
        ensures { result ≡ record { rule = self; place = place } }
    {
        Refusal {
            rule: self,
            place: place,
        }
    }
}

// Why a message or a text is refused, and at which of its octets; 0 where the rule is of the whole.
#[derive(Clone, Copy, Debug, PartialEq, Eq)]
pub struct Refusal {
    pub rule: Rule,
    pub place: usize,
}

// The octet as a place or a length.
pub fn wide(x: u8) -> usize
    ensures { (result ≡ x) × (result < 256) }
{
    usize::from(x)
}

// Writes an octet where there is room, and returns the next place.
pub fn put(b: u8, out: &mut [u8], to: usize) -> usize
    requires { to < 2 ^ 40 }
    ensures { Wrote out.old to (b ∷ []) out.new result }
{
    let next = to + 1;
    if to < out.len() {
        out[to] = b;
    }
    next
}

// Writes all of src, for which there is room.
// A loop, since `copy_from_slice` becomes a call of memmove, and the C package has no function but memcpy and memset.
fn copy(src: &[u8], out: &mut [u8], to: usize)
    requires { to + length src.now ≤ length out.old }
    ensures { Wrote out.old to src.now out.new (to + length src.now) }
{
    for (i, &b) in src.iter().enumerate() {
        out[to + i] = b;
    }
}

// Writes all of src.
pub fn put_all(src: &[u8], out: &mut [u8], to: usize) -> usize
    requires { to + length src.now ≤ 2 ^ 40 }
    ensures { Wrote out.old to src.now out.new result }
{
    let end = to + src.len();
    if end <= out.len() {
        copy(src, out, to);
    } else if to < out.len() {
        copy(&src[..out.len() - to], out, to);
    }
    end
}

// Writes a number in decimal.
pub fn put_decimal(n: u32, out: &mut [u8], to: usize) -> usize
    requires { to < 2 ^ 39 }
    ensures wrote { Wrote out.old to (decimal n) out.new result }
    ensures upper_bound { result ≤ to + 10 }
{
    if n < 10 {
        return put(b'0' + n as u8, out, to);
    }
    let next = put_decimal(n / 10, out, to);
    put(b'0' + (n % 10) as u8, out, next)
}

// A hexadecimal digit.
fn hex_digit(n: u8) -> u8
    requires { n < 16 }
    ensures { result ≡ hex_digit n }
{
    match n {
        0..=9 => b'0' + n,
        _ => b'A' + (n - 10),
    }
}

// Writes each octet of src as two hexadecimal digits, for which there is room.
fn copy_hex(src: &[u8], out: &mut [u8], to: usize)
    requires { to + 2 * length src.now ≤ length out.old }
    ensures { Wrote out.old to (each hex_octet src.now) out.new (to + 2 * length src.now) }
{
    for (i, &b) in src.iter().enumerate() {
        out[to + 2 * i] = hex_digit(b / 16);
        out[to + 2 * i + 1] = hex_digit(b % 16);
    }
}

// Writes each octet of src as two hexadecimal digits.
pub fn put_hex(src: &[u8], out: &mut [u8], to: usize) -> usize
    requires { to + 2 * length src.now < 2 ^ 40 }
    ensures wrote { Wrote out.old to (each hex_octet src.now) out.new result }
    ensures value { result ≡ to + 2 * length src.now }
{
    let end = to + 2 * src.len();
    if end <= out.len() {
        copy_hex(src, out, to);
    } else if to < out.len() {
        let whole = (out.len() - to) / 2;
        copy_hex(&src[..whole], out, to);
        put(hex_digit(src[whole] / 16), out, to + 2 * whole);
    }
    end
}

// The number in the two octets at `at`, the high one first.
pub fn be16_at(s: &[u8], at: usize) -> u32
    requires { at + 2 ≤ length s.now }
    ensures value { result ≡ be16_at s.now at }
    ensures upper_bound { result < 65536 }
{
    u32::from(u16::from_be_bytes([s[at], s[at + 1]]))
}

// The number in the four octets at `at`, the high ones first.
pub fn be32_at(s: &[u8], at: usize) -> u32
    requires { at + 4 ≤ length s.now }
    ensures { result ≡ be32_at s.now at }
{
    u32::from_be_bytes([s[at], s[at + 1], s[at + 2], s[at + 3]])
}

// Writes a number in two octets, the high one first.
pub fn put_be16(n: u32, out: &mut [u8], to: usize) -> usize
    requires { (to + 1 < 2 ^ 40) × (n < 65536) }
    ensures { Wrote out.old to (be16 n) out.new result }
{
    put_all(&(n as u16).to_be_bytes(), out, to)
}

// Writes a number in four octets, the high ones first.
pub fn put_be32(n: u32, out: &mut [u8], to: usize) -> usize
    requires { to < 2 ^ 39 }
    ensures { Wrote out.old to (be32 n) out.new result }
{
    put_all(&n.to_be_bytes(), out, to)
}
