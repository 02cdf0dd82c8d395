// One octet of a label or of a string, as it is spelled in a text.
#![tactic(auto)]

ghost use Rattle.std.specs.Prelude.{◌≡◌, true, false, ◌+◌, ◌-◌, ◌*◌, ◌<◌, ◌≤◌, length};
ghost use Rattle.spelling.specs.Spelling.{plain?};
ghost use Rattle.strict.specs.Spelt.{coded?, ddd, escape, spelled_at, bare?, string_at};
ghost use Rattle.parse_octets.specs.Octet.{LetterAt, from_to, lowest, highest};

// An octet that was read, and the place after it.
#[derive(Clone, Copy)]
pub struct Letter {
    pub at: usize,
    pub value: u8,
}

// Whether an octet of a label stands for itself.
fn is_plain(x: u8) -> bool
    ensures { result ≡ plain? x }
{
    matches!(x, 33..=126) && !matches!(x, b'"' | b'.' | b'\\')
}

// Whether it is an octet that is written `\\DDD`.
fn is_coded(x: u8) -> bool
    ensures { result ≡ coded? x }
{
    !is_plain(x) && !matches!(x, b'.' | b'\\')
}

// A digit from `low` to `high`, as its number.
fn digit(text: &[u8], at: usize, low: u8, high: u8) -> Result<Letter, usize>
    requires { (at ≤ length text.now) × (48 ≤ low) }
    ensures { LetterAt (from_to low high) text.now at result }
{
    match text.get(at) {
        Some(&x) if low <= x && x <= high => Ok(Letter {
            at: at + 1,
            value: x - b'0',
        }),
        _ => Err(at),
    }
}

// The least and the greatest second digit after a first one, as octets of the text.
fn seconds(first: u8) -> (u8, u8)
    ensures { (result.0 ≡ lowest first) × (result.1 ≡ highest first) }
{
    match first {
        0 => (b'0', b'3'),
        1 => (b'2', b'9'),
        _ => (b'0', b'5'),
    }
}

// Three digits that make an octet which is written so.
fn coded(text: &[u8], at: usize) -> Result<Letter, usize>
    requires { at ≤ length text.now }
    ensures { LetterAt (ddd 3 0) text.now at result }
{
    let first = digit(text, at, b'0', b'2')?;
    let (low, high) = seconds(first.value);
    let second = digit(text, first.at, low, high)?;
    let third = digit(text, second.at, b'0', b'9')?;
    let value = u16::from(first.value) * 100
        + u16::from(second.value) * 10
        + u16::from(third.value);
    match u8::try_from(value) {
        Ok(value) if is_coded(value) => Ok(Letter {
            at: third.at,
            value: value,
        }),
        _ => Err(second.at),
    }
}

// What follows two backslashes.
fn escaped(text: &[u8], at: usize) -> Result<Letter, usize>
    requires { at ≤ length text.now }
    ensures { LetterAt escape text.now at result }
{
    match text.get(at) {
        Some(b'.') => Ok(Letter {
            at: at + 1,
            value: b'.',
        }),
        Some(b'\\') => match text.get(at + 1) {
            Some(b'\\') => Ok(Letter {
                at: at + 2,
                value: b'\\',
            }),
            _ => Err(at + 1),
        },
        _ => coded(text, at),
    }
}

// An octet of a label.
pub fn octet(text: &[u8], at: usize) -> Result<Letter, usize>
    requires { at ≤ length text.now }
    ensures { LetterAt spelled_at text.now at result }
{
    match text.get(at) {
        Some(&x) if is_plain(x) => Ok(Letter {
            at: at + 1,
            value: x,
        }),
        Some(b'\\') => match text.get(at + 1) {
            Some(b'\\') => escaped(text, at + 2),
            _ => Err(at + 1),
        },
        _ => Err(at),
    }
}

// Whether an octet of a string stands for itself.
fn is_bare(x: u8) -> bool
    ensures { result ≡ bare? x }
{
    matches!(x, 32..=126) && !matches!(x, b'"' | b'\\')
}

// An octet of a string.
pub fn char_at(text: &[u8], at: usize) -> Result<Letter, usize>
    requires { at ≤ length text.now }
    ensures { LetterAt string_at text.now at result }
{
    match text.get(at) {
        Some(&x) if is_bare(x) => Ok(Letter {
            at: at + 1,
            value: x,
        }),
        Some(b'\\') => match text.get(at + 1) {
            Some(&x @ (b'"' | b'\\')) => Ok(Letter {
                at: at + 2,
                value: x,
            }),
            _ => Err(at + 1),
        },
        _ => Err(at),
    }
}
