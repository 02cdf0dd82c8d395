// The tokens of a text. What each reader finds is what the parsers of the definitions find, and it stops where they
// stop.
#![tactic(auto)]

ghost use Rattle.std.specs.Prelude.{◌≡◌, ◌+◌, ◌*◌, ◌<◌, ◌≤◌};
ghost use Rattle.std.specs.Option.{option_map};
ghost use Rattle.octets.specs.Fields.{be32};
ghost use Rattle.spelling.specs.Spelling.{plus, minus};
ghost use Rattle.parse_tokens.specs.Cursor.{Safe, Passed, Advanced};
ghost use Rattle.parse_tokens.specs.Step.{Held, Emits, Judged};
ghost use Rattle.parse_tokens.specs.Items.{comma_of};
ghost use Rattle.parse_tokens.specs.Choice.{furthest};
ghost use Rattle.parse_tokens.specs.Number.{NumberRead, TillRead, PositiveRead, DigitAt};
ghost use Rattle.parse_tokens.specs.Signed.{ttl_bits, SignedRead};
ghost use Rattle.parse_tokens.specs.Hex.{HexAt, PairsRead, HexRead, DigitsFrom};
ghost use Rattle.parse_tokens.specs.Fields.{number_octets, FieldPut};

use hex_or_octets::HexDigits;
use octets::put_all;

// Where the reader is in a text; all before `at` is within the grammar. `meaningful`: a message can have the text so
// far, limits of size aside. `bounded`: the message so far is within its limit. `to`: where its next octet goes.
#[derive(Clone, Copy, Debug, PartialEq, Eq)]
pub struct Cursor {
    pub at: usize,
    pub to: usize,
    pub meaningful: bool,
    pub bounded: bool,
}

// The first octet at which no text goes on.
pub type Stop = usize;

// The reader comes to a place.
pub fn advance(c: Cursor, at: usize) -> Cursor
    ensures { Advanced c at result }
{
    Cursor { at, ..c }
}

// Takes fixed octets.
pub fn literal(text: &[u8], c: Cursor, lit: &[u8]) -> Result<Cursor, Stop>
    requires { Safe text.now c }
    ensures { Passed lit.now text.now (Ok c) result }
{
    for (i, x) in lit.iter().enumerate() {
        if text.get(c.at + i) != Some(x) {
            return Err(c.at + i);
        }
    }
    Ok(advance(c, c.at + lit.len()))
}

// The comma before an item; the first has none.
pub fn comma(text: &[u8], c: Cursor, first: bool) -> Result<Cursor, Stop>
    requires { Safe text.now c }
    ensures { Passed (comma_of first) text.now (Ok c) result }
{
    if first {
        return Ok(c);
    }
    literal(text, c, b",")
}

// A reader that stopped stops at the further of its place and another.
pub fn furthest<T>(reached: Result<T, Stop>, at: Stop) -> Result<T, Stop>
    ensures { result ≡ furthest reached at }
{
    reached.map_err(|stop| stop.max(at))
}

// `meaningful` only if this holds too.
pub fn demand(c: Cursor, ok: bool) -> Cursor
    ensures { Judged ok c result }
{
    Cursor {
        meaningful: c.meaningful && ok,
        ..c
    }
}

// Holds places for n octets of the message, unless they go past its limit. Then `to` stays.
pub fn reserve(c: Cursor, n: usize) -> Cursor
    requires { c.to ≤ 65535 }
    ensures { Held n c result }
{
    if n > 65535 - c.to {
        return Cursor {
            bounded: false,
            ..c
        };
    }
    Cursor { to: c.to + n, ..c }
}

// Writes octets of the message, unless they go past its limit. Then the buffer stays.
pub fn emit(c: Cursor, octets: &[u8], out: &mut [u8]) -> Cursor
    requires { c.to ≤ 65535 }
    ensures { Emits octets.now c out.old result out.new }
{
    let r = reserve(c, octets.len());
    if r.bounded {
        put_all(octets, out, c.to);
    }
    r
}

// The digit at a place, as a number.
fn digit(text: &[u8], at: usize) -> Option<u64>
    ensures { DigitAt text.now at result }
{
    match text.get(at) {
        Some(&(x @ b'0'..=b'9')) => Some(u64::from(x - b'0')),
        _ => None,
    }
}

// A number above this counts as this.
const LARGEST: u64 = 1 << 63;

// A number that is not 0: a digit from 1 to 9, and all the digits that come.
#[tactic(auto, using(crate::specs::Number::positive_steps))]
fn positive(text: &[u8], c: Cursor) -> Result<(Cursor, u64), Stop>
    requires { Safe text.now c }
    ensures { PositiveRead text.now c result }
{
    let mut value = match digit(text, c.at) {
        None | Some(0) => return Err(c.at),
        Some(first) => first,
    };
    let mut at = c.at + 1;
    while let Some(d) = digit(text, at) {
        value = value.saturating_mul(10).saturating_add(d).min(LARGEST);
        at += 1;
    }
    Ok((advance(c, at), value))
}

// A number: 0 alone, or one that is not 0. A digit after the 0 is left. One above 2^63 counts as 2^63.
#[tactic(auto, using(crate::specs::Number::number_zero_lem, crate::specs::Number::number_other))]
pub fn number(text: &[u8], c: Cursor) -> Result<(Cursor, u64), Stop>
    requires { Safe text.now c }
    ensures { NumberRead text.now c result }
{
    if let Ok(c) = literal(text, c, b"0") {
        return Ok((c, 0));
    }
    positive(text, c)
}

// A number and the fixed octets after it.
#[tactic(auto, using(crate::specs::Number::till_read, crate::specs::Number::till_stop))]
pub fn number_then(text: &[u8], c: Cursor, title: &[u8]) -> Result<(Cursor, u64), Stop>
    requires { Safe text.now c }
    ensures { TillRead title.now text.now c result }
{
    let (c, value) = number(text, c)?;
    Ok((literal(text, c, title)?, value))
}

// The bits of a TTL with no minus before it, if it is in range.
#[tactic(auto, using(crate::specs::Signed::plus_in, crate::specs::Signed::plus_out))]
fn plus_bits(value: u64) -> Option<u32>
    ensures { result ≡ ttl_bits (plus value) }
{
    if value >= 1 << 31 {
        return None;
    }
    Some(value as u32)
}

// The bits of a TTL with a minus before it, in two's complement, if it is in range.
#[tactic(auto, using(crate::specs::Signed::minus_in, crate::specs::Signed::minus_out))]
fn minus_bits(value: u64) -> Option<u32>
    requires { 0 < value }
    ensures { result ≡ ttl_bits (minus value) }
{
    if value > 1 << 31 {
        return None;
    }
    Some(((1 << 32) - value) as u32)
}

// A TTL: a number, or a minus and a number that is not 0. Its bits, if it is in range.
#[tactic(auto, using(crate::specs::Signed::signed_steps))]
pub fn signed(text: &[u8], c: Cursor) -> Result<(Cursor, Option<u32>), Stop>
    requires { Safe text.now c }
    ensures { SignedRead text.now c result }
{
    if let Ok(c) = literal(text, c, b"-") {
        let (c, value) = positive(text, c)?;
        return Ok((c, minus_bits(value)));
    }
    let (c, value) = number(text, c)?;
    Ok((c, plus_bits(value)))
}

// Whether a hexadecimal digit, in capitals, is at a place.
#[tactic(auto, using(crate::specs::Hex::digit_tests))]
fn hex_at(text: &[u8], at: usize) -> bool
    ensures { HexAt text.now at result }
{
    matches!(text.get(at), Some(b'0'..=b'9' | b'A'..=b'F'))
}

// Digits in pairs, and the quote after them.
#[tactic(auto, using(crate::specs::Hex::pairs_steps))]
fn pairs<'a>(text: &'a [u8], c: Cursor) -> Result<(Cursor, HexDigits<'a>), Stop>
    requires { Safe text.now c }
    ensures read { PairsRead text.now c result }
    ensures digits { DigitsFrom text.now c.at result }
{
    let mut at = c.at;
    while hex_at(text, at) {
        if !hex_at(text, at + 1) {
            return Err(at + 1);
        }
        at += 2;
    }
    let end = literal(text, advance(c, at), b"\"")?;
    Ok((end, HexDigits::new(&text[c.at..at])))
}

// Digits in pairs, in quotes.
#[tactic(auto, using(crate::specs::Hex::hex_opened, crate::specs::Hex::hex_stop))]
pub fn hex<'a>(text: &'a [u8], c: Cursor) -> Result<(Cursor, HexDigits<'a>), Stop>
    requires { Safe text.now c }
    ensures read { HexRead text.now c result }
    ensures digits { DigitsFrom text.now (c.at + 1) result }
{
    let c = literal(text, c, b"\"")?;
    pairs(text, c)
}

// A number in N octets, the high ones first, if it fits them.
pub fn put_number<const N: usize>(c: Cursor, value: u64, out: &mut [u8]) -> Cursor
    requires few { N ≤ 4 }
    requires room { c.to ≤ 65535 }
    ensures { FieldPut (number_octets N value) c out.old result out.new }
{
    if value >= 1 << (8 * N) {
        return demand(c, false);
    }
    emit(c, &value.to_be_bytes()[8 - N..], out)
}

// A TTL, if it is in range.
pub fn put_ttl(c: Cursor, bits: Option<u32>, out: &mut [u8]) -> Cursor
    requires { c.to ≤ 65535 }
    ensures { FieldPut (option_map be32 bits) c out.old result out.new }
{
    match bits {
        Some(bits) => emit(c, &bits.to_be_bytes(), out),
        None => demand(c, false),
    }
}
