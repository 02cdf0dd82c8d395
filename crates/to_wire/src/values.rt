// The values of options: read, judged and written. The definitions are in specs/Values.
ghost use Rattle.std.specs.Prelude.{◌≡◌, Ok, true, min, ◌+◌, ◌^◌, ◌<◌, ◌≤◌, length, replicate};
ghost use Rattle.std.specs.Int.{bytes_high_first};
ghost use Rattle.octets.specs.Lists.{all, each, paired};
ghost use Rattle.octets.specs.Decimal.{natural};
ghost use Rattle.octets.specs.Overlay.{Wrote};
ghost use Rattle.options.specs.Options.{hex_object, expiry, hex_list, padding, extended_error, syntax_of};
ghost use Rattle.strict.specs.Members.{cookie?, text?, optional};
ghost use Rattle.parse_tokens.specs.Cursor.{Safe};
ghost use Rattle.parse_tokens.specs.Step.{Step};
ghost use Rattle.parse_tokens.specs.Fields.{Done, fits?};
ghost use Rattle.to_wire.specs.Values.{numerals_parse, list_parse, ValueStep, part?, CookieStep, cookie_parse};
ghost use Rattle.to_wire.specs.Values.{Zeros, PaddingFits, PaddingHex, PaddingEnd, ErrorText, error_end};

use crate::labels::string;
use hex_or_octets::{HexDigits, Octets};
use octets::put;
use options::{Syntax, all_zero};
use parse_rdata::put_octets;
use parse_tokens::{
    Cursor, Stop, advance, comma, demand, furthest, hex, literal, number, put_number, reserve,
};

// Writes the octets of digits, unless they go past the limit.
#[tactic(auto, using(crate::specs::Values::hex_steps))]
pub fn put_hex(h: HexDigits, c: Cursor, out: &mut [u8]) -> Cursor
    requires { c.to ≤ 65535 }
    ensures { Done (λ l. l ≡ paired h.entry.digits.now) (λ l. true) (λ l. l) c out.old result out.new }
{
    let r = reserve(c, h.count());
    if r.bounded {
        put_octets(h, out, c.to);
    }
    r
}

// A number of N octets.
#[tactic(auto, using(crate::specs::Values::numeral_steps))]
fn numeral<const N: usize>(text: &[u8], c: Cursor, out: &mut [u8]) -> Result<Cursor, Stop>
    requires few { N ≤ 4 }
    requires safe { Safe text.now c }
    ensures { Step (fits? N) (bytes_high_first N) natural text.now (Ok c) out.old result out.new }
{
    let (c, value) = number(text, c)?;
    Ok(put_number::<N>(c, value, out))
}

// Numbers with commas between, and the bracket after them.
#[tactic(auto, using(crate::specs::Values::numerals_steps))]
fn numerals<const N: usize>(text: &[u8], c: Cursor, out: &mut [u8]) -> Result<Cursor, Stop>
    requires few { N ≤ 4 }
    requires safe { Safe text.now c }
    ensures { Step (all (fits? N)) (each (bytes_high_first N)) numerals_parse text.now (Ok c) out.old result out.new }
{
    let mut d = c;
    let mut first = true;
    while text.get(d.at) != Some(&b']') {
        let next = comma(text, d, first)?;
        d = numeral::<N>(text, next, out)?;
        first = false;
    }
    Ok(advance(d, d.at + 1))
}

// A list of numbers of N octets.
#[tactic(auto, using(crate::specs::Values::list_steps))]
fn list<const N: usize>(text: &[u8], c: Cursor, out: &mut [u8]) -> Result<Cursor, Stop>
    requires few { N ≤ 4 }
    requires safe { Safe text.now c }
    ensures { Step (all (fits? N)) (each (bytes_high_first N)) list_parse text.now (Ok c) out.old result out.new }
{
    let c = literal(text, c, b"[")?;
    numerals::<N>(text, c, out)
}

// NSID
#[tactic(auto, using(crate::specs::Values::hex_object_steps))]
fn hex_object(text: &[u8], c: Cursor, out: &mut [u8]) -> Result<Cursor, Stop>
    requires { Safe text.now c }
    ensures { ValueStep hex_object text.now (Ok c) out.old result out.new }
{
    let c = literal(text, c, b"{\"HEX\":")?;
    let (c, h) = hex(text, c)?;
    literal(text, put_hex(h, c, out), b"}")
}

// EXPIRE
#[tactic(auto, using(crate::specs::Values::expiry_steps))]
fn expiry(text: &[u8], c: Cursor, out: &mut [u8]) -> Result<Cursor, Stop>
    requires { Safe text.now c }
    ensures { ValueStep expiry text.now (Ok c) out.old result out.new }
{
    match literal(text, c, b"\"NONE\"") {
        Ok(c) => Ok(c),
        Err(far) => furthest(numeral::<4>(text, c, out), far),
    }
}

// ---- COOKIE
// Whether a string may have this length at its place: the first 8, the second 8 to 32; there is no third.
fn cookie_part(i: usize, size: usize) -> bool
    ensures { result ≡ part? i size }
{
    matches!((i, size), (0, 8) | (1, 8..=32))
}

#[tactic(auto, using(crate::specs::Values::cookie_steps))]
fn cookie_string(text: &[u8], c: Cursor, i: usize, out: &mut [u8]) -> Result<Cursor, Stop>
    requires { Safe text.now c }
    ensures { CookieStep i text.now (Ok c) out.old result out.new }
{
    let (c, h) = hex(text, c)?;
    Ok(demand(put_hex(h, c, out), cookie_part(i, h.count())))
}

// Strings with commas between, and the bracket after them.
#[tactic(auto, using(crate::specs::Values::cookies_steps))]
fn cookie_strings(text: &[u8], c: Cursor, out: &mut [u8]) -> Result<Cursor, Stop>
    requires { Safe text.now c }
    ensures { Step cookie? (each (λ h. h)) cookie_parse text.now (Ok c) out.old result out.new }
{
    let mut d = c;
    let mut first = true;
    let mut i = 0;
    while text.get(d.at) != Some(&b']') {
        let next = comma(text, d, first)?;
        d = cookie_string(text, next, i, out)?;
        first = false;
        i = (i + 1).min(2);
    }
    Ok(demand(advance(d, d.at + 1), i > 0))
}

#[tactic(auto, using(crate::specs::Values::cookie_value_steps))]
fn cookie(text: &[u8], c: Cursor, out: &mut [u8]) -> Result<Cursor, Stop>
    requires { Safe text.now c }
    ensures { ValueStep hex_list text.now (Ok c) out.old result out.new }
{
    let c = literal(text, c, b"[")?;
    cookie_strings(text, c, out)
}

// ---- PADDING
// Writes n zero octets.
#[tactic(auto, using(crate::specs::Values::zeros_start))]
fn put_zeros(n: usize, out: &mut [u8], to: usize)
    requires { to + n < 2 ^ 40 }
    ensures { Wrote out.old to (replicate n 0) out.new (to + n) }
{
    for i in 0..n {
        put(0, out, to + i);
    }
}

// Writes n zero octets, unless they go past the limit.
#[tactic(auto, using(crate::specs::Values::zeros_steps))]
fn zeros(c: Cursor, n: u64, out: &mut [u8]) -> Cursor
    requires { c.to ≤ 65535 }
    ensures { Zeros n c out.old result out.new }
{
    let r = reserve(c, n as usize);
    if r.bounded {
        put_zeros(n as usize, out, c.to);
    }
    r
}

// HEX has as many octets as LENGTH says, and not all of them are zero.
#[tactic(auto, using(crate::specs::Values::fits_other, crate::specs::Values::fits_same))]
fn padding_fits(h: HexDigits, n: u64) -> bool
    ensures { PaddingFits h.entry.digits.now n result }
{
    n == h.count() as u64 && !all_zero(h)
}

#[tactic(auto, using(crate::specs::Values::padding_hex_steps))]
fn padding_hex(text: &[u8], c: Cursor, n: u64, out: &mut [u8]) -> Result<Cursor, Stop>
    requires { Safe text.now c }
    ensures { PaddingHex n text.now (Ok c) out.old result out.new }
{
    let c = literal(text, c, b",\"HEX\":")?;
    let (c, h) = hex(text, c)?;
    let d = put_hex(h, c, out);
    literal(text, demand(d, padding_fits(h, n)), b"}")
}

// The end of the object: n zero octets where there is no HEX.
#[tactic(auto, using(crate::specs::Values::padding_end_steps))]
fn padding_end(text: &[u8], c: Cursor, n: u64, out: &mut [u8]) -> Result<Cursor, Stop>
    requires { Safe text.now c }
    ensures { PaddingEnd n text.now (Ok c) out.old result out.new }
{
    match literal(text, c, b"}") {
        Ok(c) => Ok(zeros(c, n, out)),
        Err(far) => furthest(padding_hex(text, c, n, out), far),
    }
}

#[tactic(auto, using(crate::specs::Values::padding_steps))]
fn padding(text: &[u8], c: Cursor, out: &mut [u8]) -> Result<Cursor, Stop>
    requires { Safe text.now c }
    ensures { ValueStep padding text.now (Ok c) out.old result out.new }
{
    let c = literal(text, c, b"{\"LENGTH\":")?;
    let (c, n) = number(text, c)?;
    padding_end(text, c, n, out)
}

// ---- EDE
// TEXT, which is not empty, and the brace after it.
#[tactic(auto, using(crate::specs::Values::error_text_steps))]
fn error_text(text: &[u8], c: Cursor, out: &mut [u8]) -> Result<Cursor, Stop>
    requires { Safe text.now c }
    ensures { ErrorText text.now (Ok c) out.old result out.new }
{
    let c = literal(text, c, b",\"TEXT\":")?;
    let d = string(text, c, out)?;
    literal(text, demand(d, d.at != c.at + 2), b"}")
}

#[tactic(auto, using(crate::specs::Values::error_end_steps))]
fn error_end(text: &[u8], c: Cursor, out: &mut [u8]) -> Result<Cursor, Stop>
    requires { Safe text.now c }
    ensures { Step text? optional error_end text.now (Ok c) out.old result out.new }
{
    match literal(text, c, b"}") {
        Ok(c) => Ok(c),
        Err(far) => furthest(error_text(text, c, out), far),
    }
}

#[tactic(auto, using(crate::specs::Values::extended_error_steps))]
fn extended_error(text: &[u8], c: Cursor, out: &mut [u8]) -> Result<Cursor, Stop>
    requires { Safe text.now c }
    ensures { ValueStep extended_error text.now (Ok c) out.old result out.new }
{
    let c = literal(text, c, b"{\"CODE\":")?;
    let c = numeral::<2>(text, c, out)?;
    error_end(text, c, out)
}

// ---- a value by its option's code
#[tactic(auto, using(crate::specs::Values::option_value_steps))]
pub fn option_value(text: &[u8], c: Cursor, code: u32, out: &mut [u8]) -> Result<Cursor, Stop>
    requires { Safe text.now c }
    ensures { ValueStep (syntax_of code) text.now (Ok c) out.old result out.new }
{
    match Syntax::of(code) {
        Some(Syntax::HexObject) => hex_object(text, c, out),
        Some(Syntax::OctetList) => list::<1>(text, c, out),
        Some(Syntax::Expiry) => expiry(text, c, out),
        Some(Syntax::HexList) => cookie(text, c, out),
        Some(Syntax::Word) => numeral::<2>(text, c, out),
        Some(Syntax::Padding) => padding(text, c, out),
        Some(Syntax::WordList) => list::<2>(text, c, out),
        Some(Syntax::ExtendedError) => extended_error(text, c, out),
        None => Err(c.at),
    }
}
