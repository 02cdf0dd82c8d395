// The members of the EDNS object, each an option: read, judged and written. The definitions are in specs/Options.
ghost use Rattle.std.specs.Prelude.{◌≡◌, ◌≤◌, ◌<◌};
ghost use Rattle.octets.specs.Lists.{paired};
ghost use Rattle.strict.specs.Parser.{option_members};
ghost use Rattle.parse_tokens.specs.Cursor.{Safe};
ghost use Rattle.to_wire.specs.Options.{MemberNameRead, Fronted, KnownStep, KnownRead, other_fits?, OtherHex, OptRead};
ghost use Rattle.to_wire.specs.Options.{MemberRead, RisingRead, OptionsStep, members_parse};

use crate::values::{option_value, put_hex};
use hex_or_octets::HexDigits;
use octets::put_be16;
use options::has_shape;
use parse_tables::option_name;
use parse_tokens::{Cursor, Stop, advance, demand, furthest, hex, literal, number_then, reserve};

// Writes an option's code and the length of its value before the value, which ends at `to`.
fn put_option_head(code: u32, out: &mut [u8], start: usize, to: usize)
    requires { (start ≤ 65535) × (to ≤ 65535) }
    ensures { Fronted code start to out.old out.new }
{
    if to < start + 4 {
        return;
    }
    let size = to - (start + 4);
    let next = put_be16(code % 65536, out, start);
    put_be16(size as u32, out, next);
}

// The name of a member of the table, in quotes, and the colon.
fn member_name(text: &[u8], c: Cursor) -> Result<(Cursor, u32), Stop>
    requires { Safe text.now c }
    ensures { MemberNameRead text.now c result }
{
    let c = literal(text, c, b"\"")?;
    let (c, code) = option_name(text, c)?;
    let c = literal(text, c, b"\":")?;
    Ok((c, code))
}

// The value of a member of the table.
fn listed_option(text: &[u8], c: Cursor, code: u32, out: &mut [u8]) -> Result<Cursor, Stop>
    requires { Safe text.now c × (code < 65536) }
    ensures { KnownStep code text.now (Ok c) out.old result out.new }
{
    let end = option_value(text, reserve(c, 4), code, out)?;
    put_option_head(code, out, c.to, end.to);
    Ok(end)
}

// A member of the table, and its code.
fn known_member(text: &[u8], c: Cursor, out: &mut [u8]) -> Result<(Cursor, u32), Stop>
    requires { Safe text.now c }
    ensures { KnownRead text.now c out.old result out.new }
{
    let (c, code) = member_name(text, c)?;
    let c = listed_option(text, c, code, out)?;
    Ok((c, code))
}

// `OPTn` only where n is a code and its value doesn't have the shape of a row of that code.
fn other_fits(h: HexDigits, n: u64) -> bool
    ensures { result ≡ other_fits? n (paired h.entry.digits.now) }
{
    n < 65536 && !has_shape(n as u32, h)
}

// The value of `OPTn`.
fn other_hex(text: &[u8], c: Cursor, n: u64, out: &mut [u8]) -> Result<Cursor, Stop>
    requires { Safe text.now c }
    ensures { OtherHex n text.now (Ok c) out.old result out.new }
{
    let (c, h) = hex(text, c)?;
    let end = put_hex(h, reserve(c, 4), out);
    let end = demand(end, other_fits(h, n));
    put_option_head((n % 65536) as u32, out, c.to, end.to);
    Ok(end)
}

// A member of any code after `OPT`, and its code.
fn opt_n(text: &[u8], c: Cursor, out: &mut [u8]) -> Result<(Cursor, u32), Stop>
    requires { Safe text.now c }
    ensures { OptRead text.now c out.old result out.new }
{
    let (c, n) = number_then(text, c, b"\":")?;
    let c = other_hex(text, c, n, out)?;
    Ok((c, (n % 65536) as u32))
}

// A member, of the table or not, and its code.
fn option_member(text: &[u8], c: Cursor, out: &mut [u8]) -> Result<(Cursor, u32), Stop>
    requires { Safe text.now c }
    ensures { MemberRead text.now c out.old result out.new }
{
    match literal(text, c, b"\"OPT") {
        Ok(c) => opt_n(text, c, out),
        Err(far) => furthest(known_member(text, c, out), far),
    }
}

// A comma and a member whose code is at least `least`.
fn rising_member(text: &[u8], c: Cursor, least: u64, out: &mut [u8]) -> Result<(Cursor, u32), Stop>
    requires { Safe text.now c }
    ensures { RisingRead least text.now c out.old result out.new }
{
    let c = literal(text, c, b",")?;
    let (c, code) = option_member(text, c, out)?;
    Ok((demand(c, u64::from(code) >= least), code))
}

// Members with a comma before each, codes strictly rising, and the brace after them.
fn option_members(text: &[u8], c: Cursor, out: &mut [u8]) -> Result<Cursor, Stop>
    requires { Safe text.now c }
    ensures { OptionsStep members_parse text.now (Ok c) out.old result out.new }
{
    let mut d = c;
    let mut least = 0;
    while text.get(d.at) != Some(&b'}') {
        let (next, code) = rising_member(text, d, least, out)?;
        d = next;
        least = u64::from(code) + 1;
    }
    Ok(advance(d, d.at + 1))
}

// The same, and the last brace.
pub fn options(text: &[u8], c: Cursor, out: &mut [u8]) -> Result<Cursor, Stop>
    requires { Safe text.now c }
    ensures { OptionsStep option_members.parse text.now (Ok c) out.old result out.new }
{
    let c = option_members(text, c, out)?;
    literal(text, c, b"}")
}
