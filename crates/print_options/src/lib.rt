// Writers of the members of EDNS options. The definitions are in specs/ and in `options`.
#![tactic(auto)]

ghost use Rattle.std.specs.Prelude.{◌≡◌, ◌+◌, ◌*◌, ◌^◌, ◌<◌, ◌≤◌, length};
ghost use Rattle.octets.specs.Lists.{row_text};
ghost use Rattle.octets.specs.Writes.{Writes};
ghost use Rattle.options.specs.Codes.{defined};
ghost use Rattle.options.specs.Options.{hex_object, expiry, hex_list, padding, extended_error, members, other};
ghost use Rattle.options.specs.Options.{member_of, member_text};
ghost use Rattle.print_options.specs.Writing.{HasShape, shaped_text};

use octets::{Writer, be16_at, be32_at};
use options::{Syntax, all_zero};
use print_values::{put_error_tail, put_hex_text, put_list};

// The name of an option's member; none if the table has no row of its code.
#[tactic(auto, unfolding(octets::specs::Lists::row_text, options::specs::Options::rows, options::specs::Options::members))]
fn name(code: u32) -> &'static [u8]
    ensures name { result.now ≡ row_text code members }
    ensures upper_bound { length result.now ≤ 9 }
{
    match code {
        3 => b"NSID",
        5 => b"DAU",
        6 => b"DHU",
        7 => b"N3U",
        9 => b"EXPIRE",
        10 => b"COOKIE",
        11 => b"KEEPALIVE",
        12 => b"PADDING",
        14 => b"KEYTAG",
        15 => b"EDE",
        _ => b"",
    }
}

// `{"HEX":hex}`
fn put_hex_object(value: &[u8], w: &mut Writer)
    requires { (w.old.to < 2 ^ 38 + 32) × (length value.now < 65536) }
    ensures wrote { Writes w.old (shaped_text hex_object value.now) w.new }
    ensures upper_bound { w.new.to ≤ w.old.to + 4 * length value.now + 48 }
{
    put_hex_text(b"{\"HEX\":", value, w);
    w.put(b'}');
}

// `"NONE"` of no octets, a number of four.
fn put_expiry(value: &[u8], w: &mut Writer)
    requires { (w.old.to < 2 ^ 38 + 32) × (length value.now < 65536)
        × HasShape expiry value.now }
    ensures wrote { Writes w.old (shaped_text expiry value.now) w.new }
    ensures upper_bound { w.new.to ≤ w.old.to + 4 * length value.now + 48 }
{
    match value {
        [] => w.put_all(b"\"NONE\""),
        _ => w.put_decimal(be32_at(value, 0)),
    }
}

// A list of the first 8 octets in hexadecimal, and of those after them, if there are any.
fn put_hex_list(value: &[u8], w: &mut Writer)
    requires { (w.old.to < 2 ^ 38 + 32) × (length value.now < 65536)
        × HasShape hex_list value.now }
    ensures wrote { Writes w.old (shaped_text hex_list value.now) w.new }
    ensures upper_bound { w.new.to ≤ w.old.to + 4 * length value.now + 48 }
{
    let (first, second) = value.split_at(8);
    put_hex_text(b"[", first, w);
    if !second.is_empty() {
        put_hex_text(b",", second, w);
    }
    w.put(b']');
}

// The number of octets, and the octets in hexadecimal unless all are zero.
fn put_padding(value: &[u8], w: &mut Writer)
    requires { (w.old.to < 2 ^ 38 + 32) × (length value.now < 65536) }
    ensures wrote { Writes w.old (shaped_text padding value.now) w.new }
    ensures upper_bound { w.new.to ≤ w.old.to + 4 * length value.now + 48 }
{
    w.put_all(b"{\"LENGTH\":");
    w.put_decimal(value.len() as u32);
    let zero = all_zero(value);
    if !zero {
        put_hex_text(b",\"HEX\":", value, w);
    }
    w.put(b'}');
}

// The number in two octets, and the text after them.
fn put_error(value: &[u8], w: &mut Writer)
    requires { (w.old.to < 2 ^ 38 + 32) × (length value.now < 65536)
        × HasShape extended_error value.now }
    ensures wrote { Writes w.old (shaped_text extended_error value.now) w.new }
    ensures upper_bound { w.new.to ≤ w.old.to + 4 * length value.now + 48 }
{
    w.put_all(b"{\"CODE\":");
    w.put_decimal(be16_at(value, 0));
    put_error_tail(&value[2..], w);
}

// Writes a value that has the shape of its syntax.
fn put_value(syntax: Syntax, value: &[u8], w: &mut Writer)
    requires { (w.old.to < 2 ^ 38 + 32) × (length value.now < 65536)
        × HasShape (defined syntax) value.now }
    ensures wrote { Writes w.old (shaped_text (defined syntax) value.now) w.new }
    ensures upper_bound { w.new.to ≤ w.old.to + 4 * length value.now + 48 }
{
    match syntax {
        Syntax::HexObject => put_hex_object(value, w),
        Syntax::OctetList => put_list::<1>(value, w),
        Syntax::Expiry => put_expiry(value, w),
        Syntax::HexList => put_hex_list(value, w),
        Syntax::Word => w.put_decimal(be16_at(value, 0)),
        Syntax::Padding => put_padding(value, w),
        Syntax::WordList => put_list::<2>(value, w),
        Syntax::ExtendedError => put_error(value, w),
    }
}

// Writes the member of an option without a row, or whose value does not have the row's shape.
fn put_other(code: u32, value: &[u8], w: &mut Writer)
    requires { (w.old.to < 2 ^ 38) × (length value.now < 65536) }
    ensures wrote { Writes w.old (member_text (other code value.now)) w.new }
    ensures upper_bound { w.new.to ≤ w.old.to + 2 * length value.now + 18 }
{
    w.put_all(b"\"OPT");
    w.put_decimal(code);
    put_hex_text(b"\":", value, w);
}

// Writes the member of an option.
pub fn put_member(code: u32, value: &[u8], w: &mut Writer)
    requires { (w.old.to < 2 ^ 38) × (length value.now < 65536) }
    ensures wrote { Writes w.old
        (member_text (member_of (record { code = code; value = value.now }))) w.new }
    ensures upper_bound { w.new.to ≤ w.old.to + 4 * length value.now + 64 }
{
    match Syntax::of(code) {
        Some(syntax) if syntax.takes(value) => {
            w.put(b'"');
            w.put_all(name(code));
            w.put_all(b"\":");
            put_value(syntax, value, w);
        }
        _ => put_other(code, value, w),
    }
}
