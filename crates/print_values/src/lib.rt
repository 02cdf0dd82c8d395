// Writers of the parts of option values: octets in hexadecimal, lists of numbers, the text of EDE.
#![tactic(auto)]

ghost use Rattle.std.specs.Prelude.{◌≡◌, ◌++◌, ◌+◌, ◌*◌, ◌^◌, ◌<◌, ◌≤◌, length};
ghost use Rattle.octets.specs.Lists.{listed};
ghost use Rattle.octets.specs.Decimal.{decimal};
ghost use Rattle.octets.specs.Hexadecimal.{hex_text};
ghost use Rattle.octets.specs.Writes.{Writes};
ghost use Rattle.options.specs.Options.{present, error_tail};
ghost use Rattle.print_values.specs.Entries.{Width, numbers, number_at};

use octets::{Writer, be16_at};
use spelling::put_string;

// Writes `head`, and after it octets in hexadecimal, in quotes.
pub fn put_hex_text(head: &[u8], src: &[u8], w: &mut Writer)
    requires { (w.old.to < 2 ^ 39) × (length head.now < 32) × (length src.now < 65536) }
    ensures wrote { Writes w.old (head.now ++ hex_text src.now) w.new }
    ensures value { w.new.to ≡ w.old.to + length head.now + 2 * length src.now + 2 }
{
    w.put_all(head);
    w.put(b'"');
    w.put_hex(src);
    w.put(b'"');
}

// Writes the number of one or two octets.
fn put_number(octets: &[u8], w: &mut Writer)
    requires { (w.old.to < 2 ^ 39) × Width (length octets.now) }
    ensures wrote { Writes w.old (decimal (number_at (length octets.now) octets.now 0)) w.new }
    ensures upper_bound { w.new.to + 1 ≤ w.old.to + 4 * length octets.now }
{
    w.put_decimal(match octets {
        [x] => u32::from(*x),
        _ => be16_at(octets, 0),
    });
}

// Writes the octets as a list of numbers, of SIZE octets each.
pub fn put_list<const SIZE: usize>(value: &[u8], w: &mut Writer)
    requires { (w.old.to < 2 ^ 38 + 32) × (length value.now < 65536) × Width SIZE }
    ensures wrote { Writes w.old (listed decimal (numbers SIZE value.now)) w.new }
    ensures upper_bound { w.new.to ≤ w.old.to + 4 * length value.now + 2 }
{
    w.put(b'[');
    let mut entries = value.chunks_exact(SIZE);
    if let Some(first) = entries.next() {
        put_number(first, w);
        for entry in entries {
            w.put(b',');
            put_number(entry, w);
        }
    }
    w.put(b']');
}

// The end of EDE: its text, unless there is none
pub fn put_error_tail(text: &[u8], w: &mut Writer)
    requires { (w.old.to < 2 ^ 39) × (length text.now < 65536) }
    ensures wrote { Writes w.old (error_tail (present text.now)) w.new }
    ensures upper_bound { w.new.to ≤ w.old.to + 2 * length text.now + 11 }
{
    if !text.is_empty() {
        w.put_all(b",\"TEXT\":");
        put_string(text, w);
    }
    w.put(b'}');
}
