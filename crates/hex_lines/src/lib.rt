// A line in hexadecimal to the octets that it spells. The definitions are in specs/.
#![tactic(auto)]

ghost use Rattle.std.specs.Prelude.{◌≡◌, ◌+◌, ◌*◌, ◌^◌, [], ◌∷◌, ◌<◌, ◌≤◌, length, Some, is_some, IsSome, IfSome};
ghost use Rattle.octets.specs.Overlay.{Wrote};
ghost use Rattle.hex_lines.specs.Hex.{hex_value, unhexed, Spells, Unhexed};

// The value of a hexadecimal digit in either letter case: its last four bits, and 9 more for a letter.
#[tactic(auto, unfolding(crate::specs::Hex::hex_value))]
fn digit_value(c: u8) -> u8
    requires { IsSome (hex_value c) }
    ensures value { hex_value c ≡ Some result }
    ensures upper_bound { result < 16 }
{
    c % 16 + c / 64 * 9
}

// Whether a line is an even number of digits.
fn is_hex(line: &[u8]) -> bool
    ensures { result ≡ is_some (unhexed line.now) }
{
    line.len() % 2 == 0 && line.iter().all(|c| c.is_ascii_hexdigit())
}

// Writes the octets of a line of digits, and returns their number.
fn put_octets(line: &[u8], out: &mut [u8]) -> usize
    requires { IsSome (unhexed line.now) × (length line.now ≤ 2 * length out.old) }
    ensures { Spells line.now out.old out.new result }
{
    let mut rest = line;
    let mut to = 0;
    while let [high, low, tail @ ..] = rest {
        out[to] = digit_value(*high) * 16 + digit_value(*low);
        to += 1;
        rest = tail;
    }
    to
}

// Writes the octets that a line spells to the start of `out`, and returns their number. A line that is not hexadecimal
// changes nothing there.
pub fn unhex(line: &[u8], out: &mut [u8]) -> Option<usize>
    requires { length line.now ≤ 2 * length out.old }
    ensures unhexed { Unhexed line.now out.old result out.new }
    ensures octets_within { IfSome result (λ n. n ≤ length out.old) }
{
    if is_hex(line) {
        Some(put_octets(line, out))
    } else {
        None
    }
}
