// The head of a message's text: the members of the header and its counts.
ghost use Rattle.std.specs.Prelude.{◌+◌, ◌^◌, ◌<◌, ◌≤◌, length};
ghost use Rattle.octets.specs.Writes.{Writes};
ghost use Rattle.print_message.specs.Head.{head_text_at, counts_text};

use octets::{Writer, be16_at};
use print_head::{put_high, put_low, put_number};

// Writes the counts of the sections.
fn put_counts(s: &[u8], w: &mut Writer)
    requires { (w.old.to + 100 < 2 ^ 39) × (12 ≤ length s.now) }
    ensures wrote { Writes w.old (counts_text s.now) w.new }
    ensures upper_bound { w.new.to ≤ w.old.to + 84 }
{
    put_number(b",\"QDCOUNT\":", be16_at(s, 4), w);
    put_number(b",\"ANCOUNT\":", be16_at(s, 6), w);
    put_number(b",\"NSCOUNT\":", be16_at(s, 8), w);
    put_number(b",\"ARCOUNT\":", be16_at(s, 10), w);
}

// Writes the head of the text of a message, whose first 12 octets s has at least.
pub fn put_head(s: &[u8], w: &mut Writer)
    requires { (w.old.to < 2 ^ 38) × (12 ≤ length s.now) }
    ensures wrote { Writes w.old (head_text_at s.now) w.new }
    ensures upper_bound { w.new.to ≤ w.old.to + 257 }
{
    put_number(b"{\"ID\":", be16_at(s, 0), w);
    put_high(s[2], w);
    put_low(s[3], w);
    put_counts(s, w);
}
