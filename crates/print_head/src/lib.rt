// Members of the head of a message's text. Definitions and laws are in specs/.
#![tactic(auto)]

ghost use Rattle.std.specs.Prelude.{◌+◌, ◌^◌, ◌<◌, ◌≤◌, length};
ghost use Rattle.octets.specs.Lists.{row_text};
ghost use Rattle.octets.specs.Writes.{Writes};
ghost use Rattle.json_text.specs.Document.{ad_titles};
ghost use Rattle.print_head.specs.Head.{number_text, high_text, low_text};

use octets::Writer;

// Writes a member: its name with what is around it, and a number.
pub fn put_number(title: &[u8], n: u32, w: &mut Writer)
    requires { w.old.to + length title.now < 2 ^ 39 }
    ensures wrote { Writes w.old (number_text title.now n) w.new }
    ensures upper_bound { w.new.to ≤ w.old.to + length title.now + 10 }
{
    w.put_all(title);
    w.put_decimal(n);
}

// Writes the members of the octet of QR, Opcode, AA, TC and RD.
pub fn put_high(x: u8, w: &mut Writer)
    requires { w.old.to + 100 < 2 ^ 39 }
    ensures wrote { Writes w.old (high_text x) w.new }
    ensures upper_bound { w.new.to ≤ w.old.to + 84 }
{
    let x = u32::from(x);
    put_number(b",\"QR\":", x / 128, w);
    put_number(b",\"Opcode\":", x / 8 % 16, w);
    put_number(b",\"AA\":", x / 4 % 2, w);
    put_number(b",\"TC\":", x / 2 % 2, w);
    put_number(b",\"RD\":", x % 2, w);
}

// Writes AD's title, after Z's member where Z is set.
#[tactic(auto, unfolding(octets::specs::Lists::row_text, json_text::specs::Document::ad_titles))]
fn put_ad_title(z: u32, w: &mut Writer)
    requires { (w.old.to + 12 < 2 ^ 39) × (z < 2) }
    ensures wrote { Writes w.old (row_text z ad_titles) w.new }
    ensures upper_bound { w.new.to ≤ w.old.to + 12 }
{
    match z {
        0 => w.put_all(b",\"AD\":"),
        _ => w.put_all(b",\"Z\":1,\"AD\":"),
    }
}

// Writes the members of the octet of RA, Z, AD, CD and RCODE.
pub fn put_low(x: u8, w: &mut Writer)
    requires { w.old.to + 100 < 2 ^ 39 }
    ensures wrote { Writes w.old (low_text x) w.new }
    ensures upper_bound { w.new.to ≤ w.old.to + 73 }
{
    let x = u32::from(x);
    put_number(b",\"RA\":", x / 128, w);
    put_ad_title(x / 64 % 2, w);
    w.put_decimal(x / 32 % 2);
    put_number(b",\"CD\":", x / 16 % 2, w);
    put_number(b",\"RCODE\":", x % 16, w);
}
