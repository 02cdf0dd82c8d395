// Writers of the EDNS element. The definitions are in `edns`.
#![tactic(auto)]

ghost use Rattle.std.specs.Prelude.{◌≡◌, true, ◌+◌, ◌*◌, ◌^◌, ◌<◌, ◌≤◌, length};
ghost use Rattle.octets.specs.Lists.{row_text};
ghost use Rattle.octets.specs.Writes.{Writes};
ghost use Rattle.edns.specs.Edns.{rcodes, flags};
ghost use Rattle.edns.specs.Element.{options_rise, options_text, shows_edns, element_text, edns_head_text};

use edns::rcode_name;
use octets::{Writer, be16_at};
use print_options::put_member;

// Writes FLAGS by the DO bit.
#[tactic(auto, unfolding(octets::specs::Lists::row_text, edns::specs::Edns::flags))]
fn put_flags(bit: u32, w: &mut Writer)
    requires { (w.old.to < 2 ^ 38) × (bit < 2) }
    ensures wrote { Writes w.old (row_text bit flags) w.new }
    ensures upper_bound { w.new.to ≤ w.old.to + 6 }
{
    match bit {
        0 => w.put_all(b"[]"),
        _ => w.put_all(b"[\"DO\"]"),
    }
}

// Writes the name of an RCODE; of one without a name, nothing.
fn put_rcode(n: u32, w: &mut Writer)
    requires { w.old.to < 2 ^ 38 }
    ensures wrote { Writes w.old (row_text n rcodes) w.new }
    ensures upper_bound { w.new.to ≤ w.old.to + 9 }
{
    if let Some(name) = rcode_name(n) {
        w.put_all(name);
    }
}

// Writes the element up to its RCODE.
fn put_head(bit: u32, rcode: u32, w: &mut Writer)
    requires { (w.old.to < 2 ^ 37) × (bit < 2) }
    ensures wrote { Writes w.old (edns_head_text bit rcode) w.new }
    ensures upper_bound { w.new.to ≤ w.old.to + 64 }
{
    w.put_all(b"{\"EDNS\":{\"Version\":0,\"FLAGS\":");
    put_flags(bit, w);
    w.put_all(b",\"RCODE\":\"");
    put_rcode(rcode, w);
}

// Writes the members of the options, a comma before each.
fn put_options(rdata: &[u8], w: &mut Writer)
    requires { (w.old.to < 2 ^ 37) × (length rdata.now < 65536) × (options_rise rdata.now ≡ true) }
    ensures wrote { Writes w.old (options_text rdata.now) w.new }
    ensures upper_bound { w.new.to ≤ w.old.to + 64 * length rdata.now }
{
    let mut rest = rdata;
    while !rest.is_empty() {
        let code = be16_at(rest, 0);
        let size = be16_at(rest, 2) as usize;
        let (value, later) = rest[4..].split_at(size);
        w.put(b',');
        put_member(code, value, w);
        rest = later;
    }
}

// Writes the element of a TYPE 41 record that is one: its CLASS, its TTL, the header's RCODE, its RDATA.
pub fn put_edns(class: u32, ttl: u32, rcode: u32, rdata: &[u8], w: &mut Writer)
    requires { (w.old.to < 2 ^ 36) × (rcode < 16) × (length rdata.now < 65536)
        × (shows_edns true ttl rcode rdata.now ≡ true) }
    ensures wrote { Writes w.old (element_text class ttl rcode rdata.now) w.new }
    ensures upper_bound { w.new.to ≤ w.old.to + 128 + 64 * length rdata.now }
{
    put_head(ttl % 65536 / 32768, ttl / 16777216 * 16 + rcode, w);
    w.put_all(b"\",\"UDPSIZE\":");
    w.put_decimal(class);
    put_options(rdata, w);
    w.put_all(b"}}");
}
