// Questions and records of a message as the elements of its text. Definitions and laws are in specs/.
#![tactic(auto)]

ghost use Rattle.std.specs.Prelude.{◌≡◌, ◌+◌, ◌*◌, ◌^◌, ◌<◌, ◌≤◌, length};
ghost use Rattle.octets.specs.Writes.{Writes};
ghost use Rattle.print_entry.specs.Prints.{Readable, Prints, Within};
ghost use Rattle.print_entry.specs.Elements.{start_text, fields_text, ordinary_text, rcode_of, shows?};
ghost use Rattle.print_entry.specs.Elements.{shown_text, question_text_at, record_text_at, text_at};

use edns::is_edns;
use names::Name;
use octets::Writer;
use print_edns::put_edns;
use print_head::put_number;
use rdata::{Hexadecimal, put_rdata};
use records::{Record, question_at, record_at};
use spelling::{put_name, put_signed};

// An element of an array: a question; or a record, with whether its section is the additional one and has one TYPE 41
// record, which can then show as an EDNS element.
#[derive(Clone, Copy)]
pub enum Element {
    Question,
    Record(bool),
}

// Writes the members that a question and a record begin with: NAME, TYPE, CLASS.
fn put_start(name: &Name, rtype: u32, class: u32, w: &mut Writer)
    requires { w.old.to < 2 ^ 37 }
    ensures wrote { Writes w.old (start_text name.now rtype class) w.new }
    ensures upper_bound { w.new.to ≤ w.old.to + 1326 }
{
    w.put_all(b"{\"NAME\":");
    put_name(name.form(), w);
    put_number(b",\"TYPE\":", rtype, w);
    put_number(b",\"CLASS\":", class, w);
}

// Writes a record up to its RDATA.
fn put_fields(head: &Record, w: &mut Writer)
    requires { w.old.to < 2 ^ 36 }
    ensures wrote { Writes w.old (fields_text head.now.owner head.now.rtype head.now.class head.now.ttl) w.new }
    ensures upper_bound { w.new.to ≤ w.old.to + 1356 }
{
    put_start(&head.owner, head.rtype, head.class, w);
    w.put_all(b",\"TTL\":");
    put_signed(head.ttl, w);
    w.put_all(b",\"RDATAHEX\":");
}

// Writes a record as it is.
fn put_ordinary(s: &[u8], head: &Record, w: &mut Writer)
    requires { (length s.now ≤ 65535) × (head.now.rdata + head.now.rdlength ≤ length s.now) × (w.old.to < 2 ^ 36)
        × Readable (ordinary_text s.now head.now) }
    ensures prints { Prints (ordinary_text s.now head.now) w.old w.new (head.now.rdata + head.now.rdlength) }
    ensures upper_bound { w.new.to ≤ w.old.to + 2419 + 2 * head.now.rdlength }
{
    put_fields(head, w);
    w.put(b'"');
    // RDATA of a readable record has no fault
    let _fits = put_rdata::<Hexadecimal>(s, head.rtype, head.rdata, head.rdlength, w);
    w.put_all(b"\"}");
}

// The header's RCODE.
fn rcode_of(s: &[u8]) -> u32
    requires { 12 ≤ length s.now }
    ensures value { result ≡ rcode_of s.now }
    ensures upper_bound { result < 16 }
{
    u32::from(s[3] % 16)
}

// Whether a record is an EDNS element.
fn is_element(s: &[u8], head: &Record, lone: bool) -> bool
    requires { (12 ≤ length s.now) × (length s.now ≤ 65535) × (head.now.rdata + head.now.rdlength ≤ length s.now) }
    ensures { result ≡ shows? s.now head.now lone }
{
    let root = head.owner.form().len() == 1;
    lone && head.rtype == 41 && is_edns(root, head.ttl, rcode_of(s), head.rdata_in(s))
}

// Writes the question at an offset, which has no fault, and returns the offset after it.
fn put_question(s: &[u8], at: usize, w: &mut Writer) -> usize
    requires { (length s.now ≤ 65535) × (w.old.to < 2 ^ 36) × Readable (question_text_at s.now at) }
    ensures prints { Prints (question_text_at s.now at) w.old w.new result }
    ensures within { Within at result w.old w.new (length s.now) }
{
    let asked = question_at(s, at).unwrap();
    put_start(&asked.name, asked.rtype, asked.class, w);
    w.put(b'}');
    asked.next
}

// Writes a record: as an EDNS element, or as it is.
fn put_shown(s: &[u8], head: &Record, lone: bool, w: &mut Writer)
    requires { (12 ≤ length s.now) × (length s.now ≤ 65535) × (head.now.rdata + head.now.rdlength ≤ length s.now)
        × (w.old.to < 2 ^ 36) × Readable (shown_text lone s.now head.now) }
    ensures prints { Prints (shown_text lone s.now head.now) w.old w.new (head.now.rdata + head.now.rdlength) }
    ensures upper_bound { w.new.to ≤ w.old.to + 2419 + 64 * head.now.rdlength }
{
    if is_element(s, head, lone) {
        put_edns(head.class, head.ttl, rcode_of(s), head.rdata_in(s), w);
    } else {
        put_ordinary(s, head, w);
    }
}

// Writes the record at an offset, which has no fault, and returns the offset after it.
fn put_record(s: &[u8], at: usize, lone: bool, w: &mut Writer) -> usize
    requires { (12 ≤ length s.now) × (length s.now ≤ 65535) × (w.old.to < 2 ^ 36)
        × Readable (record_text_at lone s.now at) }
    ensures prints { Prints (record_text_at lone s.now at) w.old w.new result }
    ensures within { Within at result w.old w.new (length s.now) }
{
    let head = record_at(s, at).unwrap();
    put_shown(s, &head, lone, w);
    head.next()
}

// Writes the element at an offset, which has no fault, and returns the offset after it.
pub fn put_element(s: &[u8], element: Element, at: usize, w: &mut Writer) -> usize
    requires { (12 ≤ length s.now) × (length s.now ≤ 65535) × (w.old.to < 2 ^ 36)
        × Readable (text_at element s.now at) }
    ensures prints { Prints (text_at element s.now at) w.old w.new result }
    ensures within { Within at result w.old w.new (length s.now) }
{
    match element {
        Element::Question => put_question(s, at, w),
        Element::Record(lone) => put_record(s, at, lone, w),
    }
}
