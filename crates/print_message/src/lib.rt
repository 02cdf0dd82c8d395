// The text of a message by its octets. Definitions and laws are in specs/.
#![tactic(auto)]

ghost use Rattle.std.specs.Prelude.{◌+◌, ◌*◌, ◌^◌, ◌<◌, ◌≤◌, length};
ghost use Rattle.octets.specs.Fields.{be16_at};
ghost use Rattle.octets.specs.Overlay.{Wrote};
ghost use Rattle.print_entry.specs.Prints.{Readable, Prints};
ghost use Rattle.print_message.specs.Arrays.{array_text, section_text, front_text, from_authority, Arrives, Placed};
ghost use Rattle.print_message.specs.Whole.{profile_text, AcceptedMessage};

use head::put_head;
use octets::{Writer, be16_at};
use print_entry::{Element, put_element};

mod head;

// Writes an array of `count` elements without a fault, from the one at an offset on, and returns the offset after them.
fn put_array(s: &[u8], element: Element, count: u32, at: usize, w: &mut Writer) -> usize
    requires { (12 ≤ length s.now) × (length s.now ≤ 65535) × (at ≤ length s.now) × (w.old.to ≤ 4096 * at + 400)
        × Readable (array_text element s.now count at) }
    ensures prints { Prints (array_text element s.now count at) w.old w.new result }
    ensures arrives { Arrives at result w.old w.new (length s.now) }
{
    w.put(b'[');
    let mut next = at;
    for turn in 0..count {
        if turn > 0 {
            w.put(b',');
        }
        next = put_element(s, element, next, w);
    }
    w.put(b']');
    next
}

// Writes a section's title and array, without a fault, from where the section before it ended, and returns the offset
// where this one ends; `place` is the offset of its count.
fn put_section(
    s: &[u8],
    at: usize,
    title: &[u8],
    element: Element,
    place: usize,
    w: &mut Writer,
) -> usize
    requires { (12 ≤ length s.now) × (length s.now ≤ 65535) × (length title.now ≤ 18) × (place ≤ 10)
        × Placed at w.old (length s.now) place
        × Readable (section_text title.now element s.now (be16_at s.now place) at) }
    ensures prints { Prints (section_text title.now element s.now (be16_at s.now place) at) w.old w.new result }
    ensures placed { Placed result w.new (length s.now) (place + 2) }
{
    let count = be16_at(s, place);
    w.put_all(title);
    put_array(s, element, count, at, w)
}

// Writes the question and the answer section, without a fault, and returns the offset after them.
fn put_front(s: &[u8], at: usize, w: &mut Writer) -> usize
    requires { (12 ≤ length s.now) × (length s.now ≤ 65535) × Placed at w.old (length s.now) 4
        × Readable (front_text s.now at) }
    ensures prints { Prints (front_text s.now at) w.old w.new result }
    ensures placed { Placed result w.new (length s.now) 8 }
{
    let answers = put_section(s, at, b",\"questionRRs\":", Element::Question, 4, w);
    put_section(s, answers, b",\"answerRRs\":", Element::Record(false), 6, w)
}

// Writes the authority and the additional section, without a fault, and the brace, and returns the offset after them.
fn put_back(s: &[u8], at: usize, lone: bool, w: &mut Writer) -> usize
    requires { (12 ≤ length s.now) × (length s.now ≤ 65535) × Placed at w.old (length s.now) 8
        × Readable (from_authority lone s.now at) }
    ensures { Prints (from_authority lone s.now at) w.old w.new result }
{
    let additional = put_section(s, at, b",\"authorityRRs\":", Element::Record(false), 8, w);
    let end = put_section(
        s,
        additional,
        b",\"additionalRRs\":",
        Element::Record(lone),
        10,
        w,
    );
    w.put(b'}');
    end
}

// Writes the text of an accepted message; `lone` says whether its additional section has one TYPE 41 record.
pub fn put_text(s: &[u8], lone: bool, out: &mut [u8]) -> usize
    requires { AcceptedMessage s.now lone }
    ensures { Wrote out.old 0 (profile_text s.now) out.new result }
{
    let mut w = Writer::at(out, 0);
    put_head(s, &mut w);
    let authority = put_front(s, 12, &mut w);
    let _end = put_back(s, authority, lone, &mut w);
    w.place()
}
