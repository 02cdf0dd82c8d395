// The answer of a line program to one line. The definitions are in specs/.
#![tactic(auto)]

ghost use Rattle.std.specs.Prelude.{◌≡◌, ◌+◌, ◌^◌, ◌≤◌, ◌<◌, ℕ, List, length};
ghost use Rattle.octets.specs.Overlay.{Wrote};
ghost use Rattle.octets.specs.Writes.{Writes};
ghost use Rattle.hex_lines.specs.Hex.{unhexed, hex_left};
ghost use Rattle.strict.specs.Reading.{to_wire};
ghost use Rattle.line_answers.specs.Answers.{refusal_line, within_line, limited_left, text_answer, wire_answer, printed};
ghost use Rattle.line_answers.specs.Answers.{text_line, text_left, wire_line, wire_left};
ghost use Rattle.line_answers.specs.Answers.{text_line_lem, text_left_lem, wire_line_lem, wire_left_lem};

use octets::{Writer, put, put_hex};

// A line program: its answer to a line.
pub trait Program {
    // How long a line may be.
    ghost MOST: { ℕ };

    const MOST: usize;

    // How long the answer may be.
    ghost longest: { ℕ };

    // The answer to a line that is not too long, and what it leaves in the message buffer.
    ghost answer: { List ℕ → List ℕ };

    ghost left: { List ℕ → List ℕ → List ℕ };

    // The answer to any line, and what it leaves there, in the words of docs/FORMAT.md.
    ghost line_answer: { List ℕ → List ℕ };

    ghost line_left: { List ℕ → List ℕ → List ℕ };

    ghost same_answer: { line_answer ≡ within_line MOST answer };

    ghost same_left: { line_left ≡ limited_left MOST left };

    fn put_answer(line: &[u8], message: &mut [u8; 4096], text: &mut [u8]) -> usize
        requires { (length line.now ≤ MOST) × (length text.old ≡ 65537) }
        ensures wrote { Wrote text.old 0 (answer line.now) text.new result }
        ensures upper_bound { result ≤ longest }
        ensures message_after { message.new ≡ left line.now message.old };

    ghost limits: { (MOST ≤ 65536) × (32 ≤ longest) × (longest ≤ 65536) };
}

// Reads messages in hexadecimal, and writes the text of each.
#[derive(Clone, Copy)]
pub struct ToText;

// Reads texts, and writes the message of each in hexadecimal.
#[derive(Clone, Copy)]
pub struct ToWire;

impl Program for ToText {
    ghost use Rattle.std.proofs.Common.{rules};

    ghost MOST = { 8192 };

    const MOST: usize = 8192;

    ghost longest = { 65536 };

    ghost answer = { text_answer };

    ghost left = { λ line message. hex_left (unhexed line) message };

    ghost line_answer = { text_line };

    ghost line_left = { text_left };

    ghost same_answer = { text_line_lem };

    ghost same_left = { text_left_lem };

    ghost limits = { Prim.search rules };

    fn put_answer(line: &[u8], message: &mut [u8; 4096], text: &mut [u8]) -> usize {
        let Some(n) = hex_lines::unhex(line, message) else {
            return refuse(30, 0, text);
        };
        match to_text::convert(&message[..n], &mut text[..65536]) {
            Ok(size) => size,
            Err(refusal) => refuse(refusal.rule.number(), refusal.place, text),
        }
    }
}

impl Program for ToWire {
    ghost use Rattle.std.proofs.Common.{rules};

    ghost MOST = { 65536 };

    const MOST: usize = 65536;

    ghost longest = { 8192 };

    ghost answer = { wire_answer };

    ghost left = { λ line message. (to_wire line message).buffer };

    ghost line_answer = { wire_line };

    ghost line_left = { wire_left };

    ghost same_answer = { wire_line_lem };

    ghost same_left = { wire_left_lem };

    ghost limits = { Prim.search rules };

    fn put_answer(line: &[u8], message: &mut [u8; 4096], text: &mut [u8]) -> usize {
        match to_wire::read(line, message) {
            Ok(n) => put_hex(&message[..n], text, 0),
            Err(refusal) => refuse(refusal.rule.number(), refusal.place, text),
        }
    }
}

// Writes a refusal.
pub fn put_refusal(number: u32, place: u32, w: &mut Writer)
    requires { w.old.to < 2 ^ 38 }
    ensures wrote { Writes w.old (refusal_line number place) w.new }
    ensures upper_bound { w.new.to ≤ w.old.to + 32 }
{
    w.put_all(b"refused ");
    w.put_decimal(number);
    w.put_all(b" at ");
    w.put_decimal(place);
}

// Writes a refusal as the answer to a line.
fn refuse(number: u32, place: usize, text: &mut [u8]) -> usize
    requires { place < 2 ^ 32 }
    ensures wrote { Wrote text.old 0 (refusal_line number place) text.new result }
    ensures upper_bound { result ≤ 32 }
{
    let mut w = Writer::at(text, 0);
    put_refusal(number, place as u32, &mut w);
    w.place()
}

// Writes the answer of a program to a line, and a newline after it.
pub fn put_line<P: Program>(line: &[u8], message: &mut [u8; 4096], text: &mut [u8]) -> usize
    requires { length text.old ≡ 65537 }
    ensures wrote { Wrote text.old 0 (printed (within_line P.MOST P.answer) line.now) text.new result }
    ensures upper_bound { result ≤ P.longest + 1 }
    ensures message_after { message.new ≡ limited_left P.MOST P.left line.now message.old }
{
    let n = if line.len() > P::MOST {
        refuse(31, 0, text)
    } else {
        P::put_answer(line, message, text)
    };
    put(b'\n', text, n)
}
