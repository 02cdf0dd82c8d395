// The line programs: what is done with a piece of the input. The definitions are in specs/.
#![tactic(auto)]

ghost use Rattle.std.specs.Prelude.{◌≡◌, ◌==◌, ◌+◌, ◌≤◌, ◌++◌, [], length, take};
ghost use Rattle.std.specs.List.{position};
ghost use Rattle.octets.specs.Overlay.{Wrote};
ghost use Rattle.line_answers.specs.Answers.{printed, within_line};
ghost use Rattle.lines.specs.Programs.{most_kept, answer_room};
ghost use Rattle.lines.specs.Pieces.{Answers};

use line_answers::{Program, put_line};
use octets::put_all;
use std::marker::Model;

// Room for the longest answer, and a newline after it.
const ANSWER_ROOM: usize = 65537;

// The octets of a line that has not ended, as many of them as may be needed.
#[derive(Drop)]
pub struct Line {
    octets: [u8; 65537],
    used: usize,
}

impl Model for Line {
    ghost use Rattle.std.specs.Prelude.{List, ℕ, ◌≤◌, take};

    ghost Value = { List ℕ };

    ghost view = { λ l. take l.used l.octets };

    ghost invariant = { λ l. l.used ≤ 65537 };
}

impl Line {
    pub fn new() -> Line
        ensures { result ≡ [] }
    {
        Line {
            octets: [0; 65537],
            used: 0,
        }
    }

    pub fn is_empty(&self) -> bool
        ensures { result ≡ (length self.now == 0) }
    {
        self.used == 0
    }

    // Adds octets, as far as there is room.
    pub fn add(&mut self, octets: &[u8])
        ensures { self.new ≡ take most_kept (self.old ++ octets.now) }
    {
        let n = octets.len().min(65537 - self.used);
        self.used = put_all(&octets[..n], &mut self.octets, self.used);
    }

    fn clear(&mut self)
        ensures { self.new ≡ [] }
    {
        self.used = 0;
    }

    fn octets(&self) -> &[u8]
        ensures { result.now ≡ self.now }
    {
        &self.octets[..self.used]
    }
}

// The offset of the first newline.
fn newline(input: &[u8]) -> Option<usize>
    ensures { result ≡ position (λ c. c == 10) input.now }
{
    input.iter().position(|octet| *octet == b'\n')
}

// Writes the answer to a line of which some octets may be kept and the others are in `input`. None are kept after it.
fn answer_rest<P: Program>(
    line: &mut Line,
    input: &[u8],
    message: &mut [u8; 4096],
    text: &mut [u8],
) -> usize
    requires { length text.old ≡ answer_room }
    ensures wrote { Wrote text.old 0 (printed (within_line P.MOST P.answer) (line.old ++ input.now)) text.new result }
    ensures upper_bound { result ≤ answer_room }
    ensures line_after { line.new ≡ [] }
{
    if line.is_empty() {
        return put_line::<P>(input, message, text);
    }
    line.add(input);
    let n = put_line::<P>(line.octets(), message, text);
    line.clear();
    n
}

// How many octets of the piece were taken, how many were written.
#[derive(Clone, Copy)]
pub struct Answered {
    pub taken: usize,
    pub size: usize,
}

// Takes a piece of the input: writes the answers to the lines that end in it, each while there is room for the longest
// answer, and keeps the line that does not end in it or whose answer has no room.
pub fn answer_piece<P: Program>(line: &mut Line, input: &[u8], out: &mut [u8]) -> Answered
    ensures answers { Answers (within_line P.MOST P.answer) line.old input.now out.old
        line.new out.new result.taken result.size }
    ensures upper_bound { (result.taken ≤ length input.now) × (result.size ≤ length out.old) }
{
    let mut message = [0; 4096];
    let mut taken = 0;
    let mut size = 0;
    loop {
        let rest = &input[taken..];
        let end = newline(rest).unwrap_or(rest.len());
        if end == rest.len() || out.len() - size < ANSWER_ROOM {
            line.add(&rest[..end]);
            return Answered {
                taken: taken + end,
                size,
            };
        }
        size += answer_rest::<P>(
            line,
            &rest[..end],
            &mut message,
            &mut out[size..size + ANSWER_ROOM],
        );
        taken += end + 1;
    }
}
