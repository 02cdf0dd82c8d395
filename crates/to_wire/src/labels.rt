// Names and strings of a text.
ghost use Rattle.std.specs.Prelude.{◌+◌, ◌^◌, ◌<◌, ◌≤◌, ◌≡◌, length, Ok};
ghost use Rattle.std.specs.Option.{unwrap_or};
ghost use Rattle.parse_tokens.specs.Cursor.{Safe};
ghost use Rattle.to_wire.specs.Label.{Stored, LabelAt};
ghost use Rattle.to_wire.specs.Name.{grown, LabelsAt, LabelsRead, RootOrLabels, NameRead};
ghost use Rattle.to_wire.specs.String.{CharsRead, StringRead};

use octets::put;
use parse_octets::{char_at, octet};
use parse_tokens::{Cursor, Stop, advance, demand, emit, furthest, literal, reserve};

// Writes `v` at the place n after `to`, unless n is more than 63.
#[tactic(auto, using(crate::specs::Label::store_steps))]
fn store(n: usize, v: u8, out: &mut [u8], to: usize)
    requires { to < 2 ^ 32 }
    ensures { Stored out.old to n v out.new }
{
    if n <= 63 {
        put(v, out, to + n);
    }
}

// A label and the dot after it: the place after it, and its size. Its length and its octets are written from `to` on,
// unless it is too long.
#[tactic(auto, using(crate::specs::Label::label_steps))]
fn label_at(text: &[u8], start: usize, out: &mut [u8], to: usize) -> Result<(usize, usize), Stop>
    requires { (start ≤ length text.now) × (to < 2 ^ 32) }
    ensures { LabelAt text.now start out.old to result out.new }
{
    let mut at = start;
    let mut size = 0;
    loop {
        let letter = octet(text, at)?;
        at = letter.at;
        size += 1;
        store(size, letter.value, out, to);
        if text.get(at) == Some(&b'.') {
            if size <= 63 {
                put(size as u8, out, to);
            }
            return Ok((at + 1, size));
        }
    }
}

// The size of a name's labels with one of `label` octets more, if a name has them.
fn grown(size: Option<usize>, label: usize) -> Option<usize>
    requires { unwrap_or size 0 ≤ 254 }
    ensures { result ≡ grown size label }
{
    match size {
        Some(size) if label <= 63 && size + label < 254 => Some(size + 1 + label),
        _ => None,
    }
}

// Labels and the quote after them: the place after it, and their size, if a name has them; then they are written from
// `to` on.
#[tactic(auto, using(crate::specs::Name::labels_steps))]
fn labels_at(
    text: &[u8],
    start: usize,
    out: &mut [u8],
    to: usize,
) -> Result<(usize, Option<usize>), Stop>
    requires { (start ≤ length text.now) × (to ≤ 65535) }
    ensures { LabelsAt text.now start out.old to result out.new }
{
    let mut at = start;
    let mut size = Some(0);
    loop {
        let (end, label) = label_at(text, at, out, to + size.unwrap_or(0))?;
        at = end;
        size = grown(size, label);
        if text.get(at) == Some(&b'"') {
            return Ok((at + 1, size));
        }
    }
}

// Labels and the quote after them.
#[tactic(auto, using(crate::specs::Name::name_steps))]
fn labels(text: &[u8], c: Cursor, out: &mut [u8]) -> Result<Cursor, Stop>
    requires { Safe text.now c }
    ensures { LabelsRead text.now (Ok c) out.old result out.new }
{
    let (at, size) = labels_at(text, c.at, out, c.to)?;
    let c = advance(c, at);
    match size {
        Some(size) => Ok(emit(reserve(c, size), &[0], out)),
        None => Ok(demand(c, false)),
    }
}

// The root or labels, and the quote after them.
#[tactic(auto, using(crate::specs::Name::root_is, crate::specs::Name::root_not))]
fn root_or_labels(text: &[u8], c: Cursor, out: &mut [u8]) -> Result<Cursor, Stop>
    requires { Safe text.now c }
    ensures { RootOrLabels text.now (Ok c) out.old result out.new }
{
    match literal(text, c, b".\"") {
        Ok(c) => Ok(emit(c, &[0], out)),
        Err(far) => furthest(labels(text, c, out), far),
    }
}

// A name in quotes.
pub fn name(text: &[u8], c: Cursor, out: &mut [u8]) -> Result<Cursor, Stop>
    requires { Safe text.now c }
    ensures { NameRead text.now (Ok c) out.old result out.new }
{
    let c = literal(text, c, b"\"")?;
    root_or_labels(text, c, out)
}

// The octets of a string, and the quote after them. They are written as they are read.
#[tactic(auto, using(crate::specs::String::chars_steps))]
fn chars(text: &[u8], c: Cursor, out: &mut [u8]) -> Result<Cursor, Stop>
    requires { Safe text.now c }
    ensures { CharsRead text.now (Ok c) out.old result out.new }
{
    let mut d = c;
    while text.get(d.at) != Some(&b'"') {
        let letter = char_at(text, d.at)?;
        d = emit(advance(d, letter.at), &[letter.value], out);
    }
    Ok(advance(d, d.at + 1))
}

// A string in quotes.
pub fn string(text: &[u8], c: Cursor, out: &mut [u8]) -> Result<Cursor, Stop>
    requires { Safe text.now c }
    ensures { StringRead text.now (Ok c) out.old result out.new }
{
    let c = literal(text, c, b"\"")?;
    chars(text, c, out)
}
