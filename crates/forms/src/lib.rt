// The uncompressed form of a message: each name is written without pointers, and RDLENGTH is adjusted. It is defined in
// the specs/ of `records`; what its writers do is defined here.
#![tactic(auto)]

ghost use Rattle.std.specs.Prelude.{◌≡◌, ℕ, List, ◌+◌, ◌*◌, ◌^◌, ◌≤◌, ◌<◌, ◌++◌, length, IfOk};
ghost use Rattle.octets.specs.Fields.{be16};
ghost use Rattle.octets.specs.Overlay.{Wrote};
ghost use Rattle.records.specs.Read.{Entry};
ghost use Rattle.forms.specs.Putting.{Part, question_part_at, record_part_at, PutsSized, WritesEntry, Reached};
ghost use Rattle.forms.specs.Putting.{section_run, WritesSection, message_run};
ghost use Rattle.forms.specs.Uncompressed.{Uncompressed};

use names::{Fault, Name};
use octets::{Refusal, Rule, Writer, be16_at, put_all, put_be16, put_be32};
use rdata::{Plain, put_rdata};
use records::{Question, Record, question_at, record_at};

// Where writing has come to: the offset in the message, the place in the form, and how many entries have TYPE 41.
#[derive(Clone, Copy)]
struct Progress {
    at: usize,
    to: usize,
    opts: usize,
}

// Writes a name, TYPE and CLASS.
fn put_named(name: &Name, rtype: u32, class: u32, out: &mut [u8], to: usize) -> usize
    requires { (to < 2 ^ 30) × (rtype < 65536) × (class < 65536) }
    ensures wrote { Wrote out.old to (name.now ++ be16 rtype ++ be16 class) out.new result }
    ensures upper_bound { result ≤ to + 259 }
{
    let typed = put_all(name.form(), out, to);
    let classed = put_be16(rtype, out, typed);
    put_be16(class, out, classed)
}

// Writes RDLENGTH and RDATA: RDATA two octets further on, and then its length before it.
fn put_sized(s: &[u8], head: &Record, out: &mut [u8], to: usize) -> Result<usize, Fault>
    requires { (length s.now ≤ 65535) × (head.now.rdata + head.now.rdlength ≤ length s.now)
        × (to + 2 ≤ 255 * head.now.rdata) }
    ensures puts_sized { PutsSized s.now head.now out.old to out.new result }
    ensures upper_bound { IfOk result (λ r. r ≤ 255 * (head.now.rdata + head.now.rdlength)) }
{
    let inside = to + 2;
    let mut w = Writer::at(out, inside);
    put_rdata::<Plain>(s, head.rtype, head.rdata, head.rdlength, &mut w)?;
    let end = w.place();
    let _rdata = put_be16((end - inside) as u32, out, to);
    Ok(end)
}

// ---- entries
// A kind of entry. `part_at` is the form and the TYPE of the one at an offset.
trait Kind {
    ghost part_at: { List ℕ → ℕ → Entry Part };

    // Writes the entry at an offset.
    fn put(s: &[u8], at: usize, out: &mut [u8], to: usize) -> Result<Progress, Fault>
        requires { (length s.now ≤ 65535) × (at ≤ length s.now) × (to ≤ 255 * at) }
        ensures writes_entry { WritesEntry (part_at s.now at) out.old to out.new result }
        ensures reached { IfOk result (λ p. Reached p (length s.now)) }
        ensures upper_bound { IfOk result (λ p. p.opts ≤ 1) };
}

impl Kind for Question {
    ghost part_at = { question_part_at };

    fn put(s: &[u8], at: usize, out: &mut [u8], to: usize) -> Result<Progress, Fault> {
        let asked = question_at(s, at)?;
        Ok(Progress {
            at: asked.next,
            to: put_named(&asked.name, asked.rtype, asked.class, out, to),
            opts: usize::from(asked.rtype == 41),
        })
    }
}

impl Kind for Record {
    ghost part_at = { record_part_at };

    fn put(s: &[u8], at: usize, out: &mut [u8], to: usize) -> Result<Progress, Fault> {
        let head = record_at(s, at)?;
        let classed = put_named(&head.owner, head.rtype, head.class, out, to);
        let timed = put_be32(head.ttl, out, classed);
        let end = put_sized(s, &head, out, timed)?;
        Ok(Progress {
            at: head.next(),
            to: end,
            opts: usize::from(head.rtype == 41),
        })
    }
}

// Writes `count` entries from an offset on.
fn put_section<K: Kind>(
    s: &[u8],
    count: u32,
    at: usize,
    out: &mut [u8],
    to: usize,
) -> Result<Progress, Fault>
    requires { (length s.now ≤ 65535) × (at ≤ length s.now) × (to ≤ 255 * at) }
    ensures writes_section { WritesSection (section_run K.part_at s.now count at) out.old to out.new result }
    ensures reached { IfOk result (λ p. Reached p (length s.now)) }
{
    let mut done = Progress { at, to, opts: 0 };
    for _turn in 0..count {
        let next = K::put(s, done.at, out, done.to)?;
        done = Progress {
            at: next.at,
            to: next.to,
            opts: done.opts + next.opts,
        };
    }
    Ok(done)
}

// Writes the header's octets and the sections by the header's counts. TYPE 41 is counted in the additional section.
fn put_message(s: &[u8], out: &mut [u8]) -> Result<Progress, Fault>
    requires { (length s.now ≤ 65535) × (12 ≤ length s.now) }
    ensures { WritesSection (message_run s.now) out.old 0 out.new result }
{
    let header = put_all(&s[0..12], out, 0);
    let questions = put_section::<Question>(s, be16_at(s, 4), 12, out, header)?;
    let answers = put_section::<Record>(s, be16_at(s, 6), questions.at, out, questions.to)?;
    let authority = put_section::<Record>(s, be16_at(s, 8), answers.at, out, answers.to)?;
    put_section::<Record>(s, be16_at(s, 10), authority.at, out, authority.to)
}

// ---- the message
// A message's uncompressed form: its length, and the number of TYPE 41 records of the additional section.
#[derive(Clone, Copy, Debug, PartialEq, Eq)]
pub struct Form {
    pub length: usize,
    pub opts: usize,
}

// The uncompressed form of the message. A first run, over no octets, finds a refusal and the form's length. A second
// one writes the form if the buffer has room for it: `to_text::convert` lends none and only measures, a caller that
// wants the form lends it.
pub fn uncompress(s: &[u8], out: &mut [u8]) -> Result<Form, Refusal>
    ensures { Uncompressed s.now out.old result out.new }
{
    if s.len() > 65535 {
        return Err(Refusal {
            rule: Rule::LongMessage,
            place: 0,
        });
    }
    if s.len() < 12 {
        return Err(Refusal {
            rule: Rule::Cut,
            place: 0,
        });
    }
    let end = put_message(s, &mut out[..0])?;
    if end.at < s.len() {
        return Err(Refusal {
            rule: Rule::LeftOver,
            place: end.at,
        });
    }
    if end.to > 65535 {
        return Err(Refusal {
            rule: Rule::LongForm,
            place: 0,
        });
    }
    if end.to <= out.len() {
        let _again = put_message(s, out);
    }
    Ok(Form {
        length: end.to,
        opts: end.opts,
    })
}
