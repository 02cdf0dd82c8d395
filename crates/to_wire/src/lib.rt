// The strict reader: from a text to the message that it says. Definitions are in strict/specs, the promise in specs/.
#![tactic(auto)]

ghost use Rattle.std.specs.Prelude.{◌≡◌, ◌<◌};
ghost use Rattle.octets.specs.Calls.{answer_of, Call};
ghost use Rattle.strict.specs.Parser.{document};
ghost use Rattle.strict.specs.Reading.{Reads};
ghost use Rattle.parse_tokens.specs.Cursor.{Safe};
ghost use Rattle.parse_tokens.specs.Step.{Step};
ghost use Rattle.to_wire.specs.Meant.{document_meant?, document_octets};
ghost use Rattle.to_wire.specs.Whole.{start, ArrayRead, settled_section, consistent?};

use entries::{Element, Section, read_section};
use head::{Counts, head};
use octets::{Refusal, Rule};
use parse_tokens::{Cursor, Stop, demand, literal};

mod element;
mod entries;
mod head;
mod labels;
mod members;
mod values;

// A title and the array after it.
fn array(
    text: &[u8],
    c: Cursor,
    title: &[u8],
    element: Element,
    rcode: u32,
    out: &mut [u8],
) -> Result<(Cursor, Section), Stop>
    requires { Safe text.now c × (rcode < 16) }
    ensures { ArrayRead title.now element rcode text.now (Ok c) out.old result out.new }
{
    let c = literal(text, c, title)?;
    read_section(text, c, element, rcode, out)
}

// Whether an EDNS element is the only entry of TYPE 41, and no record that could be one is written as an ordinary
// record.
fn settled(section: Section) -> bool
    ensures { result ≡ settled_section section }
{
    let lone = section.opts == 1;
    (!section.shown || lone) && !(section.eligible && lone)
}

// Whether the counts are those of the arrays, and nothing of the additional section is left unsettled.
fn consistent(told: Counts, found: Counts, additional: Section) -> bool
    ensures { result ≡ consistent? told found additional }
{
    told == found && settled(additional)
}

// Reads the text from its first octet on.
fn document(text: &[u8], out: &mut [u8]) -> Result<Cursor, Stop>
    ensures { Step document_meant? document_octets document.parse text.now (Ok start) out.old result out.new }
{
    let start = Cursor {
        at: 0,
        to: 0,
        meaningful: true,
        bounded: true,
    };
    let (c, head) = head(text, start, out)?;
    let rcode = head.rcode;
    let (c, questions) = array(text, c, b",\"questionRRs\":", Element::Question, rcode, out)?;
    let (c, answers) = array(text, c, b",\"answerRRs\":", Element::Record, rcode, out)?;
    let (c, authority) = array(text, c, b",\"authorityRRs\":", Element::Record, rcode, out)?;
    let (c, additional) = array(
        text,
        c,
        b",\"additionalRRs\":",
        Element::Additional,
        rcode,
        out,
    )?;
    let c = literal(text, c, b"}")?;
    let found = Counts {
        questions: questions.count,
        answers: answers.count,
        authority: authority.count,
        additional: additional.count,
    };
    Ok(demand(c, consistent(head.counts, found, additional)))
}

// Writes the message that a text says. A first run over no octets finds every refusal.
pub fn read(text: &[u8], message: &mut [u8]) -> Result<usize, Refusal>
    ensures { Reads
        (record {
          input = text.now;
          before = message.old;
          answer = answer_of result;
          after = message.new;
        }) }
{
    let end = document(text, &mut message[..0]).map_err(|stop| Rule::Grammar.at(stop))?;
    if end.at < text.len() {
        return Err(Rule::Grammar.at(end.at));
    }
    if !end.meaningful {
        return Err(Rule::Meaning.at(0));
    }
    if !end.bounded {
        return Err(Rule::Limit.at(0));
    }
    if end.to > message.len() {
        return Err(Rule::MessageRoom.at(0));
    }
    let _again = document(text, message);
    Ok(end.to)
}
