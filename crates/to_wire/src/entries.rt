// Questions, records and elements of a text, and the arrays of them. What is judged and written of each is defined in
// specs/.
ghost use Rattle.std.specs.Prelude.{◌≡◌, ◌+◌, ◌≤◌, ◌<◌, Ok};
ghost use Rattle.octets.specs.Lists.{paired};
ghost use Rattle.parse_tokens.specs.Cursor.{Safe};
ghost use Rattle.parse_tokens.specs.Step.{Step};
ghost use Rattle.records.specs.Message.{question?, question_form};
ghost use Rattle.strict.specs.Parser.{question_codec};
ghost use Rattle.to_wire.specs.Reading.{WordRead, TypeClassRead, RdataFits, RdataRead, could_be};
ghost use Rattle.to_wire.specs.Reading.{TtlRead, TailRead, RecordRead};
ghost use Rattle.to_wire.specs.Items.{TitledRead, ItemRead};
ghost use Rattle.to_wire.specs.Sections.{QuestionEntryRead, OneRead, NextRead, InsideRead, SectionRead};
ghost use Rattle.to_wire.specs.Sections.{at_most_65536, bit, one_more};

use crate::element::edns;
use crate::labels::name;
use crate::values::put_hex;
use edns::is_edns;
use hex_or_octets::{HexDigits, Octets};
use parse_rdata::fits_layout;
use parse_tokens::{
    Cursor, Stop, advance, comma, demand, emit, furthest, hex, literal, number, put_number,
    put_ttl, signed,
};

// What was read of an entry: whether it is of TYPE 41, whether it is an EDNS element, whether it is an ordinary record
// that could be one.
#[derive(Clone, Copy)]
struct Entry {
    opt: bool,
    shown: bool,
    eligible: bool,
}

// A number of two octets, and what it is.
#[tactic(auto, using(crate::specs::Reading::word_read, crate::specs::Reading::word_stop))]
fn u16_field(text: &[u8], c: Cursor, out: &mut [u8]) -> Result<(Cursor, u64), Stop>
    requires { Safe text.now c }
    ensures { WordRead text.now (Ok c) out.old result out.new }
{
    let (c, value) = number(text, c)?;
    Ok((put_number::<2>(c, value, out), value))
}

// TYPE and CLASS, and what TYPE is.
#[tactic(auto, using(crate::specs::Reading::type_class_read))]
fn type_class(text: &[u8], c: Cursor, out: &mut [u8]) -> Result<(Cursor, u64), Stop>
    requires { Safe text.now c }
    ensures { TypeClassRead text.now (Ok c) out.old result out.new }
{
    let c = literal(text, c, b",\"TYPE\":")?;
    let (c, rtype) = u16_field(text, c, out)?;
    let c = literal(text, c, b",\"CLASS\":")?;
    let (c, _class) = u16_field(text, c, out)?;
    Ok((c, rtype))
}

// A question.
fn question(text: &[u8], c: Cursor, out: &mut [u8]) -> Result<Cursor, Stop>
    requires { Safe text.now c }
    ensures { Step question? question_form question_codec.parse text.now (Ok c) out.old result out.new }
{
    let c = literal(text, c, b"{\"NAME\":")?;
    let c = name(text, c, out)?;
    let (c, _rtype) = type_class(text, c, out)?;
    literal(text, c, b"}")
}

// Whether RDATA has the layout of its TYPE; a TYPE that is out of range has none.
#[tactic(auto, using(crate::specs::Reading::fits_any, crate::specs::Reading::fits_layout_lem))]
fn rdata_fits(rdata: HexDigits, rtype: u64) -> bool
    ensures { RdataFits (paired rdata.entry.digits.now) rtype result }
{
    rtype > 65535 || fits_layout(rtype as u32, rdata)
}

// RDATA of a TYPE: judged, and written after its length in two octets.
#[tactic(auto, using(crate::specs::Reading::rdata_stop))]
fn rdata<'a>(
    text: &'a [u8],
    c: Cursor,
    rtype: u64,
    out: &mut [u8],
) -> Result<(Cursor, HexDigits<'a>), Stop>
    requires { Safe text.now c }
    ensures { RdataRead rtype text.now (Ok c) out.old result out.new }
{
    let (c, rdata) = hex(text, c)?;
    let c = demand(c, rdata_fits(rdata, rtype));
    let size = rdata.count() as u64;
    let c = emit(c, &size.to_be_bytes()[6..], out);
    Ok((put_hex(rdata, c, out), rdata))
}

// Whether a record with these fields could be an EDNS element.
fn shows_edns(rdata: HexDigits, rtype: u64, root: bool, ttl: Option<u32>, rcode: u32) -> bool
    requires { rcode < 16 }
    ensures { result ≡ could_be rtype root ttl rcode (paired rdata.entry.digits.now) }
{
    match ttl {
        Some(bits) => rtype == 41 && is_edns(root, bits, rcode, rdata),
        None => false,
    }
}

// TTL with the title of RDATA after it: its bits, if it is in range.
#[tactic(auto, using(crate::specs::Reading::ttl_read, crate::specs::Reading::ttl_stop))]
fn ttl_field(text: &[u8], c: Cursor, out: &mut [u8]) -> Result<(Cursor, Option<u32>), Stop>
    requires { Safe text.now c }
    ensures { TtlRead text.now (Ok c) out.old result out.new }
{
    let (c, bits) = signed(text, c)?;
    let c = literal(text, c, b",\"RDATAHEX\":")?;
    Ok((put_ttl(c, bits, out), bits))
}

// TTL and RDATA, and the end of a record.
#[tactic(auto, using(crate::specs::Reading::tail_read))]
fn ttl_rdata(
    text: &[u8],
    c: Cursor,
    rtype: u64,
    root: bool,
    rcode: u32,
    out: &mut [u8],
) -> Result<(Cursor, Entry), Stop>
    requires { Safe text.now c × (rcode < 16) }
    ensures { TailRead rtype root rcode text.now (Ok c) out.old result out.new }
{
    let (c, ttl) = ttl_field(text, c, out)?;
    let (c, rdata) = rdata(text, c, rtype, out)?;
    let c = literal(text, c, b"}")?;
    let entry = Entry {
        opt: rtype == 41,
        shown: false,
        eligible: shows_edns(rdata, rtype, root, ttl, rcode),
    };
    Ok((c, entry))
}

// A record, from its owner on.
#[tactic(auto, using(crate::specs::Reading::record_read_lem, crate::specs::Reading::record_stop))]
fn record(text: &[u8], c: Cursor, rcode: u32, out: &mut [u8]) -> Result<(Cursor, Entry), Stop>
    requires { Safe text.now c × (rcode < 16) }
    ensures { RecordRead rcode text.now (Ok c) out.old result out.new }
{
    let owner = name(text, c, out)?;
    let root = owner.at == c.at + 3;
    let (c, rtype) = type_class(text, owner, out)?;
    let c = literal(text, c, b",\"TTL\":")?;
    ttl_rdata(text, c, rtype, root, rcode, out)
}

// A record with its first title.
fn record_element(
    text: &[u8],
    c: Cursor,
    rcode: u32,
    out: &mut [u8],
) -> Result<(Cursor, Entry), Stop>
    requires { Safe text.now c × (rcode < 16) }
    ensures { TitledRead rcode text.now (Ok c) out.old result out.new }
{
    let c = literal(text, c, b"{\"NAME\":")?;
    record(text, c, rcode, out)
}

// An element of the additional section.
#[tactic(auto, using(crate::specs::Items::item_steps))]
fn additional_element(
    text: &[u8],
    c: Cursor,
    rcode: u32,
    out: &mut [u8],
) -> Result<(Cursor, Entry), Stop>
    requires { Safe text.now c × (rcode < 16) }
    ensures { ItemRead rcode text.now (Ok c) out.old result out.new }
{
    match literal(text, c, b"{\"EDNS\":{\"Version\":") {
        Ok(c) => {
            let c = edns(text, c, rcode, out)?;
            let entry = Entry {
                opt: true,
                shown: true,
                eligible: false,
            };
            Ok((c, entry))
        }
        Err(far) => furthest(record_element(text, c, rcode, out), far),
    }
}

// What an array holds: questions, records, or elements of the additional section.
#[derive(Clone, Copy)]
pub enum Element {
    Question,
    Record,
    Additional,
}

// The entries of an array: how many, how many of TYPE 41 (65,536 counts for every number above), whether an EDNS
// element is there, whether a record that could be one is.
#[derive(Clone, Copy)]
pub struct Section {
    pub count: u64,
    pub opts: u64,
    pub shown: bool,
    pub eligible: bool,
}

// A question as an entry.
#[tactic(auto, using(crate::specs::Sections::asked_read, crate::specs::Sections::asked_stop))]
fn question_entry(text: &[u8], c: Cursor, out: &mut [u8]) -> Result<(Cursor, Entry), Stop>
    requires { Safe text.now c }
    ensures { QuestionEntryRead text.now (Ok c) out.old result out.new }
{
    let c = question(text, c, out)?;
    let entry = Entry {
        opt: false,
        shown: false,
        eligible: false,
    };
    Ok((c, entry))
}

// One entry of an array.
fn array_entry(
    text: &[u8],
    c: Cursor,
    element: Element,
    rcode: u32,
    out: &mut [u8],
) -> Result<(Cursor, Entry), Stop>
    requires { Safe text.now c × (rcode < 16) }
    ensures { OneRead element rcode text.now (Ok c) out.old result out.new }
{
    match element {
        Element::Question => question_entry(text, c, out),
        Element::Record => record_element(text, c, rcode, out),
        Element::Additional => additional_element(text, c, rcode, out),
    }
}

// One more, or not.
fn count_up(n: u64, more: bool) -> u64
    requires { n ≤ 65536 }
    ensures { result ≡ at_most_65536 (n + bit more) }
{
    (n + u64::from(more)).min(65536)
}

impl Section {
    // With one entry more.
    fn with(self, entry: Entry) -> Section
        requires { (self.count ≤ 65536) × (self.opts ≤ 65536) }
        ensures { result ≡ one_more self entry }
    {
        Section {
            count: count_up(self.count, true),
            opts: count_up(self.opts, entry.opt),
            shown: self.shown || entry.shown,
            eligible: self.eligible || entry.eligible,
        }
    }
}

// An entry, and the comma before it; the first has none.
fn comma_entry(
    text: &[u8],
    c: Cursor,
    first: bool,
    element: Element,
    rcode: u32,
    out: &mut [u8],
) -> Result<(Cursor, Entry), Stop>
    requires { Safe text.now c × (rcode < 16) }
    ensures { NextRead element first rcode text.now (Ok c) out.old result out.new }
{
    let c = comma(text, c, first)?;
    array_entry(text, c, element, rcode, out)
}

// The entries of an array, and the bracket after them.
#[tactic(auto, using(crate::specs::Sections::gathered_start, crate::specs::Sections::gathered_more))]
fn elements(
    text: &[u8],
    c: Cursor,
    element: Element,
    rcode: u32,
    out: &mut [u8],
) -> Result<(Cursor, Section), Stop>
    requires { Safe text.now c × (rcode < 16) }
    ensures { InsideRead element rcode text.now (Ok c) out.old result out.new }
{
    let mut d = c;
    let mut first = true;
    let mut section = Section {
        count: 0,
        opts: 0,
        shown: false,
        eligible: false,
    };
    while text.get(d.at) != Some(&b']') {
        let (next, entry) = comma_entry(text, d, first, element, rcode, out)?;
        section = section.with(entry);
        d = next;
        first = false;
    }
    Ok((advance(d, d.at + 1), section))
}

// An array of entries.
pub fn read_section(
    text: &[u8],
    c: Cursor,
    element: Element,
    rcode: u32,
    out: &mut [u8],
) -> Result<(Cursor, Section), Stop>
    requires { Safe text.now c × (rcode < 16) }
    ensures { SectionRead element rcode text.now (Ok c) out.old result out.new }
{
    let c = literal(text, c, b"[")?;
    elements(text, c, element, rcode, out)
}
