// The head of a text: the header's numbers, Z and the counts.
ghost use Rattle.std.specs.Prelude.{◌≡◌, ◌≤◌, ◌<◌, IfOk};
ghost use Rattle.parse_tokens.specs.Cursor.{Safe};
ghost use Rattle.parse_tokens.specs.Fields.{FieldPut};
ghost use Rattle.to_wire.specs.Head.{high, low, two_of, HighRead, LowRead, CountsRead, PutCounts};
ghost use Rattle.to_wire.specs.Head.{NumbersRead, PutHeader, HeadRead};

use parse_tables::ad_title;
use parse_tokens::{Cursor, Stop, demand, emit, literal, number, number_then, put_number};

#[derive(Clone, Copy, PartialEq, Eq)]
pub struct Counts {
    pub questions: u64,
    pub answers: u64,
    pub authority: u64,
    pub additional: u64,
}

// The numbers of the head: ID, the octets of the flags if each flag is in range, and the counts.
#[derive(Clone, Copy)]
struct HeadNumbers {
    id: u64,
    high: Option<u8>,
    low: Option<u8>,
    counts: Counts,
}

// What the rest needs of the head.
#[derive(Clone, Copy)]
pub struct Header {
    pub rcode: u32,
    pub counts: Counts,
}

// The octet of these flags, if each is in range.
fn high_octet(qr: u64, opcode: u64, aa: u64, tc: u64, rd: u64) -> Option<u8>
    ensures { result ≡ high (qr, (opcode, (aa, (tc, rd)))) }
{
    if qr < 2 && opcode < 16 && aa < 2 && tc < 2 && rd < 2 {
        return Some((qr * 128 + opcode * 8 + aa * 4 + tc * 2 + rd) as u8);
    }
    None
}

// The octet of these flags, if each is in range.
fn low_octet(ra: u64, z: u32, ad: u64, cd: u64, rcode: u64) -> Option<u8>
    requires { z < 2 }
    ensures { result ≡ low ((ra, z), (ad, (cd, rcode))) }
{
    if ra < 2 && ad < 2 && cd < 2 && rcode < 16 {
        return Some((ra * 128 + u64::from(z) * 64 + ad * 32 + cd * 16 + rcode) as u8);
    }
    None
}

// QR, Opcode, AA, TC, RD.
#[tactic(auto, using(crate::specs::Head::high_read))]
fn high_flags(text: &[u8], c: Cursor) -> Result<(Cursor, Option<u8>), Stop>
    requires { Safe text.now c }
    ensures { HighRead text.now c result }
{
    let (c, qr) = number_then(text, c, b",\"Opcode\":")?;
    let (c, opcode) = number_then(text, c, b",\"AA\":")?;
    let (c, aa) = number_then(text, c, b",\"TC\":")?;
    let (c, tc) = number_then(text, c, b",\"RD\":")?;
    let (c, rd) = number_then(text, c, b",\"RA\":")?;
    Ok((c, high_octet(qr, opcode, aa, tc, rd)))
}

// RA, Z, AD, CD, RCODE.
#[tactic(auto, using(crate::specs::Head::low_read))]
fn low_flags(text: &[u8], c: Cursor) -> Result<(Cursor, Option<u8>), Stop>
    requires { Safe text.now c }
    ensures { LowRead text.now c result }
{
    let (c, ra) = number(text, c)?;
    let (c, z) = ad_title(text, c)?;
    let (c, ad) = number_then(text, c, b",\"CD\":")?;
    let (c, cd) = number_then(text, c, b",\"RCODE\":")?;
    let (c, rcode) = number_then(text, c, b",\"QDCOUNT\":")?;
    Ok((c, low_octet(ra, z, ad, cd, rcode)))
}

// QDCOUNT, ANCOUNT, NSCOUNT, ARCOUNT.
fn read_counts(text: &[u8], c: Cursor) -> Result<(Cursor, Counts), Stop>
    requires { Safe text.now c }
    ensures { CountsRead text.now c result }
{
    let (c, questions) = number_then(text, c, b",\"ANCOUNT\":")?;
    let (c, answers) = number_then(text, c, b",\"NSCOUNT\":")?;
    let (c, authority) = number_then(text, c, b",\"ARCOUNT\":")?;
    let (c, additional) = number(text, c)?;
    let counts = Counts {
        questions,
        answers,
        authority,
        additional,
    };
    Ok((c, counts))
}

// Writes the octets of the flags.
fn put_flags(c: Cursor, high: Option<u8>, low: Option<u8>, out: &mut [u8]) -> Cursor
    requires { c.to ≤ 65535 }
    ensures { FieldPut (two_of high low) c out.old result out.new }
{
    match (high, low) {
        (Some(high), Some(low)) => emit(c, &[high, low], out),
        _ => demand(c, false),
    }
}

// Writes the counts.
#[tactic(auto, using(crate::specs::Head::put_counts_lem))]
fn put_counts(c: Cursor, counts: Counts, out: &mut [u8]) -> Cursor
    requires { c.to ≤ 65535 }
    ensures { PutCounts counts c out.old result out.new }
{
    let c = put_number::<2>(c, counts.questions, out);
    let c = put_number::<2>(c, counts.answers, out);
    let c = put_number::<2>(c, counts.authority, out);
    put_number::<2>(c, counts.additional, out)
}

// Reads the head.
fn read_numbers(text: &[u8], c: Cursor) -> Result<(Cursor, HeadNumbers), Stop>
    requires { Safe text.now c }
    ensures { NumbersRead text.now c result }
{
    let c = literal(text, c, b"{\"ID\":")?;
    let (c, id) = number_then(text, c, b",\"QR\":")?;
    let (c, high) = high_flags(text, c)?;
    let (c, low) = low_flags(text, c)?;
    let (c, counts) = read_counts(text, c)?;
    let numbers = HeadNumbers {
        id,
        high,
        low,
        counts,
    };
    Ok((c, numbers))
}

// Writes the header.
fn put_header(c: Cursor, numbers: HeadNumbers, out: &mut [u8]) -> Cursor
    requires { c.to ≤ 65535 }
    ensures { PutHeader numbers c out.old result out.new }
{
    let c = put_number::<2>(c, numbers.id, out);
    let c = put_flags(c, numbers.high, numbers.low, out);
    put_counts(c, numbers.counts, out)
}

// Reads the head and writes the header.
#[tactic(auto, using(crate::specs::Head::head_read_lem))]
pub fn head(text: &[u8], c: Cursor, out: &mut [u8]) -> Result<(Cursor, Header), Stop>
    requires { Safe text.now c }
    ensures head_read { HeadRead text.now c out.old result out.new }
    ensures rcode_bound { IfOk result (λ x. x.1.rcode < 16) }
{
    let (c, numbers) = read_numbers(text, c)?;
    let rcode = match numbers.low {
        Some(low) => u32::from(low % 16),
        None => 0,
    };
    let header = Header {
        rcode,
        counts: numbers.counts,
    };
    Ok((put_header(c, numbers, out), header))
}
