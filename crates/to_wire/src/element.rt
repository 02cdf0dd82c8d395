// The EDNS element: read, judged and written.
ghost use Rattle.std.specs.Prelude.{◌≡◌, ◌≤◌};
ghost use Rattle.parse_tokens.specs.Cursor.{Safe};
ghost use Rattle.to_wire.specs.Element.{RcodeRead, EdnsHeadRead, edns_fits?, OptFronted, EdnsStep};

use crate::members::options;
use octets::{put_all, put_be16, put_be32};
use parse_tables::{flags, rcode};
use parse_tokens::{Cursor, Stop, demand, literal, number, number_then, reserve};

// RCODE with its title, and the title of UDPSIZE.
fn full_rcode(text: &[u8], c: Cursor) -> Result<(Cursor, u32), Stop>
    requires { Safe text.now c }
    ensures { RcodeRead text.now c result }
{
    let c = literal(text, c, b",\"RCODE\":\"")?;
    let (c, full) = rcode(text, c)?;
    let c = literal(text, c, b"\",\"UDPSIZE\":")?;
    Ok((c, full))
}

// The element's fields before its options; `full` is its RCODE.
#[derive(Clone, Copy)]
struct EdnsHead {
    version: u64,
    flags: u32,
    full: u32,
    size: u64,
}

// Version, FLAGS, RCODE and UDPSIZE.
fn read_edns_head(text: &[u8], c: Cursor) -> Result<(Cursor, EdnsHead), Stop>
    requires { Safe text.now c }
    ensures { EdnsHeadRead text.now c result }
{
    let (c, version) = number_then(text, c, b",\"FLAGS\":")?;
    let (c, flags) = flags(text, c)?;
    let (c, full) = full_rcode(text, c)?;
    let (c, size) = number(text, c)?;
    let head = EdnsHead {
        version,
        flags,
        full,
        size,
    };
    Ok((c, head))
}

// Version is 0, RCODE modulo 16 is the header's, and UDPSIZE is a number of 16 bits.
fn edns_fits(head: EdnsHead, rcode: u32) -> bool
    ensures { result ≡ edns_fits? head.version head.full rcode head.size }
{
    head.version == 0 && head.full % 16 == rcode && head.size < 65536
}

// Writes what comes before the options, which end at `to`: the root, TYPE 41, CLASS, TTL and RDLENGTH.
fn put_edns_head(head: EdnsHead, out: &mut [u8], start: usize, to: usize)
    requires { (start ≤ 65535) × (to ≤ 65535) }
    ensures { OptFronted head start to out.old out.new }
{
    if to < start + 11 {
        return;
    }
    let length = to - (start + 11);
    let class = (head.size % 65536) as u32;
    let ttl = head.full / 16 % 256 * 16777216 + head.flags % 2 * 32768;
    let next = put_all(b"\x00\x00\x29", out, start);
    let next = put_be16(class, out, next);
    let next = put_be32(ttl, out, next);
    put_be16(length as u32, out, next);
}

// The element after the title of its first member, Version. `rcode` is the header's.
pub fn edns(text: &[u8], c: Cursor, rcode: u32, out: &mut [u8]) -> Result<Cursor, Stop>
    requires { Safe text.now c }
    ensures { EdnsStep rcode text.now (Ok c) out.old result out.new }
{
    let (c, head) = read_edns_head(text, c)?;
    let end = options(text, reserve(c, 11), out)?;
    let end = demand(end, edns_fits(head, rcode));
    put_edns_head(head, out, c.to, end.to);
    Ok(end)
}
