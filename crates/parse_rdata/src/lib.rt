// RDATA in place in a text, judged and written without a buffer. The definitions are in specs/.
#![tactic(auto)]

ghost use Rattle.std.specs.Prelude.{◌≡◌, ◌+◌, ◌^◌, ◌<◌, false, length, map};
ghost use Rattle.octets.specs.Overlay.{Wrote};
ghost use Rattle.records.specs.Answer.{piece_of};
ghost use Rattle.records.specs.Layout.{pieces, laid?, rdata_fits?};
ghost use Rattle.parse_rdata.specs.Skipping.{name_end};

use hex_or_octets::Octets;
use octets::{put, wide};
use records::{Piece, layout_of};

// Writes the octets.
pub fn put_octets<O: Octets>(octets: O, out: &mut [u8], to: usize) -> usize
    requires { to + length (O.octets octets) < 2 ^ 40 }
    ensures { Wrote out.old to (O.octets octets) out.new result }
{
    if to >= out.len() {
        return to + octets.count();
    }
    let mut next = to;
    for octet in octets.iter() {
        next = put(octet, out, next);
    }
    next
}

// ---- RDATA
// The end of the name at a place, if one is there: pointers are not taken. `place` is the length octet, and `total`
// counts the octets of the labels so far.
fn skip_name<O: Octets>(rdata: O, at: usize) -> Option<usize>
    ensures { result ≡ name_end (O.octets rdata) at }
{
    let size = rdata.count();
    let mut place = at;
    let mut total = 0;
    loop {
        if place >= size {
            return None;
        }
        let x = wide(rdata.octet(place));
        if x == 0 {
            return Some(place + 1);
        }
        if x > 63 {
            return None;
        }
        if size - place < x + 1 {
            return None;
        }
        let more = total + (x + 1);
        if more > 254 {
            return None;
        }
        total = more;
        place += x + 1;
    }
}

// Whether RDATA, without pointers, is what a layout says.
fn follows<O: Octets>(layout: &[Piece], rdata: O) -> bool
    ensures { result ≡ laid? (pieces false (map piece_of layout.now) (O.octets rdata) 0 (length (O.octets rdata)) 0) }
{
    let size = rdata.count();
    let mut at = 0;
    for piece in layout {
        match piece {
            Piece::Fixed(n) => {
                if size - at < *n {
                    return false;
                }
                at += *n;
            }
            Piece::Name => {
                let Some(next) = skip_name(rdata, at) else {
                    return false;
                };
                at = next;
            }
        }
    }
    at >= size
}

// Whether RDATA, without pointers, is what the layout of its TYPE says.
pub fn fits_layout<O: Octets>(rtype: u32, rdata: O) -> bool
    ensures { result ≡ rdata_fits? rtype (O.octets rdata) }
{
    match layout_of(rtype) {
        Some(layout) if rdata.count() > 0 => follows(layout, rdata),
        _ => true,
    }
}
