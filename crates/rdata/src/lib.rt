// RDATA without pointers, as octets or in hexadecimal: the one loop over its pieces that writes. Definitions and laws
// are in specs/.
#![tactic(auto)]

ghost use Rattle.std.specs.Prelude.{◌≡◌, ℕ, List, ◌+◌, ◌*◌, ◌^◌, ◌≤◌, ◌<◌, true, length, map};
ghost use Rattle.octets.specs.Hexadecimal.{hex_octet};
ghost use Rattle.octets.specs.Lists.{each};
ghost use Rattle.octets.specs.Writes.{Writes};
ghost use Rattle.records.specs.Answer.{piece_of};
ghost use Rattle.records.specs.Layout.{pieces};
ghost use Rattle.rdata.specs.Notation.{Laws, plain_laws, hex_laws};
ghost use Rattle.rdata.specs.Written.{pieces_form, PutsForm, PutsRdata, Ends};

use names::{Fault, Limit, name_at};
use octets::Writer;
use records::{Piece, layout_of};

// ---- how octets are written
// `text` is what is written of octets, `width` how much of it each octet has.
pub trait Notation {
    ghost text: { List ℕ → List ℕ };

    ghost width: { ℕ };

    // Writes octets.
    fn put(octets: &[u8], w: &mut Writer)
        requires { w.old.to + 2 * length octets.now < 2 ^ 40 }
        ensures { Writes w.old (text octets.now) w.new };

    ghost laws: { Laws text width };
}

// Octets as they are.
pub struct Plain;

impl Notation for Plain {
    ghost text = { λ l. l };

    ghost width = { 1 };

    ghost laws = { plain_laws };

    fn put(octets: &[u8], w: &mut Writer) {
        w.put_all(octets);
    }
}

// Each octet as two hexadecimal digits.
pub struct Hexadecimal;

impl Notation for Hexadecimal {
    ghost text = { each hex_octet };

    ghost width = { 2 };

    ghost laws = { hex_laws };

    fn put(octets: &[u8], w: &mut Writer) {
        w.put_hex(octets);
    }
}

// ---- RDATA
// Writes RDATA from `start` to `end`, piece by piece of its layout.
fn put_layout<T: Notation>(
    s: &[u8],
    layout: &[Piece],
    start: usize,
    end: usize,
    w: &mut Writer,
) -> Result<(), Fault>
    requires { (length s.now ≤ 65535) × (length layout.now ≤ 3) × (start ≤ end) × (end ≤ length s.now)
        × (w.old.to < 2 ^ 37) }
    ensures { PutsForm T.text (pieces true (map piece_of layout.now) s.now start end start)
        (pieces_form (map piece_of layout.now) s.now start end start) w.old w.new result }
{
    let mut at = start;
    for piece in layout {
        match piece {
            Piece::Fixed(n) => {
                if end - at < *n {
                    return Err(Fault::Short(start));
                }
                let after = at + *n;
                T::put(&s[at..after], w);
                at = after;
            }
            Piece::Name => {
                let (name, after) = name_at(s, Limit::Rdata(start, end), at)?;
                T::put(name.form(), w);
                at = after;
            }
        }
    }
    if at < end {
        return Err(Fault::Surplus(at));
    }
    Ok(())
}

// Writes RDATA of a TYPE, `size` octets from `start` on, each name without pointers. Where RDATA does not fit its layout,
// the pieces before the fault are written. RDATA of no octets fits every layout.
pub fn put_rdata<T: Notation>(
    s: &[u8],
    rtype: u32,
    start: usize,
    size: usize,
    w: &mut Writer,
) -> Result<(), Fault>
    requires { (length s.now ≤ 65535) × (start + size ≤ length s.now) × (w.old.to < 2 ^ 37) }
    ensures puts_rdata { PutsRdata T.text s.now rtype start size w.old w.new result }
    ensures ends { Ends T.width w.new.to w.old.to size }
{
    let end = start + size;
    match layout_of(rtype) {
        Some(layout) if start < end => put_layout::<T>(s, layout, start, end, w),
        _ => {
            T::put(&s[start..end], w);
            Ok(())
        }
    }
}
