// Whether a record is an EDNS element, by its fields and its RDATA. The definitions are in specs/.
#![tactic(auto)]

ghost use Rattle.std.specs.Prelude.{◌≡◌, false, ◌<◌, length, MatchOption};
ghost use Rattle.std.proofs.Math.Option.{none};
ghost use Rattle.octets.specs.Lists.{key?};
ghost use Rattle.edns.specs.Edns.{options_of, rcodes};
ghost use Rattle.edns.specs.Table.{texts, held, Named};
ghost use Rattle.edns.specs.Element.{Short, Divides, options_rise, edns_fields, shows_edns};

use hex_or_octets::Octets;

// ---- RCODE
// The names of RCODEs, by number.
static RCODE_NAMES: [(u32, &[u8]); 20] = [
    (0, b"NoError"),
    (1, b"FormErr"),
    (2, b"ServFail"),
    (3, b"NXDomain"),
    (4, b"NotImp"),
    (5, b"Refused"),
    (6, b"YXDomain"),
    (7, b"YXRRSet"),
    (8, b"NXRRSet"),
    (9, b"NotAuth"),
    (10, b"NotZone"),
    (11, b"DSOTYPENI"),
    (16, b"BADVERS"),
    (17, b"BADKEY"),
    (18, b"BADTIME"),
    (19, b"BADMODE"),
    (20, b"BADNAME"),
    (21, b"BADALG"),
    (22, b"BADTRUNC"),
    (23, b"BADCOOKIE"),
];

// The table of RCODE names.
#[tactic(auto, unfolding(crate::specs::Edns::rcodes))]
pub fn rcode_table() -> &'static [(u32, &'static [u8])]
    ensures { held result.now ≡ texts rcodes }
{
    &RCODE_NAMES
}

// The name of an RCODE, if it has one.
pub fn rcode_name(n: u32) -> Option<&'static [u8]>
    ensures { MatchOption result (key? n rcodes ≡ false) (λ name. Named n rcodes name.now) }
{
    let row = rcode_table().iter().find(|row| row.0 == n)?;
    Some(row.1)
}

// ---- the element
// An option of RDATA, and the RDATA after it.
#[derive(Clone, Copy)]
pub struct FirstOption<O> {
    pub code: u32,
    pub value: O,
    pub rest: O,
}

// The first option of RDATA, if there is room for it.
#[tactic(auto, using(crate::proofs::Ways::first_none))]
pub fn first_option<O: Octets>(rdata: O) -> Option<FirstOption<O>>
    ensures { MatchOption result
        (Short (O.octets rdata) × (0 < length (O.octets rdata) → options_of (O.octets rdata) ≡ none))
        (λ first. Divides (O.octets rdata) first.code (O.octets first.value) (O.octets first.rest)) }
{
    if rdata.count() < 4 {
        return None;
    }
    let code = rdata.be16_at(0);
    let size = rdata.be16_at(2) as usize;
    let rest = rdata.after(4);
    if rest.count() < size {
        return None;
    }
    Some(FirstOption {
        code,
        value: rest.first(size),
        rest: rest.after(size),
    })
}

// Whether RDATA divides exactly into options with codes strictly rising. `least` is the lowest code that the next one
// may have.
#[tactic(auto, using(crate::proofs::Ways::rise_steps))]
fn options_rise<O: Octets>(rdata: O) -> bool
    ensures { result ≡ options_rise (O.octets rdata) }
{
    let mut least = 0;
    let mut rest = rdata;
    while rest.count() > 0 {
        let Some(first) = first_option(rest) else {
            return false;
        };
        if first.code < least {
            return false;
        }
        least = first.code + 1;
        rest = first.rest;
    }
    true
}

// Whether a TYPE 41 record passes the tests without its RDATA: its owner is the root or not, its TTL, the header's
// RCODE.
fn has_edns_fields(root: bool, ttl: u32, rcode: u32) -> bool
    requires { rcode < 16 }
    ensures { result ≡ edns_fields root ttl rcode }
{
    root && ttl / 65536 % 256 == 0
        && matches!(ttl % 65536, 0 | 0x8000)
        && rcode_name(ttl / 16777216 * 16 + rcode).is_some()
}

// Whether a TYPE 41 record is an EDNS element: those tests, and its RDATA. A struct of the first three would be made for
// one call and taken apart there.
#[tactic(auto, unfolding(crate::specs::Element::shows_edns))]
pub fn is_edns<O: Octets>(root: bool, ttl: u32, rcode: u32, rdata: O) -> bool
    requires { rcode < 16 }
    ensures { result ≡ shows_edns root ttl rcode (O.octets rdata) }
{
    has_edns_fields(root, ttl, rcode) && options_rise(rdata)
}
