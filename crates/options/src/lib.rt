// EDNS options: the syntax of their values by their codes, and tests of their octets. The definitions are in specs/.
#![tactic(auto)]

ghost use Rattle.std.specs.Prelude.{◌≡◌};
ghost use Rattle.octets.specs.Lists.{present?, all};
ghost use Rattle.spelling.specs.Spelling.{printable?};
ghost use Rattle.options.specs.Codes.{defined, listed};
ghost use Rattle.options.specs.Options.{zero?, syntax_of, shape};

use hex_or_octets::Octets;

// What the value of an option's member looks like.
#[derive(Clone, Copy, Debug, PartialEq, Eq)]
pub enum Syntax {
    HexObject,
    OctetList,
    Expiry,
    HexList,
    Word,
    Padding,
    WordList,
    ExtendedError,
}

impl Syntax {
    // The syntax of an option's value, if the table has a row of its code.
    #[tactic(auto, unfolding(octets::specs::Lists::lookup, crate::specs::Options::rows, crate::specs::Options::syntax_of))]
    pub fn of(code: u32) -> Option<Syntax>
        ensures { listed result ≡ syntax_of code }
    {
        match code {
            3 => Some(Syntax::HexObject),
            5 | 6 | 7 => Some(Syntax::OctetList),
            9 => Some(Syntax::Expiry),
            10 => Some(Syntax::HexList),
            11 => Some(Syntax::Word),
            12 => Some(Syntax::Padding),
            14 => Some(Syntax::WordList),
            15 => Some(Syntax::ExtendedError),
            _ => None,
        }
    }

    // Whether a value has the shape of this syntax.
    #[tactic(auto, using(crate::specs::Codes::shape_test))]
    pub fn takes<O: Octets>(self, value: O) -> bool
        ensures { result ≡ present? (shape (defined self) (O.octets value)) }
    {
        let size = value.count();
        match self {
            Syntax::HexObject | Syntax::OctetList | Syntax::Padding => true,
            // no octets, or four
            Syntax::Expiry => matches!(size, 0 | 4),
            // 8 octets, or 16 to 40
            Syntax::HexList => matches!(size, 8 | 16..=40),
            Syntax::Word => size == 2,
            Syntax::WordList => size % 2 == 0,
            // two octets and text
            Syntax::ExtendedError => size >= 2 && is_text(value.after(2)),
        }
    }
}

// Every octet is 0x20 to 0x7E.
fn is_text<O: Octets>(text: O) -> bool
    ensures { result ≡ all printable? (O.octets text) }
{
    text.iter().all(|x| matches!(x, 0x20..=0x7E))
}

// Every octet is zero.
pub fn all_zero<O: Octets>(value: O) -> bool
    ensures { result ≡ all zero? (O.octets value) }
{
    value.iter().all(|x| x == 0)
}

// Whether the value of an option has the shape that the table gives to its code.
#[tactic(auto, using(crate::specs::Shapes::syntax_none))]
pub fn has_shape<O: Octets>(code: u32, value: O) -> bool
    ensures { result ≡ present? (shape (syntax_of code) (O.octets value)) }
{
    Syntax::of(code).is_some_and(|syntax| syntax.takes(value))
}
