// How names, signed numbers and strings are spelled. The definitions are in specs/.
#![tactic(auto)]

ghost use Rattle.std.specs.Prelude.{◌≡◌, ◌∷◌, ◌+◌, ◌*◌, ◌^◌, ◌<◌, ◌≤◌, length};
ghost use Rattle.octets.specs.Writes.{Writes};
ghost use Rattle.spelling.specs.Spelling.{three_digits, spelled, label_text, signed, signed_text, string_octet};
ghost use Rattle.spelling.specs.Spelling.{string_text};
ghost use Rattle.spelling.specs.Form.{form_text};

use octets::Writer;

// Writes an octet as `\\DDD`, DDD three decimal digits.
fn put_digits(x: u8, w: &mut Writer)
    requires { w.old.to < 2 ^ 39 }
    ensures { Writes w.old (92 ∷ 92 ∷ three_digits x) w.new }
{
    w.put_all(&[
        b'\\',
        b'\\',
        b'0' + x / 100,
        b'0' + x / 10 % 10,
        b'0' + x % 10,
    ]);
}

// The width of the spelling of an octet of a label: a dot is `\\.`, a backslash `\\\\`, the quote and every octet outside
// 0x21 to 0x7E `\\DDD`, any other octet itself.
fn width(x: u8) -> usize
    ensures value { result ≡ length (spelled x) }
    ensures lower_bound { (1 ≤ result) × (result ≤ 5) }
{
    match x {
        b'.' => 3,
        b'\\' => 4,
        b'"' | 0..=0x20 | 0x7F..=0xFF => 5,
        _ => 1,
    }
}

// Writes an octet of a label. Without room only its width is found.
fn put_spelled(x: u8, w: &mut Writer)
    requires { w.old.to < 2 ^ 39 }
    ensures wrote { Writes w.old (spelled x) w.new }
    ensures upper_bound { w.new.to ≤ w.old.to + 5 }
{
    if w.room() <= w.place() {
        w.skip(width(x));
        return;
    }
    match x {
        b'.' => w.put_all(b"\\\\."),
        b'\\' => w.put_all(b"\\\\\\\\"),
        b'"' | 0..=0x20 | 0x7F..=0xFF => put_digits(x, w),
        _ => w.put(x),
    }
}

// Writes a label and its dot.
fn put_label(label: &[u8], w: &mut Writer)
    requires { w.old.to + 5 * length label.now < 2 ^ 39 }
    ensures wrote { Writes w.old (label_text label.now) w.new }
    ensures upper_bound { w.new.to ≤ w.old.to + 5 * length label.now + 1 }
{
    for &x in label {
        put_spelled(x, w);
    }
    w.put(b'.');
}

// Writes the name whose octets without pointers are `form`, in quotes: each label with its dot, and for the root alone
// a dot.
pub fn put_name(form: &[u8], w: &mut Writer)
    requires { (w.old.to < 2 ^ 38) × (length form.now ≤ 255) }
    ensures wrote { Writes w.old (form_text form.now) w.new }
    ensures upper_bound { w.new.to ≤ w.old.to + 1281 }
{
    w.put(b'"');
    if let [0, ..] = form {
        w.put(b'.');
    }
    let mut left = form;
    while let [size @ 1.., octets @ ..] = left {
        let (label, next) = octets.split_at(usize::from(*size).min(octets.len()));
        put_label(label, w);
        left = next;
    }
    w.put(b'"');
}

// Writes the 32 bits of a TTL as the number that they are in two's complement.
pub fn put_signed(n: u32, w: &mut Writer)
    requires { w.old.to < 2 ^ 38 }
    ensures wrote { Writes w.old (signed_text (signed n)) w.new }
    ensures upper_bound { w.new.to ≤ w.old.to + 11 }
{
    let ttl = n.cast_signed();
    if ttl.is_negative() {
        w.put(b'-');
    }
    w.put_decimal(ttl.unsigned_abs());
}

// Writes an octet of a string.
#[tactic(auto, unfolding(crate::specs::Spelling::string_octet))]
fn put_string_octet(x: u8, w: &mut Writer)
    requires { w.old.to + 2 < 2 ^ 40 }
    ensures wrote { Writes w.old (string_octet x) w.new }
    ensures upper_bound { w.new.to ≤ w.old.to + 2 }
{
    match x {
        b'"' => w.put_all(b"\\\""),
        b'\\' => w.put_all(b"\\\\"),
        _ => w.put(x),
    }
}

// Writes a string in quotes.
pub fn put_string(src: &[u8], w: &mut Writer)
    requires { w.old.to + 2 * length src.now + 2 < 2 ^ 40 }
    ensures wrote { Writes w.old (string_text src.now) w.new }
    ensures upper_bound { w.new.to ≤ w.old.to + 2 * length src.now + 2 }
{
    w.put(b'"');
    for &x in src {
        put_string_octet(x, w);
    }
    w.put(b'"');
}
