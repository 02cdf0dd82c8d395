// The two conversions as programs in C see them, and the versions of the library and of the format; velvetshelf_c
// exports them.
#![tactic(auto)]

ghost use Rattle.std.specs.Prelude.{◌≡◌};
ghost use Rattle.octets.specs.Calls.{answer_of};
ghost use Rattle.json_text.specs.Converted.{Converts};
ghost use Rattle.strict.specs.Reading.{Reads};
ghost use Rattle.velvetshelf.specs.Calls.{answer_in};

use octets::Refusal;
use to_text::convert;
use to_wire::read;

// Tells C an answer: 0, and the length in `value`; or the refusal's number, and its place in `value`.
fn tell(answer: Result<usize, Refusal>, value: &mut u64) -> u32
    ensures { answer_in result value.new ≡ answer_of answer }
{
    match answer {
        Ok(length) => {
            *value = length as u64;
            0
        }
        Err(refusal) => {
            *value = refusal.place as u64;
            refusal.rule.number()
        }
    }
}

// Converts the message to its text: 0, and the text's length in `value`; or the refusal's number, and its place in
// `value`.
pub fn velvetshelf_to_text(message: &[u8], text: &mut [u8], value: &mut u64) -> u32
    ensures { Converts
        (record {
          input = message.now;
          before = text.old;
          answer = answer_in result value.new;
          after = text.new;
        }) }
{
    tell(convert(message, text), value)
}

// Converts the text to its message: 0, and the message's length in `value`; or the refusal's number, and its place in
// `value`.
pub fn velvetshelf_to_wire(text: &[u8], message: &mut [u8], value: &mut u64) -> u32
    ensures { Reads
        (record {
          input = text.now;
          before = message.old;
          answer = answer_in result value.new;
          after = message.new;
        }) }
{
    tell(read(text, message), value)
}

// VELVETSHELF_VERSION_NUMBER of the header: major * 10000 + minor * 100 + patch.
pub fn velvetshelf_version() -> u32
    ensures { result ≡ 10300 }
{
    10300
}

// VELVETSHELF_FORMAT of the header.
pub fn velvetshelf_format() -> u32
    ensures { result ≡ 4 }
{
    4
}
