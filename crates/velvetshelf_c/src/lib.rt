// The static library for programs in C: the functions of velvetshelf, with their clauses, under the names that
// include/velvetshelf.h declares. Each calls the one of its name in velvetshelf, since C needs exported functions.
#![tactic(auto)]

ghost use Rattle.std.specs.Prelude.{◌≡◌};
ghost use Rattle.json_text.specs.Converted.{Converts};
ghost use Rattle.strict.specs.Reading.{Reads};
ghost use Rattle.velvetshelf.specs.Calls.{answer_in};

// Converts the message to its text: 0, and the text's length in `value`; or the refusal's number, and its place in
// `value`.
#[unsafe(no_mangle)]
pub extern "C" fn velvetshelf_to_text(message: &[u8], text: &mut [u8], value: &mut u64) -> u32
    ensures { Converts
        (record {
          input = message.now;
          before = text.old;
          answer = answer_in result value.new;
          after = text.new;
        }) }
{
    velvetshelf::velvetshelf_to_text(message, text, value)
}

// Converts the text to its message: 0, and the message's length in `value`; or the refusal's number, and its place in
// `value`.
#[unsafe(no_mangle)]
pub extern "C" fn velvetshelf_to_wire(text: &[u8], message: &mut [u8], value: &mut u64) -> u32
    ensures { Reads
        (record {
          input = text.now;
          before = message.old;
          answer = answer_in result value.new;
          after = message.new;
        }) }
{
    velvetshelf::velvetshelf_to_wire(text, message, value)
}

// VELVETSHELF_VERSION_NUMBER of the header: major * 10000 + minor * 100 + patch.
#[unsafe(no_mangle)]
pub extern "C" fn velvetshelf_version() -> u32
    ensures { result ≡ 10300 }
{
    velvetshelf::velvetshelf_version()
}

// VELVETSHELF_FORMAT of the header.
#[unsafe(no_mangle)]
pub extern "C" fn velvetshelf_format() -> u32
    ensures { result ≡ 4 }
{
    velvetshelf::velvetshelf_format()
}
