// The streams of a program: reading, writing, and telling of a call that failed. Each function takes the stream, so that
// a contract can say what happens to one whose octets are known. A call that a signal interrupted is tried again; one
// that would block has failed. Proved loops need a bound: those that try again end after 2^64 - 1 turns.
#![tactic(auto)]

ghost use Rattle.std.specs.Prelude.{◌≡◌, ◌≢◌, ◌⊎◌, ℕ, List, ◌^◌, ◌+◌, ◌≤◌, ◌<◌, ◌++◌, length, IfErr, OnErr, OnOk};
ghost use Rattle.std.specs.IoError.{error_kind, raw_os_error};
ghost use Rattle.std.specs.Io.{ReadsAtMost, WritesAtMost};
ghost use Rattle.std.specs.Io.KnownBytes.{Appends, Keeps, ReadConsumes, WriteAppends};
ghost use Rattle.octets.specs.Writes.{Writes};
ghost use Rattle.streams.specs.Parts.{AppendsPart};
ghost use Rattle.streams.specs.Failures.{number_of, word_of, FailedAt, Tells, TellsPart};

use octets::Writer;
use std::env::{Env, FillError};
use std::io;
use std::io::{Error, ErrorKind, Read, Write};

// A call on a stream.
#[derive(Clone, Copy, Debug, PartialEq, Eq)]
pub enum Call {
    Read,
    Write,
    Close,
}

impl Call {
    // The word by which it is told of.
    pub fn word(self) -> &'static [u8]
        ensures value { result.now ≡ word_of self }
        ensures upper_bound { length result.now ≤ 5 }
    {
        match self {
            Call::Read => b"read",
            Call::Write => b"write",
            Call::Close => b"close",
        }
    }

    // The failure of this call.
    pub fn failed(self, error: Error) -> Failure
        ensures { result ≡ record { call = self; error = error } }
    {
        Failure { call: self, error }
    }
}

// A call that failed, and why.
#[derive(Clone, Copy)]
pub struct Failure {
    pub call: Call,
    pub error: Error,
}

// Reads a piece of the input, and returns its length, which is 0 at the end.
pub fn read_piece<R: Read>(reader: &mut R, input: &mut [u8]) -> Result<usize, Failure>
    ensures bound { ReadsAtMost result input.new }
    ensures bytes { ReadConsumes (R.remaining reader.old) (R.remaining reader.new) result input.new }
    ensures retried { IfErr result (FailedAt Call.Read) }
{
    for _ in 0..u64::MAX {
        match reader.read(input) {
            Ok(got) => return Ok(got),
            Err(error) if error.kind() == ErrorKind::Interrupted => {}
            Err(error) => return Err(Call::Read.failed(error)),
        }
    }
    Err(Call::Read.failed(Error::from(ErrorKind::TimedOut)))
}

// Writes the first octets of a part, and returns how many. It stays apart from `read_piece`, its twin: what a call that
// is passed as a closure changes in its buffer and its stream would be known only from a proof longer than both loops.
fn write_some<W: Write>(writer: &mut W, part: &[u8]) -> Result<usize, Failure>
    ensures bound { WritesAtMost result part.now }
    ensures bytes { WriteAppends (W.contents writer.old) (W.contents writer.new) result part.now }
    ensures retried { IfErr result (FailedAt Call.Write) }
{
    for _ in 0..u64::MAX {
        match writer.write(part) {
            Ok(put) => return Ok(put),
            Err(error) if error.kind() == ErrorKind::Interrupted => {}
            Err(error) => return Err(Call::Write.failed(error)),
        }
    }
    Err(Call::Write.failed(Error::from(ErrorKind::TimedOut)))
}

// Writes octets, all or, where a write failed, not all. After that write no other is tried. One that takes nothing has
// failed too, and has no error's number.
pub fn write_octets<W: Write>(writer: &mut W, octets: &[u8]) -> Result<(), Failure>
    ensures all { OnOk result (Appends (W.contents writer.old) (W.contents writer.new) octets.now) }
    ensures some { OnErr result (AppendsPart (W.contents writer.old) (W.contents writer.new) octets.now) }
    ensures retried { IfErr result (FailedAt Call.Write) }
{
    let mut rest = octets;
    while !rest.is_empty() {
        let put = write_some(writer, rest)?;
        if put == 0 {
            return Err(Call::Write.failed(Error::from_raw_os_error(0)));
        }
        rest = &rest[put..];
    }
    Ok(())
}

// Ends the output. std writes what it is given at once and closes no standard stream, so of a standard output this says
// nothing that the writes did not.
pub fn close_output<W: Write>(writer: &mut W) -> Result<(), Failure>
    ensures kept { Keeps (W.contents writer.old) (W.contents writer.new) }
    ensures call { IfErr result (λ f. f.call ≡ Call.Close) }
{
    writer.flush().map_err(|error| Call::Close.failed(error))
}

// Writes a line with the program's name in it, by one call if the stream takes it whole.
pub fn print_line<W: Write>(
    writer: &mut W,
    before: &[u8],
    name: &[u8],
    after: &[u8],
) -> Result<(), Failure>
    requires { (length before.now ≤ 1000) × (length name.now ≤ 1000) × (length after.now ≤ 1000) }
    ensures all { OnOk result (Appends (W.contents writer.old) (W.contents writer.new)
        (before.now ++ name.now ++ after.now)) }
    ensures some { OnErr result (AppendsPart (W.contents writer.old) (W.contents writer.new)
        (before.now ++ name.now ++ after.now)) }
    ensures retried { IfErr result (FailedAt Call.Write) }
{
    let mut line = [0; 4096];
    let mut w = Writer::at(&mut line, 0);
    w.put_all(before);
    w.put_all(name);
    w.put_all(after);
    let n = w.place();
    write_octets(writer, &line[..n])
}

// Writes such a line where failures are told. One that can't be written is told to nobody.
pub fn tell_line<W: Write>(writer: &mut W, before: &[u8], name: &[u8], after: &[u8])
    requires { (length before.now ≤ 1000) × (length name.now ≤ 1000) × (length after.now ≤ 1000) }
    ensures { Appends (W.contents writer.old) (W.contents writer.new) (before.now ++ name.now ++ after.now)
        ⊎ AppendsPart (W.contents writer.old) (W.contents writer.new) (before.now ++ name.now ++ after.now) }
{
    let _ = print_line(writer, before, name, after);
}

// The system's number of an error, or 0 where it has none.
fn error_number(error: &Error) -> u32
    ensures { result ≡ number_of (raw_os_error error.now) }
{
    error.raw_os_error().map_or(0, |code| code.unsigned_abs())
}

// Where the reason ends in an error's text, after which std puts the number in parentheses: before the octet that the
// last parenthesis follows.
fn reason_end(text: &[u8]) -> usize
    ensures { result ≤ length text.now }
{
    text.iter()
        .skip(1)
        .rposition(|octet| *octet == b'(')
        .unwrap_or(text.len())
}

// Writes the reason of an error, as "No space left on device".
fn put_reason(error: &Error, w: &mut Writer)
    requires { w.old.to < 2 ^ 39 }
    ensures { (reason : List ℕ) × (length reason ≤ 256) × Writes w.old reason w.new }
{
    let mut text = [0; 256];
    let mut rest: &mut [u8] = &mut text;
    let _ = write!(rest, "{error}");
    let n = 256usize.saturating_sub(rest.len());
    let end = reason_end(&text[..n]);
    w.put_all(&text[..end]);
}

// Tells which call failed, and why, in one line.
pub fn tell_failure<W: Write>(
    writer: &mut W,
    name: &[u8],
    call: &[u8],
    error: &Error,
) -> Result<(), Failure>
    requires { (length name.now ≤ 1000) × (length call.now ≤ 1000) }
    ensures all { OnOk result (Tells (W.contents writer.old) (W.contents writer.new) name.now call.now error.now) }
    ensures some { OnErr result (TellsPart (W.contents writer.old) (W.contents writer.new) name.now call.now error.now) }
{
    let mut line = [0; 4096];
    let mut w = Writer::at(&mut line, 0);
    w.put_all(name);
    w.put_all(b": ");
    w.put_all(call);
    w.put_all(b" failed (errno ");
    w.put_decimal(error_number(error));
    w.put_all(b"): ");
    put_reason(error, &mut w);
    w.put(b'\n');
    let n = w.place();
    write_octets(writer, &line[..n])
}

// Whether the program has an argument of this number; those after its name begin at 1.
pub fn has_argument(env: &impl Env, number: usize) -> bool {
    let mut argument = [0; 4096];
    !matches!(env.arg(number, &mut argument), Err(FillError::NotPresent))
}

// Whether the program's first argument is this word.
pub fn is_argument(env: &impl Env, word: &[u8]) -> bool {
    let mut argument = [0; 4096];
    env.arg(1, &mut argument)
        .is_ok_and(|n| &argument[..n] == word)
}

#[cfg(test)]
mod tests;
