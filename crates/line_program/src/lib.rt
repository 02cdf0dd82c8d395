// A run of a line program: pieces of the input are read, `lines::answer_piece` answers the lines that end in them, and
// its answers are written to the output. The first call that fails ends the run and is told on standard error.
#![tactic(auto)]

ghost use Rattle.std.specs.Prelude.{◌≡◌, ◌⊎◌, ◌↔◌, IsTrue, ◌≤◌, ◌<◌, List, ℕ, [], ◌∷◌, length, take, IfErr, OnErr, OnOk};
ghost use Rattle.std.specs.Io.KnownBytes.{Appends};
ghost use Rattle.std.specs.Process.{exit_status};
ghost use Rattle.line_answers.specs.Answers.{within_line};
ghost use Rattle.lines.specs.Programs.{most_kept, answer_room};
ghost use Rattle.lines.specs.Reading.{printed_last, printed_over, so_far};
ghost use Rattle.streams.specs.Parts.{AppendsPart};
ghost use Rattle.streams.specs.Failures.{FailedAt, Tells, TellsPart, word_of};
ghost use Rattle.line_program.specs.Written.{WritesAll, WritesPart};
ghost use Rattle.line_program.specs.Ended.{IsReaderGone};

use line_answers::Program;
use lines::{Line, answer_piece};
use std::env::Env;
use std::io::{Error, ErrorKind, Read, Write};
use std::process::ExitCode;
use streams::{
    Call, Failure, close_output, has_argument, is_argument, print_line, read_piece, tell_failure,
    tell_line, write_octets,
};

// Answers the lines that end in a piece, in as many calls as the room for answers asks for.
fn answer<P: Program, W: Write>(
    line: &mut Line,
    input: &[u8],
    out: &mut [u8],
    writer: &mut W,
) -> Result<(), Failure>
    requires { answer_room ≤ length out.old }
    ensures kept { OnOk result (take most_kept line.new ≡ take most_kept (so_far line.old input.now)) }
    ensures written { OnOk result (Appends (W.contents writer.old) (W.contents writer.new)
        (printed_over (within_line P.MOST P.answer) line.old input.now)) }
    ensures part { OnErr result (AppendsPart (W.contents writer.old) (W.contents writer.new)
        (printed_over (within_line P.MOST P.answer) line.old input.now)) }
    ensures retried { IfErr result (FailedAt Call.Write) }
{
    let mut rest = input;
    while !rest.is_empty() {
        let step = answer_piece::<P>(line, rest, out);
        write_octets(writer, &out[..step.size])?;
        rest = &rest[step.taken..];
    }
    Ok(())
}

// The end of the input: a last line without newline is answered if it isn't empty.
fn answer_last<P: Program, W: Write>(
    line: &mut Line,
    out: &mut [u8],
    writer: &mut W,
) -> Result<(), Failure>
    requires { answer_room ≤ length out.old }
    ensures written { OnOk result (Appends (W.contents writer.old) (W.contents writer.new)
        (printed_last (within_line P.MOST P.answer) line.old)) }
    ensures part { OnErr result (AppendsPart (W.contents writer.old) (W.contents writer.new)
        (printed_last (within_line P.MOST P.answer) line.old)) }
    ensures retried { IfErr result (FailedAt Call.Write) }
{
    if line.is_empty() {
        return Ok(());
    }
    answer::<P, W>(line, b"\n", out, writer)
}

// Answers the lines of the input in pieces as long as `input`, up to its end or the first call that fails. After a read
// that fails the line that had not ended is not answered.
fn answer_pieces<P: Program, R: Read, W: Write>(
    input: &mut [u8],
    out: &mut [u8],
    reader: &mut R,
    writer: &mut W,
) -> Result<(), Failure>
    requires { (0 < length input.old) × (answer_room ≤ length out.old) }
    ensures all { OnOk result (WritesAll (R.remaining reader.old) (R.remaining reader.new)
        (W.contents writer.old) (W.contents writer.new) (within_line P.MOST P.answer)) }
    ensures part { IfErr result (WritesPart (R.remaining reader.old) (R.remaining reader.new)
        (W.contents writer.old) (W.contents writer.new) (within_line P.MOST P.answer)) }
{
    let mut line = Line::new();
    for _ in 0..u64::MAX {
        let got = read_piece(reader, input)?;
        if got == 0 {
            answer_last::<P, W>(&mut line, out, writer)?;
            return close_output(writer);
        }
        answer::<P, W>(&mut line, &input[..got], out, writer)?;
    }
    Err(Call::Read.failed(Error::from(ErrorKind::TimedOut)))
}

// Answers the lines of the input, with room for a piece of it and for the answers.
fn answer_all<P: Program, R: Read, W: Write>(reader: &mut R, writer: &mut W) -> Result<(), Failure>
    ensures all { OnOk result (WritesAll (R.remaining reader.old) (R.remaining reader.new)
        (W.contents writer.old) (W.contents writer.new) (within_line P.MOST P.answer)) }
    ensures part { IfErr result (WritesPart (R.remaining reader.old) (R.remaining reader.new)
        (W.contents writer.old) (W.contents writer.new) (within_line P.MOST P.answer)) }
{
    let mut input = [0; 65536];
    let mut out = [0; 262144];
    answer_pieces::<P, R, W>(&mut input, &mut out, reader, writer)
}

// Whether the reader of the output went away.
fn is_reader_gone(failure: &Failure) -> bool
    ensures { IsTrue result ↔ IsReaderGone failure.now }
{
    matches!(failure.call, Call::Write) && failure.error.kind() == ErrorKind::BrokenPipe
}

// Ends a run that failed. The failure is told, and the status is 0; where the line can't be written, nothing is left to
// tell it to. A reader of the output that went away is not told: std ignores SIGPIPE, which would end the program, and
// the status is what a shell shows then.
fn end<W: Write>(errors: &mut W, name: &[u8], failure: &Failure) -> ExitCode
    requires { length name.now ≤ 1000 }
    ensures gone { IsReaderGone failure.now → exit_status result ≡ 141 }
    ensures told { ¬ IsReaderGone failure.now → (exit_status result ≡ 0)
        × (Tells (W.contents errors.old) (W.contents errors.new) name.now (word_of failure.now.call) failure.now.error
        ⊎ TellsPart (W.contents errors.old) (W.contents errors.new) name.now (word_of failure.now.call)
        failure.now.error) }
{
    if is_reader_gone(failure) {
        return ExitCode::from(141);
    }
    let _ = tell_failure(errors, name, failure.call.word(), &failure.error);
    ExitCode::SUCCESS
}

// What the program does with its only argument.
fn answer_argument<W: Write, E: Write>(
    env: &impl Env,
    writer: &mut W,
    errors: &mut E,
    name: &[u8],
    about: &[u8],
) -> Result<(), Failure>
    requires { (length name.now ≤ 1000) × (length about.now ≤ 1000) }
{
    if is_argument(env, b"--help") {
        return print_line(writer, b"usage: ", name, about);
    }
    if is_argument(env, b"--version") {
        return print_line(writer, b"", name, b" (Velvetshelf) 1.3.0, format 4\n");
    }
    tell_usage(errors, name);
    Ok(())
}

// How the program is used.
fn tell_usage<W: Write>(errors: &mut W, name: &[u8])
    requires { length name.now ≤ 1000 }
{
    tell_line(errors, b"usage: ", name, b" < FILE\n");
}

// Runs the program; `about` is what `--help` prints after its name. The versions are those of include/velvetshelf.h.
pub fn run<P: Program, R: Read, W: Write, E: Write>(
    env: &impl Env,
    reader: &mut R,
    writer: &mut W,
    errors: &mut E,
    name: &[u8],
    about: &[u8],
) -> ExitCode
    requires { (length name.now ≤ 1000) × (length about.now ≤ 1000) }
    ensures { (exit_status result ≡ 0) ⊎ (exit_status result ≡ 141) }
{
    let ended = if has_argument(env, 2) {
        tell_usage(errors, name);
        Ok(())
    } else if has_argument(env, 1) {
        answer_argument(env, writer, errors, name, about)
    } else {
        answer_all::<P, R, W>(reader, writer)
    };
    match ended {
        Ok(()) => ExitCode::SUCCESS,
        Err(failure) => end(errors, name, &failure),
    }
}
