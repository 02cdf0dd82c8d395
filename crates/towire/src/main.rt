// Reads texts, one per line, and writes each message in hexadecimal, or its refusal.
#![tactic(auto)]

use line_answers::ToWire;
use std::process::ExitCode;

fn main(rt: HostRuntime) -> ExitCode {
    line_program::run::<ToWire, _, _, _>(
        &rt,
        &mut rt.stdin(),
        &mut rt.stdout(),
        &mut rt.stderr(),
        b"towire",
        b" < FILE\nReads texts from totext, one per line, and writes each message in hexadecimal, or its refusal.\n",
    )
}
