// Reads messages in hexadecimal, one per line, and writes the text of each or its refusal.
#![tactic(auto)]

use line_answers::ToText;
use std::process::ExitCode;

fn main(rt: HostRuntime) -> ExitCode {
    line_program::run::<ToText, _, _, _>(
        &rt,
        &mut rt.stdin(),
        &mut rt.stdout(),
        &mut rt.stderr(),
        b"totext",
        b" < FILE\nReads DNS messages in hexadecimal, one per line, and writes the JSON text of each, or its refusal.\n",
    )
}
