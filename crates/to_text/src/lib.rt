// Message to text: the public conversion. Definitions and laws are in specs/.
#![tactic(auto)]

ghost use Rattle.std.specs.Prelude.{◌+◌, ◌*◌, ◌≤◌, length};
ghost use Rattle.octets.specs.Calls.{answer_of, Gives, Call};
ghost use Rattle.json_text.specs.Converted.{to_text, Converts};
ghost use Rattle.print_message.specs.Whole.{profile_text, AcceptedMessage};

use forms::uncompress;
use octets::{Refusal, Rule};
use print_message::put_text;

// Writes the text of an accepted message, if it fits. `size` is the length of the message's uncompressed form, which
// bounds that of its text: a first run over no octets measures the text only where there is less room than this bound.
fn deliver(s: &[u8], lone: bool, size: usize, text: &mut [u8]) -> Result<usize, Refusal>
    requires { AcceptedMessage s.now lone × (size ≤ 65535) × (length (profile_text s.now) ≤ 10 * size + 400) }
    ensures { Gives (to_text s.now text.old) (answer_of result) text.new }
{
    let most = 10 * size + 400;
    if text.len() < most {
        let measured = put_text(s, lone, &mut text[..0]);
        if measured > text.len() {
            return Err(Rule::TextRoom.at(0));
        }
    }
    Ok(put_text(s, lone, text))
}

// Writes the profile text of a message. Every refusal but 10 is found before anything is written, and so is that the
// text fits.
pub fn convert(message: &[u8], text: &mut [u8]) -> Result<usize, Refusal>
    ensures { Converts
        (record {
          input = message.now;
          before = text.old;
          answer = answer_of result;
          after = text.new;
        }) }
{
    let form = uncompress(message, &mut text[..0])?;
    deliver(message, form.opts == 1, form.length, text)
}
