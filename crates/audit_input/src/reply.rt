// The reply to an input: what the audit answers to its chamber and its boxes.
ghost use Rattle.std.specs.Prelude.{◌≡◌};
ghost use Rattle.replies.specs.Replies.{job_reply};
ghost use Rattle.audit_input.specs.Line.{input_reply};

use audit::audit_reply;
use bin_section::BinSection;
use box_input::InputBoxes;
use replies::Refusal;

// What is no input is refused as a table's wrong length is.
pub fn reply_of(bytes: &[u8]) -> Result<(), Refusal>
    ensures { job_reply result ≡ input_reply bytes.now }
{
    let mut boxes = InputBoxes {
        placed: [0; InputBoxes::WORDS],
        free: [0; InputBoxes::WORDS],
    };
    let Some(said) = boxes.take(bytes) else {
        return Err(Refusal::BadLength);
    };
    let placed = said.placed * BinSection::WORDS;
    let free = said.free * BinSection::WORDS;
    audit_reply(said.whd, &boxes.placed[..placed], &boxes.free[..free])
}
