// The common box that a reply hands on, in lent words. No enum crosses over to C.
ghost use Rattle.std.specs.Prelude.{◌≡◌, length};
ghost use Rattle.cafunderi.specs.Common.{common_after};

use bin_section::write_common;
use replies::Reply;
use sections::CommonReply;

// Writes the six words, and gives the reply. Reply 1 writes nothing.
#[tactic(auto, unfolding(crate::specs::Common::common_after))]
pub fn hand_on(answer: CommonReply, common: &mut [u32]) -> Reply
    requires { length common.old ≡ 6 }
    ensures { (result ≡ answer.reply) × (common.new ≡ common_after common.old answer.reply answer.common) }
{
    if answer.reply.number != Reply::BAD_LENGTH {
        write_common(answer.common, common);
    }
    answer.reply
}
