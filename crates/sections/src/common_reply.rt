// A refusal and a reply that two boxes overlap hand on the space that they share.
ghost use Rattle.std.specs.Prelude.{◌≡◌};
ghost use Rattle.sections.specs.Common.{common_reply, plain_reply, plain_refusal, common_job_reply, common_detailed_reply};

use bin_section::BinSection;
use replies::{Refusal, Reply};

// A refusal, and the common box "beside the detail", or none.
#[derive(Clone, Copy, Debug, PartialEq, Eq)]
pub struct CommonRefusal {
    pub refusal: Refusal,
    pub common: Option<BinSection>,
}

// A refusal that hands on no box.
impl From<Refusal> for CommonRefusal {
    ghost from_gives = { λ refusal r. r ≡ plain_refusal refusal };

    fn from(refusal: Refusal) -> CommonRefusal {
        CommonRefusal {
            refusal,
            common: None,
        }
    }
}

// The same as a reply: a reply, and the common box, or none.
#[derive(Clone, Copy)]
pub struct CommonReply {
    pub reply: Reply,
    pub common: Option<BinSection>,
}

impl CommonReply {
    pub fn new(reply: Reply, common: Option<BinSection>) -> CommonReply
        ensures { result ≡ common_reply reply common }
    {
        CommonReply { reply, common }
    }

    // A reply that hands on no box.
    pub fn plain(reply: Reply) -> CommonReply
        ensures { result ≡ plain_reply reply }
    {
        CommonReply::new(reply, None)
    }
}

// A job that says no number when it is done.
impl From<Result<(), CommonRefusal>> for CommonReply {
    ghost from_gives = { λ answer r. r ≡ common_job_reply answer };

    fn from(answer: Result<(), CommonRefusal>) -> CommonReply {
        match answer {
            Ok(()) => CommonReply::plain(Reply::new(0, 0)),
            Err(refused) => CommonReply::new(Reply::from(refused.refusal), refused.common),
        }
    }
}

// A job that is done with a detail.
impl From<Result<u32, CommonRefusal>> for CommonReply {
    ghost from_gives = { λ answer r. r ≡ common_detailed_reply answer };

    fn from(answer: Result<u32, CommonRefusal>) -> CommonReply {
        match answer {
            Ok(detail) => CommonReply::plain(Reply::new(0, detail)),
            Err(refused) => CommonReply::new(Reply::from(refused.refusal), refused.common),
        }
    }
}
