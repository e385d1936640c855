// Why a job is refused.
ghost use Rattle.std.specs.Prelude.{◌≡◌};
ghost use Rattle.replies.specs.Replies.{refusal_reply, job_reply, detailed_reply};

use crate::reply::Reply;

// "Each reply is a number and a detail": a refusal by what is wrong, with its detail where one is named.
#[derive(Clone, Copy, Debug, PartialEq, Eq)]
pub enum Refusal {
    // A table's length.
    BadLength,
    BadChamber(u32),
    BadSection(u32),
    BadRectangle(u32),
    // A rectangle id stands at an earlier index too.
    SameId(u32),
    // Too little room for the sections to come.
    NoRoom(u32),
    NotEnoughBinSpace(u32),
    // No chamber has the id.
    NoChamber,
    // The returned box has a zero side or reaches past the chamber.
    NotContained,
    // A free section shares a cell with the returned box; of a join, with an earlier free section.
    Overlaps(u32),
    // 128 sections are there.
    Full,
    TooWide,
    TooTall,
    TooDeep,
    // Of an audit: a box outside, a shared cell, a cell in no box.
    Outside(u32),
    Shared(u32),
    Gap,
}

impl From<Refusal> for Reply {
    ghost from_gives = { λ refusal r. r ≡ refusal_reply refusal };

    fn from(refusal: Refusal) -> Reply {
        match refusal {
            Refusal::BadLength => Reply::new(1, 0),
            Refusal::BadChamber(i) => Reply::new(2, i),
            Refusal::BadSection(i) => Reply::new(3, i),
            Refusal::BadRectangle(i) => Reply::new(4, i),
            Refusal::SameId(i) => Reply::new(5, i),
            Refusal::NoRoom(i) => Reply::new(6, i),
            Refusal::NotEnoughBinSpace(i) => Reply::new(7, i),
            Refusal::NoChamber => Reply::new(8, 0),
            Refusal::NotContained => Reply::new(9, 0),
            Refusal::Overlaps(i) => Reply::new(10, i),
            Refusal::Full => Reply::new(11, 0),
            Refusal::TooWide => Reply::new(12, 0),
            Refusal::TooTall => Reply::new(13, 0),
            Refusal::TooDeep => Reply::new(14, 0),
            Refusal::Outside(i) => Reply::new(16, i),
            Refusal::Shared(i) => Reply::new(17, i),
            Refusal::Gap => Reply::new(18, 0),
        }
    }
}

// A job that says no number when it is done.
impl From<Result<(), Refusal>> for Reply {
    ghost from_gives = { λ answer r. r ≡ job_reply answer };

    fn from(answer: Result<(), Refusal>) -> Reply {
        match answer {
            Ok(()) => Reply::new(0, 0),
            Err(refusal) => Reply::from(refusal),
        }
    }
}

// A job that is done with a detail.
impl From<Result<u32, Refusal>> for Reply {
    ghost from_gives = { λ answer r. r ≡ detailed_reply answer };

    fn from(answer: Result<u32, Refusal>) -> Reply {
        match answer {
            Ok(detail) => Reply::new(0, detail),
            Err(refusal) => Reply::from(refusal),
        }
    }
}
