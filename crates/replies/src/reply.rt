// The numbered replies.
ghost use Rattle.std.specs.Prelude.{◌≡◌};
ghost use Rattle.replies.specs.Replies.{reply};

// "Each reply is a number and a detail." It is laid out as in C: the C face returns it as cafunderi_reply.
#[repr(C)]
#[derive(Clone, Copy)]
pub struct Reply {
    pub number: u32,
    pub detail: u32,
}

impl Reply {
    pub const DONE: u32 = 0;
    // A table's length.
    pub const BAD_LENGTH: u32 = 1;

    pub const BAD_CHAMBER: u32 = 2;

    pub const BAD_SECTION: u32 = 3;

    pub const BAD_RECTANGLE: u32 = 4;
    // A rectangle id stands at an earlier index too.
    pub const SAME_ID: u32 = 5;
    // Too little room for the sections to come.
    pub const NO_ROOM: u32 = 6;

    pub const NOT_ENOUGH_BIN_SPACE: u32 = 7;
    // No chamber has the id.
    pub const NO_CHAMBER: u32 = 8;
    // The returned box has a zero side or reaches past the chamber.
    pub const NOT_CONTAINED: u32 = 9;
    // A free section shares a cell with the returned box; of a join, with an earlier free section.
    pub const OVERLAPS: u32 = 10;
    // 128 sections are there.
    pub const FULL: u32 = 11;

    pub const TOO_WIDE: u32 = 12;

    pub const TOO_TALL: u32 = 13;

    pub const TOO_DEEP: u32 = 14;
    // Of an audit: a box outside, a shared cell, a cell in no box.
    pub const OUTSIDE: u32 = 16;

    pub const SHARED: u32 = 17;

    pub const GAP: u32 = 18;

    pub fn new(number: u32, detail: u32) -> Reply
        ensures { result ≡ reply number detail }
    {
        Reply { number, detail }
    }
}
