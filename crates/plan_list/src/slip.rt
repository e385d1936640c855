// Slips of the pen, and the line that one stands in.
#[derive(Clone, Copy, Debug, PartialEq, Eq)]
pub enum Slip {
    // A line is neither a chamber nor a coil.
    Neither,
    // A chamber, or a coil, of another number of words.
    ChamberWords,
    CoilWords,
    // The word at this place of its line, counted from 1, is no number from 0 to 4,294,967,295.
    NoNumber(u32),
    // More than 16 chambers, or 63 coils.
    ManyChambers,
    ManyCoils,
    // The text is longer than 65,536 bytes.
    TooLong,
    // The third word of a coil is no group.
    NoGroup,
}

// A slip, and the line of the list that it stands in, counted from 1.
#[derive(Clone, Copy, Debug, PartialEq, Eq)]
pub struct SlipAt {
    pub line: u32,
    pub slip: Slip,
}
