// What a line says: a chamber, a coil or nothing. Or it has a slip of the pen.
ghost use Rattle.std.specs.Prelude.{◌≡◌, ◌<◌};
ghost use Rattle.plan_list.specs.Words.{words_of};
ghost use Rattle.plan_list.specs.Said.{number_at, group_said, group_at, chamber_from, coil_from, chamber_said, coil_said, line_said};

use crate::line_words::{count_words, word_at};
use crate::number::number_of;
use crate::slip::Slip;
use bin_section::WidthHeightDepth;
use grouped_rects_to_place::RectToPlace;
use target_bin::TargetBin;

#[derive(Clone, Copy)]
pub enum Said {
    Nothing,
    Chamber(TargetBin),
    Coil(RectToPlace),
}

impl Said {
    // The words of a line: its first word, and the numbers.
    const CHAMBER_WORDS: usize = 5;

    const COIL_WORDS: usize = 6;
}

// The number that the word at index k says; a slip counts the words from 1.
fn number_at(line: &[u8], k: u32) -> Result<u32, Slip>
    requires { k < 6 }
    ensures { result ≡ number_at (words_of line.now) k }
{
    word_at(line, k as usize)
        .and_then(number_of)
        .ok_or(Slip::NoNumber(k + 1))
}

// A group, or none, which is 0 in the table: a group that is typed as 0 is none of both.
fn group_said(word: &[u8]) -> Option<u32>
    ensures { result ≡ group_said word.now }
{
    if word == b"none".as_slice() {
        return Some(0);
    }
    number_of(word).filter(|group| *group != 0)
}

// The group that the third word of a coil says.
fn group_at(line: &[u8]) -> Result<u32, Slip>
    ensures { result ≡ group_at (words_of line.now) }
{
    word_at(line, 2).and_then(group_said).ok_or(Slip::NoGroup)
}

// The numbers follow the first word, and the first that is missing is the slip.
fn chamber_from(line: &[u8]) -> Result<Said, Slip>
    ensures { result ≡ chamber_from (words_of line.now) }
{
    Ok(Said::Chamber(TargetBin {
        id: number_at(line, 1)?,
        whd: WidthHeightDepth {
            width: number_at(line, 2)?,
            height: number_at(line, 3)?,
            depth: number_at(line, 4)?,
        },
        count: 0,
    }))
}

fn coil_from(line: &[u8]) -> Result<Said, Slip>
    ensures { result ≡ coil_from (words_of line.now) }
{
    Ok(Said::Coil(RectToPlace {
        id: number_at(line, 1)?,
        group: group_at(line)?,
        whd: WidthHeightDepth {
            width: number_at(line, 3)?,
            height: number_at(line, 4)?,
            depth: number_at(line, 5)?,
        },
    }))
}

// A chamber's line, where n chambers were read before.
fn chamber_said(line: &[u8], n: usize) -> Result<Said, Slip>
    ensures { result ≡ chamber_said (words_of line.now) n }
{
    if count_words(line) != Said::CHAMBER_WORDS {
        return Err(Slip::ChamberWords);
    }
    if n == TargetBin::MOST {
        return Err(Slip::ManyChambers);
    }
    chamber_from(line)
}

// A coil's line, where n coils were read before.
fn coil_said(line: &[u8], n: usize) -> Result<Said, Slip>
    ensures { result ≡ coil_said (words_of line.now) n }
{
    if count_words(line) != Said::COIL_WORDS {
        return Err(Slip::CoilWords);
    }
    if n == RectToPlace::MOST {
        return Err(Slip::ManyCoils);
    }
    coil_from(line)
}

// What a line says, where so many chambers and coils were read before.
pub fn line_said(line: &[u8], chambers: usize, coils: usize) -> Result<Said, Slip>
    ensures { result ≡ line_said (words_of line.now) chambers coils }
{
    let Some(first) = word_at(line, 0) else {
        return Ok(Said::Nothing);
    };
    if first == b"chamber".as_slice() {
        return chamber_said(line, chambers);
    }
    if first == b"coil".as_slice() {
        return coil_said(line, coils);
    }
    Err(Slip::Neither)
}
