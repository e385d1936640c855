// The list read line by line.
ghost use Rattle.std.specs.Prelude.{◌≡◌, [], ◌≤◌, length, Ok, Err, MatchResult};
ghost use Rattle.plan_list.specs.List.{plan_list, slipped, add_line, line_at, read_of};

use crate::line_said::{Said, line_said};
use crate::line_words::uncommented;
use crate::slip::{Slip, SlipAt};
use arrayvec::ArrayVec;
use grouped_rects_to_place::RectToPlace;
use target_bin::TargetBin;

// What stands in a line of the list, counted from 1.
#[derive(Clone, Copy, Default)]
pub struct OnLine<T> {
    pub item: T,
    pub line: u32,
}

// What was read: chambers and coils, each with its line, and how many lines were looked at.
#[derive(Clone, Drop)]
pub struct PlanList {
    pub chambers: ArrayVec<OnLine<TargetBin>, { TargetBin::MOST }>,
    pub coils: ArrayVec<OnLine<RectToPlace>, { RectToPlace::MOST }>,
    pub lines: u32,
}

// What was read before a slip, and the slip.
#[derive(Drop)]
pub struct Slipped {
    pub list: PlanList,
    pub at: SlipAt,
}

impl PlanList {
    // The longest text.
    pub const MOST: usize = 65536;

    fn new() -> PlanList
        ensures { result ≡ plan_list [] [] 0 }
    {
        PlanList {
            chambers: ArrayVec::new(),
            coils: ArrayVec::new(),
            lines: 0,
        }
    }

    // One line more is looked at, and what it says is added.
    fn add_line(&mut self, text: &[u8]) -> Result<(), SlipAt>
        requires { self.old.lines ≤ 65536 }
        ensures { MatchResult result (λ _. add_line text.now self.old ≡ Ok self.new) (λ at. add_line text.now self.old ≡ Err (slipped self.new at)) }
    {
        self.lines += 1;
        let line = self.lines;
        let said = line_said(uncommented(text), self.chambers.len(), self.coils.len());
        match said.map_err(|slip| SlipAt { line, slip })? {
            Said::Nothing => {}
            Said::Chamber(item) => self.chambers.push(OnLine { item, line }),
            Said::Coil(item) => self.coils.push(OnLine { item, line }),
        }
        Ok(())
    }
}

// The line that the byte at index n stands in.
fn line_at(text: &[u8], n: usize) -> u32
    requires { (n ≤ length text.now) × (n ≤ 65536) }
    ensures { result ≡ line_at text.now n }
{
    text[..n].iter().filter(|b| **b == b'\n').count() as u32 + 1
}

// The list that a text is; or the first slip in it, and what was read before. Of what is longer than 65,536 bytes nothing is read.
#[tactic(auto, unfolding(crate::specs::List::read_of))]
pub fn read_list(text: &[u8]) -> Result<PlanList, Slipped>
    ensures { result ≡ read_of text.now }
{
    let mut list = PlanList::new();
    if PlanList::MOST < text.len() {
        return Err(Slipped {
            list,
            at: SlipAt {
                line: line_at(text, PlanList::MOST),
                slip: Slip::TooLong,
            },
        });
    }
    for text in text.split(|b| *b == b'\n') {
        if let Err(at) = list.add_line(text) {
            return Err(Slipped { list, at });
        }
    }
    Ok(list)
}
