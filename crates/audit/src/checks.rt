// What the replies 16, 17 and 18 test of the boxes, and the space that 17 hands on.
ghost use Rattle.std.specs.Prelude.{◌≡◌, ◌+◌, ◌/◌, ◌≤◌, ◌<◌, eqb, length, List};
ghost use Rattle.lists.specs.Lowest.{lowest_index};
ghost use Rattle.replies.specs.Replies.{refusal_reply};
ghost use Rattle.bin_section.specs.declared.section.BinSection.{BinSection};
ghost use Rattle.bin_section.specs.Sides.{volume_of};
ghost use Rattle.bin_section.specs.Leaning.{Small};
ghost use Rattle.bin_section.specs.Inside.{outside};
ghost use Rattle.cells.specs.Whole.{box_at, AllInside, volumes};
ghost use Rattle.sections.specs.Inside.{shares_earlier};
ghost use Rattle.sections.specs.Common.{earliest_common};
ghost use Rattle.audit.specs.Audit.{audit_boxes, audit_common};
ghost use Rattle.audit.specs.Leaning.{NamesOneOf};

use bin_section::{BinSection, WidthHeightDepth};
use lists::lowest_index;
use replies::Refusal;
use sections::{first_common, first_sharing, sum_of_volumes};
use std::marker::Model;
use words::Record;

// How many boxes a list of six words each has.
pub fn boxes_in(words: &[u32]) -> usize
    ensures { result ≡ length words.now / 6 }
{
    words.len() / BinSection::WORDS
}

// Whether free box k shares a cell with a placed one or an earlier free one.
fn free_shares(placed: &[u32], free: &[u32], k: usize) -> bool
    requires { k < length free.now / 6 }
    ensures { result ≡ shares_earlier (audit_boxes placed.now free.now) (length placed.now / 6 + k) }
{
    let section = BinSection::read(free, k);
    first_sharing(placed, boxes_in(placed), section).is_some()
        || first_sharing(free, k, section).is_some()
}

// The lowest such free box. Each list is searched by itself: to look each box up in both costs an audit of few boxes half its time again.
fn first_free_shared(placed: &[u32], free: &[u32]) -> Option<usize>
    ensures { result ≡ lowest_index (length free.now / 6) (λ k. shares_earlier (audit_boxes placed.now free.now) (length placed.now / 6 + k)) }
{
    lowest_index(boxes_in(free), |k| free_shares(placed, free, k))
}

// The boxes of both lists: indices run through the placed list, then the free list.
#[derive(Drop)]
pub struct Boxes<'a> {
    placed: &'a [u32],
    free: &'a [u32],
}

impl<'a> Model for Boxes<'a> {
    ghost Value = { List BinSection };

    ghost view = { λ b. audit_boxes b.placed.now b.free.now };
}

impl<'a> Boxes<'a> {
    pub fn new(placed: &'a [u32], free: &'a [u32]) -> Boxes<'a>
        ensures { result ≡ audit_boxes placed.now free.now }
    {
        Boxes { placed, free }
    }

    // How many there are.
    #[tactic(auto, using(crate::proofs::TwoLists::boxes_length))]
    pub fn count(&self) -> usize
        ensures { result ≡ length self.now }
    {
        boxes_in(self.placed) + boxes_in(self.free)
    }

    #[tactic(auto, using(crate::proofs::TwoLists::boxes_length, crate::proofs::TwoLists::box_placed, crate::proofs::TwoLists::box_behind))]
    fn at(&self, i: usize) -> BinSection
        requires { i < length self.now }
        ensures { result ≡ box_at self.now i }
    {
        let first = boxes_in(self.placed);
        if i < first {
            return BinSection::read(self.placed, i);
        }
        BinSection::read(self.free, i - first)
    }

    // The lowest box that has a zero side or reaches past the chamber.
    pub fn first_outside(&self, whd: WidthHeightDepth) -> Option<usize>
        ensures { result ≡ lowest_index (length self.now) (λ i. outside whd (box_at self.now i)) }
    {
        let first = boxes_in(self.placed);
        let among_placed = sections::first_outside(self.placed, first, whd);
        if among_placed.is_some() {
            return among_placed;
        }
        let out = sections::first_outside(self.free, boxes_in(self.free), whd)?;
        Some(first + out)
    }

    // The common box of box j and the earliest box that it meets. Those before it are looked through, the placed list first.
    #[tactic(auto, using(crate::proofs::TwoLists::boxes_length))]
    pub fn earliest_common(&self, j: usize) -> Option<BinSection>
        requires { j < length self.now }
        ensures { result ≡ earliest_common self.now j }
    {
        let section = self.at(j);
        let first = boxes_in(self.placed).min(j);
        let among_placed = first_common(self.placed, first, section);
        among_placed.or_else(|| first_common(self.free, j - first, section))
    }

    // The common box that a refusal hands on: with 17 that of the box that the detail names and the earliest box that it meets.
    #[tactic(auto, unfolding(crate::specs::Audit::audit_common))]
    pub fn common_of(&self, refusal: Refusal) -> Option<BinSection>
        requires { NamesOneOf self.now (refusal_reply refusal) }
        ensures { result ≡ audit_common self.now (refusal_reply refusal) }
    {
        match refusal {
            Refusal::Shared(j) => self.earliest_common(j as usize),
            _ => None,
        }
    }

    // The lowest box that shares a cell with an earlier one.
    pub fn first_shared(&self) -> Option<usize>
        ensures { result ≡ lowest_index (length self.now) (shares_earlier self.now) }
    {
        let first = boxes_in(self.placed);
        let among_placed = sections::first_shared(self.placed, first);
        if among_placed.is_some() {
            return among_placed;
        }
        let shared = first_free_shared(self.placed, self.free)?;
        Some(first + shared)
    }

    // Whether the volumes of boxes that lie inside sum to the chamber's. The sum of 1,024 of them fits 64 bits.
    pub fn fill(&self, whd: WidthHeightDepth) -> bool
        requires { Small whd × (length self.now ≤ 1024) × AllInside whd self.now }
        ensures { result ≡ eqb (volumes self.now) (volume_of whd) }
    {
        let of_placed = sum_of_volumes(self.placed, boxes_in(self.placed));
        let of_free = sum_of_volumes(self.free, boxes_in(self.free));
        of_placed + of_free == whd.volume()
    }
}
