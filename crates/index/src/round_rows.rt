// The rows of a round, one after another, by the rows in order.
ghost use Rattle.std.specs.Prelude.{◌≡◌};
ghost use Rattle.std.specs.Iterator.{YieldsFirst, item_count};
ghost use Rattle.index.specs.Rounds.{rows_of_round};
ghost use Rattle.index.specs.RoundRows.{rows_left};

use crate::keys::Keys;
use crate::lookup::{first_of_round, row_at};
use types::RoundNumber;

// The rows of a round that are left.
#[derive(Clone, Copy, Debug, PartialEq, Eq)]
pub struct RoundRows<'a> {
    blocks: &'a [u64],
    order: &'a [u16],
    stored: usize,
    round: RoundNumber,
    next: usize,
}

impl<'a> RoundRows<'a> {
    // All rows of a round.
    #[tactic(auto, unfolding(crate::specs::Rounds::rows_of_round))]
    pub fn new(
        blocks: &'a [u64],
        order: &'a [u16],
        stored: usize,
        round: RoundNumber,
    ) -> RoundRows<'a>
        ensures { rows_left result ≡ rows_of_round blocks.now order.now stored round.0 }
    {
        RoundRows {
            blocks,
            order,
            stored,
            round,
            next: first_of_round(blocks, order, stored, round),
        }
    }
}

impl<'a> Iterator for RoundRows<'a> {
    type Item = usize;

    ghost next_gives = { YieldsFirst rows_left };

    ghost remaining = { item_count rows_left };

    #[tactic(auto, using(crate::proofs::Rounds::round_next), unfolding(crate::specs::Rounds::round_is))]
    fn next(&mut self) -> Option<usize> {
        if self.stored <= self.next {
            return None;
        }
        let row = row_at(self.order, self.next);
        if Keys::of_blocks(self.blocks).field(row, 1) != self.round.0 {
            return None;
        }
        self.next += 1;
        Some(row)
    }
}
