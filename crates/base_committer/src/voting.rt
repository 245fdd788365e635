// What the parts look at: the stored tables, whose rows stand in order in `order`, and the quorum.
ghost use Rattle.std.specs.Prelude.{◌≡◌};
ghost use Rattle.block_store.specs.Stored.{store_in};
ghost use Rattle.index.specs.RoundRows.{rows_left};
ghost use Rattle.support.specs.Quorums.{passes, quorum_in};
ghost use Rattle.base_committer.specs.Voting.{rows_in};

use block_store::stored::Stored;
use index::round_rows::RoundRows;
use support::parts::{Quorum, Test, quorum_in};
use types::RoundNumber;

#[derive(Clone, Copy, Debug, PartialEq, Eq)]
pub struct Voting<'a> {
    pub store: Stored<'a, 'a>,
    pub order: &'a [u16],
    pub quorum: Quorum<'a>,
}

impl<'a> Voting<'a> {
    // The rows of a round.
    pub(crate) fn rows(&self, round: RoundNumber) -> RoundRows<'a>
        ensures { rows_left result ≡ rows_in self.now round.0 }
    {
        RoundRows::new(self.store.blocks, self.order, self.store.stored, round)
    }

    // Whether the authors of the rows of a round that are counted are a quorum.
    pub(crate) fn quorum_in(&self, round: RoundNumber, test: Test) -> bool
        ensures { result ≡ quorum_in (store_in self.now.store) self.now.quorum.stakes.now self.now.quorum.floor.0 (rows_in self.now round.0) (passes (store_in self.now.store) self.now.quorum.stakes.now self.now.quorum.floor.0 test) }
    {
        quorum_in(&self.store, self.order, &self.quorum, round, test)
    }
}
