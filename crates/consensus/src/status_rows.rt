// The statuses in a list of words, four words each; fewer than four words at the end hold none.
ghost use Rattle.std.specs.Prelude.{◌≡◌};
ghost use Rattle.std.specs.Iterator.{YieldsFirst, item_count};
ghost use Rattle.consensus.specs.Statuses.{statuses_of};
ghost use Rattle.consensus.specs.Left.{statuses_left};

use crate::LeaderStatus;
use crate::parts::status_of;

#[derive(Clone, Copy, Debug, PartialEq, Eq)]
pub struct Statuses<'a> {
    words: &'a [u64],
}

impl<'a> Statuses<'a> {
    pub fn new(words: &'a [u64]) -> Statuses<'a>
        ensures { statuses_left result ≡ statuses_of words.now }
    {
        Statuses { words }
    }
}

impl<'a> Iterator for Statuses<'a> {
    type Item = LeaderStatus;

    ghost next_gives = { YieldsFirst statuses_left };

    ghost remaining = { item_count statuses_left };

    #[tactic(auto, using(crate::proofs::Statuses::statuses_first))]
    fn next(&mut self) -> Option<LeaderStatus> {
        let &[authority, round, kind, block, ref others @ ..] = self.words else {
            return None;
        };
        self.words = others;
        Some(status_of(authority, round, kind, block))
    }
}
