// The references that words hold, one after another: six words each.
ghost use Rattle.std.specs.Prelude.{◌≡◌};
ghost use Rattle.std.specs.Iterator.{YieldsFirst, item_count};
ghost use Rattle.types.specs.References.{refs_in};

use crate::{AuthorityIndex, BlockDigest, BlockReference, RoundNumber};

// The references that are left to read; less than six words at the end hold none.
#[derive(Clone, Copy, Debug, PartialEq, Eq)]
pub struct References<'a> {
    words: &'a [u64],
}

impl<'a> References<'a> {
    // All references that the words hold.
    pub fn new(words: &'a [u64]) -> References<'a>
        ensures { result.words.now ≡ words.now }
    {
        References { words }
    }
}

impl<'a> Iterator for References<'a> {
    type Item = BlockReference;

    ghost next_gives = { YieldsFirst (λ s. refs_in s.words.now) };

    ghost remaining = { item_count (λ s. refs_in s.words.now) };

    #[tactic(auto, using(crate::proofs::References::refs_first))]
    fn next(&mut self) -> Option<BlockReference> {
        let &[a, r, d0, d1, d2, d3, ref rest @ ..] = self.words else {
            return None;
        };
        self.words = rest;
        Some(BlockReference {
            round: RoundNumber(r),
            authority: AuthorityIndex(a),
            digest: BlockDigest {
                word0: d0,
                word1: d1,
                word2: d2,
                word3: d3,
            },
        })
    }
}
