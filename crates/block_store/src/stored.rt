// The lent tables of the stored side, together: the rows, the includes, and how many rows are used. Tables are words with a count, since relays
// lend fixed memory, and the library has no heap.
ghost use Rattle.std.specs.Prelude.{◌≡◌, ◌&&◌, ◌+◌, ◌*◌, ◌≤◌, ◌<◌, length, replicate};
ghost use Rattle.index.specs.Keys.{reference_key};
ghost use Rattle.index.specs.Places.{has_room, ordered_rows, front_after};
ghost use Rattle.types.specs.Limits.{block_words};
ghost use Rattle.types.specs.Reports.{reported_verdict};
ghost use Rattle.block_store.specs.Store.{includes_of};
ghost use Rattle.block_store.specs.Stored.{store_in};
ghost use Rattle.block_store.specs.Sound.{start_of, sound_row, sound_rows, sound_but_twins, sound_store};
ghost use Rattle.block_store.specs.Includes.{includes_given, includes_check};

use crate::distinct::are_distinct;
use crate::parts::{BLOCK_WORDS, count_at, first_at};
use crate::sound::{all_lower, cell, sizes_are_sound, zero_from};
use index::build::index_references;
use types::refusal::refuse_unless;
use types::words::index;
use types::{MAX_AUTHORITIES, MAX_INCLUDES, ROUND_LIMIT, Refusal};

#[derive(Clone, Copy, Debug, PartialEq, Eq)]
pub struct Stored<'b, 'a> {
    pub blocks: &'b [u64],
    pub includes: &'a [u64],
    pub stored: usize,
}

impl<'a> Stored<'_, 'a> {
    // The includes of a row, as that stretch of the include table; empty where the row is no stored one or the stretch runs past the end.
    pub fn includes_of(&self, row: usize) -> &'a [u64]
        ensures { result.now ≡ includes_of (store_in self.now) row }
    {
        let first = first_at(self.blocks, row);
        let count = count_at(self.blocks, row);
        if self.stored <= row {
            return &self.includes[..0];
        }
        if self.includes.len() < first {
            return &self.includes[..0];
        }
        if self.includes.len() - first < count {
            return &self.includes[..0];
        }
        let end = first + count;
        &self.includes[first..end]
    }

    // Whether the numbers of a row are within limits, its stretch begins at `start` and ends in the table, and its includes are lower.
    fn row_is_sound(&self, size: u64, row: usize, start: usize) -> bool
        requires row_lt_stored { (row < self.now.stored) × (self.now.stored * block_words ≤ length self.now.blocks.now) }
        requires start_value { start ≡ start_of (store_in self.now) row }
        requires start_in_bounds { start ≤ length self.now.includes.now }
        ensures { result ≡ sound_row size (store_in self.now) row }
    {
        if size <= cell(self.blocks, row, 0) {
            return false;
        }
        if ROUND_LIMIT <= cell(self.blocks, row, 1) {
            return false;
        }
        let count = index(cell(self.blocks, row, 7));
        if MAX_INCLUDES < count {
            return false;
        }
        if index(cell(self.blocks, row, 6)) != start {
            return false;
        }
        if self.includes.len() - start < count {
            return false;
        }
        let end = start + count;
        all_lower(self.blocks, row, &self.includes[start..end])
    }

    // Whether each stored row is sound, and no include stands after theirs.
    fn rows_are_sound(&self, size: u64) -> bool
        requires { self.now.stored * block_words ≤ length self.now.blocks.now }
        ensures { result ≡ sound_rows size (store_in self.now) }
    {
        let mut start = 0;
        for row in 0..self.stored {
            if !self.row_is_sound(size, row, start) {
                return false;
            }
            start += index(cell(self.blocks, row, 7));
        }
        zero_from(self.includes, start)
    }

    // Whether the tables are sound, with authorities below `size`, but for rows that share a reference.
    #[tactic(auto, unfolding(crate::specs::Sound::sound_but_twins))]
    pub fn is_sound_but_twins(&self, size: u64) -> bool
        ensures { result ≡ sound_but_twins size (store_in self.now) }
    {
        sizes_are_sound(self.blocks.len(), self.includes.len(), self.stored)
            && (self.rows_are_sound(size) && zero_from(self.blocks, self.stored * BLOCK_WORDS))
    }

    // Whether the tables are sound, with authorities below `size`.
    pub fn is_sound(&self, size: u64) -> bool
        ensures { result ≡ sound_store size (store_in self.now) }
    {
        self.is_sound_but_twins(size) && are_distinct(self.blocks, self.stored)
    }

    // The same for a call that goes on to look rows up: afterwards the front of `order` has the stored rows in the order of their references, zeros
    // where two share one. Both areas need an entry for each stored row, else nothing happens and the answer is no; those of `work` are zero afterwards.
    pub fn is_sound_by(&self, size: u64, order: &mut [u16], work: &mut [u16]) -> bool
        ensures value { result ≡ (has_room self.now.stored (length order.old) (length work.old) && sound_store size (store_in self.now)) }
        ensures order { order.new ≡ front_after (has_room self.now.stored (length order.old) (length work.old)) self.now.stored (ordered_rows (reference_key self.now.blocks.now) self.now.stored) order.old }
        ensures work { work.new ≡ front_after (has_room self.now.stored (length order.old) (length work.old)) self.now.stored (replicate self.now.stored 0) work.old }
    {
        index_references(self.blocks, self.stored, order, work) && self.is_sound_but_twins(size)
    }

    // The includes of a row, as that stretch of the lent include table; empty where the check gives 3 or 4.
    pub fn includes(&self, row: usize) -> &'a [u64]
        ensures { result.now ≡ includes_given (store_in self.now) row }
    {
        if !self.is_sound(MAX_AUTHORITIES) {
            return &self.includes[..0];
        }
        self.includes_of(row)
    }

    // 3 for unsound tables, 4 for a row that is no stored one, otherwise done.
    #[tactic(auto, unfolding(crate::specs::Includes::includes_check))]
    pub fn includes_check(&self, row: usize) -> Result<(), Refusal>
        ensures { reported_verdict result ≡ includes_check (store_in self.now) row }
    {
        refuse_unless(self.is_sound(MAX_AUTHORITIES), Refusal::BadTable)?;
        refuse_unless(row < self.stored, Refusal::BadArgument)
    }
}
