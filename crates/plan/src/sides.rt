// The lent tables of both sides, with their rows in order.
ghost use Rattle.std.specs.Prelude.{◌≡◌, ◌*◌};
ghost use Rattle.types.specs.Limits.{reference_words};
ghost use Rattle.block_tables.specs.Words.{stretch};
ghost use Rattle.block_store.specs.Store.{field_of};
ghost use Rattle.plan.specs.Sides.{row_below, stored_row, pending_row};

use block_tables::indexed::row_in;
use block_tables::parts::named_by;
use types::BlockReference;

// `blocks` holds `base` stored rows, of which `order` has all but the last in order; `waiting` and `named` hold `pending` rows, which `others`
// has in order.
#[derive(Clone, Copy, Debug, PartialEq, Eq)]
pub struct Sides<'a> {
    pub blocks: &'a [u64],
    pub order: &'a [u16],
    pub base: usize,
    pub waiting: &'a [u64],
    pub named: &'a [u64],
    pub others: &'a [u16],
    pub pending: usize,
}

// A row, where it is below n.
#[tactic(auto, unfolding(crate::specs::Sides::row_below))]
fn row_below(n: usize, row: usize) -> Option<usize>
    ensures { result ≡ row_below n row }
{
    if row < n { Some(row) } else { None }
}

impl<'a> Sides<'a> {
    // The stored row that has the reference.
    pub fn stored_row(&self, x: BlockReference) -> Option<usize>
        ensures { result ≡ stored_row self.now x }
    {
        let sorted = self.base.saturating_sub(1);
        row_below(
            self.base,
            row_in(self.blocks, self.order, sorted, self.base, x),
        )
    }

    // The pending row that has the reference.
    pub fn pending_row(&self, x: BlockReference) -> Option<usize>
        ensures { result ≡ pending_row self.now x }
    {
        row_below(
            self.pending,
            row_in(self.waiting, self.others, self.pending, self.pending, x),
        )
    }

    // The includes of a pending row, six words each.
    pub fn named_by(&self, row: usize) -> &'a [u64]
        ensures { result.now ≡ stretch self.now.named.now (field_of self.now.waiting.now row 6 * reference_words) (field_of self.now.waiting.now row 7 * reference_words) }
    {
        named_by(self.waiting, self.named, row)
    }
}
