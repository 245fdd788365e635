// The stored rows in the order of their references, as the test of the tables leaves them.
ghost use Rattle.index.specs.Keys.{reference_key};
ghost use Rattle.index.specs.Search.{Indexed};

#[derive(Clone, Copy, Debug)]
pub(crate) struct Ordered<'a> {
    pub blocks: &'a [u64],
    pub order: &'a [u16],
    pub stored: usize,
    pub ghost indexed: { Indexed (reference_key blocks.now) stored order.now },
}
