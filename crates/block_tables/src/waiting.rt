// The lent tables of the pending side, together: the rows, the references that they include, and how many rows are used.

#[derive(Clone, Copy, Debug, PartialEq, Eq)]
pub struct Waiting<'a> {
    pub waiting: &'a [u64],
    pub named: &'a [u64],
    pub pending: usize,
}
