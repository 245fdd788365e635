// What the programs share: reading until an area is full, and the replay of a file of recorded cases. The programs' tables and buffers are arrays
// of a fixed size, as the relays': no allocation can fail, and none of C's is called.
// No public function has a `requires`.
#![tactic(auto)]

pub mod cases; // the cases of a file, one after another
pub mod reading; // areas filled from a reader
