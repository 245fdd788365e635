// The cases of a file, one after another, and how many of them come out otherwise than recorded.
ghost use Rattle.std.specs.Prelude.{◌≤◌, IfOk};

use crate::reading::Fault;
use std::io;

// The most cases that a file is replayed for.
pub const MOST_CASES: u64 = 1000000000;

// How many cases there were, and how many came out otherwise.
#[derive(Clone, Copy, Debug, PartialEq, Eq)]
pub struct Tally {
    pub cases: u64,
    pub wrong: u64,
}

// A file of recorded cases, read from its start.
pub trait Cases {
    // Replays the next case, whose number is given, and says on a line if it comes out otherwise. Answers whether it comes out as
    // recorded; nothing at the end of the file.
    fn replay_next(&mut self, number: u64) -> Result<Option<bool>, Fault>;
}

// Replays case after case, up to the end of the file or a case that is broken, which is said on a line.
pub fn replay<P: Print, C: Cases>(rt: &P, cases: &mut C) -> io::Result<Tally>
    ensures { IfOk result (λ t. (t.wrong ≤ t.cases) × (t.cases ≤ MOST_CASES)) }
{
    let mut tally = Tally { cases: 0, wrong: 0 };
    for number in 0..MOST_CASES {
        match cases.replay_next(number) {
            Ok(Some(same)) => {
                tally.cases += 1;
                if !same {
                    tally.wrong += 1;
                }
            }
            Ok(None) => break,
            Err(Fault::Broken) => {
                println!(rt; "broken: case {number}")?;
                break;
            }
            Err(Fault::Io(e)) => return Err(e),
        }
    }
    Ok(tally)
}
