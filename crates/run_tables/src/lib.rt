// The six tables that a program lends to a run.
// No public function has a `requires`.
#![tactic(auto)]

ghost use Rattle.std.specs.Prelude.{◌≡◌, length};
ghost use Rattle.ordering.specs.Steps.{step_made, next_of, turn_of, lines_in};
ghost use Rattle.run_tables.specs.Tables.{kept_in, empty_kept};

use ordering::step::step;
use ordering::{Run, Turn};

// Room for 128 blocks and 256 includes on both sides together, and for 128 decisions.
#[derive(Clone, Copy, Debug, PartialEq, Eq)]
pub struct Tables {
    pub blocks: [u64; 1024],
    pub includes: [u64; 256],
    pub waiting: [u64; 1024],
    pub named: [u64; 1536],
    pub flags: [u8; 128],
    pub memory: [u64; 512],
}

impl Tables {
    // The tables before the first offer: all zero.
    pub fn new() -> Tables
        ensures { kept_in result ≡ empty_kept }
    {
        Tables {
            blocks: [0; 1024],
            includes: [0; 256],
            waiting: [0; 1024],
            named: [0; 1536],
            flags: [0; 128],
            memory: [0; 512],
        }
    }

    // One step of a run on these tables: the offer at a position in, its lines out.
    pub fn step(&mut self, run: Run, s: &[u8], at: usize, out: &mut [u8]) -> Turn
        ensures value { result ≡ turn_of (length out.old) (next_of s.now at) (step_made run (kept_in self.old) s.now at) }
        ensures kept { kept_in self.new ≡ (step_made run (kept_in self.old) s.now at).kept }
        ensures lines { out.new ≡ lines_in (length out.old) (step_made run (kept_in self.old) s.now at).text }
    {
        step(
            run,
            &mut self.blocks,
            &mut self.includes,
            &mut self.waiting,
            &mut self.named,
            &mut self.flags,
            &mut self.memory,
            s,
            at,
            out,
        )
    }
}
