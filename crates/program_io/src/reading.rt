// Areas filled from a reader. Of the bytes the clauses speak where the reader's are known, as those of a slice are.
ghost use Rattle.std.specs.Prelude.{◌≡◌, ◌<◌, ◌≤◌, true, false, length, take, IfOk, OnOk};
ghost use Rattle.std.specs.Io.KnownBytes.{Consumes, IsAtEnd};
ghost use Rattle.program_io.specs.declared.reading.Fault.TheVariants.{Io};

use std::io;
use std::io::Read;

// What keeps a case from being replayed: the file ends before the case does, or the case is too long; or a read or a write failed.
#[derive(Clone, Copy, Debug)]
pub enum Fault {
    Broken,
    Io(io::Error),
}

impl From<io::Error> for Fault {
    ghost from_gives = { λ e fault. fault ≡ Io e };

    fn from(e: io::Error) -> Fault {
        Fault::Io(e)
    }
}

// Reads until the area is full or the reader ends, and answers how many bytes came.
pub fn read_full<R: Read>(reader: &mut R, area: &mut [u8]) -> io::Result<usize>
    ensures bound { IfOk result (λ n. n ≤ length area.new) }
    ensures bytes { IfOk result (λ n. Consumes (R.remaining reader.old) (R.remaining reader.new) (take n area.new)) }
    ensures ended { IfOk result (λ n. n < length area.new → IsAtEnd (R.remaining reader.new)) }
{
    let mut n = 0;
    // A while: the reader says how many bytes come at a time.
    while n < area.len() {
        let more = reader.read(&mut area[n..])?;
        if more == 0 {
            break;
        }
        n += more;
    }
    Ok(n)
}

// Fills the area with the next bytes. No where none are left; broken where there are some, but too few.
pub fn fill_next<R: Read>(reader: &mut R, area: &mut [u8]) -> Result<bool, Fault>
    ensures filled { IfOk result (λ yes. yes ≡ true → Consumes (R.remaining reader.old) (R.remaining reader.new) area.new) }
    ensures ended { IfOk result (λ yes. yes ≡ false → IsAtEnd (R.remaining reader.new)) }
{
    let n = read_full(reader, area)?;
    if n == area.len() {
        return Ok(true);
    }
    if n == 0 {
        return Ok(false);
    }
    Err(Fault::Broken)
}

// Fills the area with the next bytes; broken where there are too few.
pub fn fill<R: Read>(reader: &mut R, area: &mut [u8]) -> Result<(), Fault>
    ensures { OnOk result (Consumes (R.remaining reader.old) (R.remaining reader.new) area.new) }
{
    if fill_next(reader, area)? {
        return Ok(());
    }
    Err(Fault::Broken)
}
