// A case of the file: how many bytes its stream has and how many its text, each in four bytes, the most significant first; then the stream
// and the text.
use crate::running::printed;
use program_io::cases::Cases;
use program_io::reading::{Fault, fill, fill_next};
use std::io::Read;

// The most bytes of a stream.
const STREAM: usize = 262144;

// The most bytes of a recorded text.
const EXPECTED: usize = 32768;

// Room for a printed text: more than a recorded one has, so that one that is cut off is never equal.
const PRINTED: usize = 65536;

// Fills the front of an area with the next n bytes, and lends it.
fn bytes<'a, F: Read>(file: &mut F, n: usize, area: &'a mut [u8]) -> Result<&'a [u8], Fault> {
    let Some(front) = area.get_mut(..n) else {
        return Err(Fault::Broken);
    };
    fill(file, front)?;
    Ok(front)
}

// Whether the program prints the text for the stream.
fn is_printed(stream: &[u8], expected: &[u8]) -> bool {
    let mut text = [0; PRINTED];
    let end = printed(stream, &mut text);
    text.get(..end) == Some(expected)
}

// The cases that are left to read. Each program has one of its own, since what a case holds differs.
#[derive(Drop)]
pub struct CaseFile<'r, R, F: Drop> {
    pub rt: &'r R,
    pub file: F,
}

impl<R: Print, F: Read + Drop> Cases for CaseFile<'_, R, F> {
    fn replay_next(&mut self, number: u64) -> Result<Option<bool>, Fault> {
        let mut head = [0; 8];
        let mut stream = [0; STREAM];
        let mut expected = [0; EXPECTED];
        if !fill_next(&mut self.file, &mut head)? {
            return Ok(None);
        }
        let [a, b, c, d, e, f, g, h] = head;
        let n = u32::from_be_bytes([a, b, c, d]) as usize;
        let m = u32::from_be_bytes([e, f, g, h]) as usize;
        let stream = bytes(&mut self.file, n, &mut stream)?;
        let expected = bytes(&mut self.file, m, &mut expected)?;
        let same = is_printed(stream, expected);
        if !same {
            println!(self.rt; "wrong: case {number}")?;
        }
        Ok(Some(same))
    }
}
