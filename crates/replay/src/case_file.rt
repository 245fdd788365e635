// A case of the file: the number of its call, the number of words of the request and the words, then the same of the response. A word is
// eight bytes, the most significant first.
use crate::calls::made;
use crate::request::Request;
use crate::response::{Failure, Response, WORDS};
use program_io::cases::Cases;
use program_io::reading::{Fault, fill, fill_next};
use std::io;
use std::io::Read;
use types::words::index;

// Fills an area with the next words; broken too where it has more than WORDS.
fn fill_words<F: Read>(file: &mut F, area: &mut [u64]) -> Result<(), Fault> {
    let mut eights = [[0u8; 8]; WORDS];
    let Some(front) = eights.get_mut(..area.len()) else {
        return Err(Fault::Broken);
    };
    fill(file, front.as_flattened_mut())?;
    for (word, eight) in area.iter_mut().zip(front.iter()) {
        *word = u64::from_be_bytes(*eight);
    }
    Ok(())
}

// Reads the words of a request or of a response, whose number stands before them, into an area, and lends them.
fn words<'a, F: Read>(file: &mut F, area: &'a mut [u64; WORDS]) -> Result<&'a [u64], Fault> {
    let mut count = [0u8; 8];
    fill(file, &mut count)?;
    let Some(front) = area.get_mut(..index(u64::from_be_bytes(count))) else {
        return Err(Fault::Broken);
    };
    fill_words(file, front)?;
    Ok(front)
}

// The response to a request of the call of that number.
fn respond(number: u64, request: &[u64], out: &mut Response) {
    out.put(&[1]);
    if let Err(failure) = made(number, Request::new(request), out) {
        out.clear();
        if let Failure::Refused(refusal) = failure {
            out.put(&[2, refusal.number()]);
        }
    }
}

// Says which case is wrong, and the response that it got here.
fn say_wrong<R: Print>(rt: &R, number: u64, response: &[u64]) -> io::Result<()> {
    print!(rt; "wrong: case {number}:")?;
    for word in response {
        print!(rt; " {word}")?;
    }
    rt.println("")
}

// The cases that are left to read. Each program has one of its own, since what a case holds differs.
#[derive(Drop)]
pub struct CaseFile<'r, R, F: Drop> {
    pub rt: &'r R,
    pub file: F,
}

impl<R: Print, F: Read + Drop> Cases for CaseFile<'_, R, F> {
    fn replay_next(&mut self, number: u64) -> Result<Option<bool>, Fault> {
        let mut call = [0u8; 8];
        let mut request = [0; WORDS];
        let mut expected = [0; WORDS];
        let mut response = Response::new();
        if !fill_next(&mut self.file, &mut call)? {
            return Ok(None);
        }
        let request = words(&mut self.file, &mut request)?;
        let expected = words(&mut self.file, &mut expected)?;
        respond(u64::from_be_bytes(call), request, &mut response);
        if response.words() == expected {
            return Ok(Some(true));
        }
        say_wrong(self.rt, number, response.words())?;
        Ok(Some(false))
    }
}
