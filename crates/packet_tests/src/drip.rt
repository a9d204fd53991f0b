// A reader that brings one byte at a time, as a slow pipe may.
use report::print_report;
use std::alloc::Global;
use std::io;
use std::io::Read;

#[derive(Drop)]
pub struct Drip<'a> {
    pub input: &'a [u8],
}

impl Read for Drip<'_> {
    fn read(&mut self, buf: &mut [u8]) -> io::Result<usize> {
        let Some((byte, rest)) = self.input.split_first() else {
            return Ok(0);
        };
        let Some(place) = buf.first_mut() else {
            return Ok(0);
        };
        *place = *byte;
        self.input = rest;
        Ok(1)
    }
}

// The lines of an input that comes byte by byte, as the program prints them.
pub(crate) fn streamed(heap: Global, input: &[u8]) -> io::Result<Vec<u8>> {
    let mut text = Vec::new(heap);
    print_report(&mut Drip { input }, &mut text)?;
    Ok(text)
}
