// Text in a lent block, in front of a writer: nothing is allocated, and what failed is not written again.
use std::fmt;
use std::io::{self, Write};
use timing::Refusal;

pub(crate) type Block = [u8; 65536];

// No line is longer.
const LINE: usize = 200;

#[derive(Drop)]
pub(crate) struct Text<'a, W> {
    out: W,
    block: &'a mut Block,
    len: usize,
}

impl<'a, W: Write> Text<'a, W> {
    pub(crate) fn new(out: W, block: &'a mut Block) -> Text<'a, W> {
        Text { out, block, len: 0 }
    }

    // Writes the block.
    pub(crate) fn flush(&mut self) -> io::Result<()> {
        let len = self.len.min(self.block.len());
        self.len = 0;
        self.out.write_all(&self.block[..len])
    }

    // Behind a line: writes the block where a further line might not fit.
    pub(crate) fn end_line(&mut self) -> io::Result<()> {
        if self.len.min(self.block.len()) + LINE > self.block.len() {
            self.flush()?;
        }
        Ok(())
    }

    // A refusal, behind what the block holds.
    pub(crate) fn put_refused(&mut self, r: Refusal) -> io::Result<()> {
        self.flush()?;
        print::refused(&mut self.out, r)?;
        writeln!(self.out)
    }
}

impl<W> fmt::Write for Text<'_, W> {
    fn write_str(&mut self, s: &str) -> fmt::Result {
        let start = self.len.min(self.block.len());
        let end = start + s.len();
        if end > self.block.len() {
            return Err(fmt::Error);
        }
        let block = &mut self.block[..];
        block[start..end].copy_from_slice(s.as_bytes());
        self.len = end;
        Ok(())
    }
}
