//! Lines that are typed at a terminal, behind a prompt.
use ot_client_ask::{LineEnd, LineSource, ReadFault};
use std::io::Eprint;

/// Lines, and before each is read a prompt on standard error where a person types them.
#[derive(Drop)]
pub(crate) struct Prompted<'a, R: Eprint, T: LineSource + Drop> {
    pub(crate) rt: &'a R,
    pub(crate) lines: T,
    pub(crate) is_typed: bool,
}

impl<'a, R: Eprint, T: LineSource + Drop> LineSource for Prompted<'a, R, T> {
    ghost coming = { λ s. T.coming s.lines };

    fn read_line(&mut self, line: &mut Vec<u8>) -> Result<LineEnd, ReadFault> {
        if self.is_typed {
            let _ = eprint!(self.rt; "> ");
        }
        self.lines.read_line(line)
    }

    fn wait_for_end(&mut self) {
        self.lines.wait_for_end()
    }
}
