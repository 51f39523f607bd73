// A writer that goes on: a write that fails ends nothing, so that a reader who is slow once still gets what comes behind.
use std::fmt::Display;
use std::io;

// What is lent for printing, each write of it tried, whatever became of the one before.
#[derive(Drop)]
pub(crate) struct Untiring<'a, P>(pub(crate) &'a P);

impl<'a, P: Print> Print for Untiring<'a, P> {
    fn print<D: Display + Drop>(&self, value: D) -> io::Result<()> {
        let _ = self.0.print(value);
        Ok(())
    }

    fn println<D: Display + Drop>(&self, value: D) -> io::Result<()> {
        let _ = self.0.println(value);
        Ok(())
    }

    fn write_all(&self, bytes: &[u8]) -> io::Result<()> {
        let _ = self.0.write_all(bytes);
        Ok(())
    }
}
