//! The output of stories.

use anyhow::Result;
use lane_words::Refusal;
use std::alloc::Global;
use std::fmt::{Debug, Display};
use std::io::Write;

/// Prints a story line by line. After a line that could not be printed, no more are.
#[derive(Drop)]
pub struct Stage<W> {
    pub alloc: Global,
    out: W,
    status: Result<()>,
}

impl<W: Write> Stage<W> {
    /// A stage that has printed nothing.
    pub fn new(alloc: Global, out: W) -> Stage<W> {
        Stage {
            alloc,
            out,
            status: Ok(()),
        }
    }

    /// Whether all lines were printed, or why the first one was not.
    pub fn end(self) -> Result<()>
    where
        W: Drop,
    {
        self.status
    }

    /// Prints one line, by one write if the writer takes the line whole.
    pub fn report<D: Display + Drop>(&mut self, line: D) {
        if self.status.is_ok() {
            self.status = self.write(line);
        }
    }

    /// Makes a call between two marks, and prints its answer. If it fails with `Memory`, prints
    /// that, and makes the call again.
    pub fn call<D, S, T, F>(&mut self, call: D, on: &mut S, mut make: F)
    where
        D: Display + Drop,
        T: Debug + Drop,
        F: FnMut(&mut S) -> Result<T, Refusal> + Drop,
        requires { F.IsAlwaysCallable make }
    {
        self.report(format_args!("> {call}"));
        let first = make(on);
        self.report_end();
        let answer = match first {
            Err(Refusal::Memory) => {
                self.report("refused");
                make(on)
            }
            _ => first,
        };
        self.report(format_args!("{answer:?}"));
    }

    /// Prints the mark after a call. Allocations fail until it is written, so it takes no memory.
    fn report_end(&mut self) {
        if self.status.is_ok() {
            self.status = self.write_end();
        }
    }

    fn write<D: Display + Drop>(&mut self, line: D) -> Result<()> {
        let text = format!(in self.alloc; "{line}\n")?;
        self.out.write_all(text.as_bytes())?;
        Ok(())
    }

    fn write_end(&mut self) -> Result<()> {
        self.out.write_all(b"<\n")?;
        Ok(())
    }
}
