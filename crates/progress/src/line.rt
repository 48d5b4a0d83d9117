//! A progress on a line of a terminal.

use crate::text::{Progress, progress_text};
use crate::watched::Watcher;
use std::alloc::Global;
use std::io::Write;
use std::time::{Clock, Instant};

/// The least time between two texts, in milliseconds, and before the first.
const INTERVAL: u64 = 100;

/// What a terminal erases the rest of its line by (ECMA-48, EL).
const ERASE: &[u8] = b"\x1b[K";

/// A watcher that shows the progress of a read on a line of a terminal, which it writes over and
/// over, at most ten times a second, and wipes at the end. A write that fails is not repeated.
#[derive(Drop)]
pub struct ProgressLine<C, W> {
    clock: C,
    terminal: W,
    alloc: Global,
    /// The number of bytes read.
    read: u64,
    /// How many bytes there are, or 0 if that is not known.
    expected: u64,
    /// When the first bytes were read.
    started: Option<Instant>,
    /// How many milliseconds after that the next text is due.
    due: u64,
}

impl<C: Clock, W: Write> ProgressLine<C, W> {
    /// Nothing read yet, of so many bytes, or 0 if that is not known.
    pub fn new(clock: C, terminal: W, alloc: Global, expected: u64) -> ProgressLine<C, W> {
        ProgressLine {
            clock,
            terminal,
            alloc,
            read: 0,
            expected,
            started: None,
            due: INTERVAL,
        }
    }

    /// The milliseconds since the first bytes were read.
    fn millis(&mut self) -> u64 {
        let Ok(now) = Instant::now(&self.clock) else {
            return 0;
        };
        let Some(started) = self.started else {
            self.started = Some(now);
            return 0;
        };
        u64::try_from(now.duration_since(started).as_millis()).unwrap_or(u64::MAX)
    }

    /// Writes this over the line.
    fn write_over(&mut self, text: &[u8]) {
        let _ = self.terminal.write_all(b"\r");
        let _ = self.terminal.write_all(text);
        let _ = self.terminal.write_all(ERASE);
        let _ = self.terminal.flush();
    }

    fn show(&mut self, millis: u64) {
        let progress = Progress {
            read: self.read,
            expected: self.expected,
            millis,
        };
        if let Ok(text) = progress_text(self.alloc, &progress) {
            self.write_over(text.as_bytes());
        }
    }
}

impl<C: Clock, W: Write> Watcher for ProgressLine<C, W> {
    fn read(&mut self, bytes: usize) {
        self.read = self.read.saturating_add(bytes as u64);
        let millis = self.millis();
        if millis >= self.due {
            self.due = millis.saturating_add(INTERVAL);
            self.show(millis);
        }
    }

    fn ended(&mut self) {
        if self.due > INTERVAL {
            self.due = INTERVAL;
            self.started = None;
            self.write_over(b"");
        }
    }
}

impl<W: Watcher> Watcher for Option<W> {
    fn read(&mut self, bytes: usize) {
        if let Some(watcher) = self {
            watcher.read(bytes);
        }
    }

    fn ended(&mut self) {
        if let Some(watcher) = self {
            watcher.ended();
        }
    }
}
