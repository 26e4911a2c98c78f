// Standard output, as `write!` writes on it.
use std::fmt::Display;
use std::io::Write;
use std::{fmt, io};

// A write that fails is kept, the first one, and the writes after it are tried all the same.
#[derive(Drop)]
pub struct Output {
    stdout: io::Stdout,
    outcome: io::Result<()>,
}

impl fmt::Write for Output {
    // It answers no failure, so that the rest of a text is tried too.
    fn write_str(&mut self, text: &str) -> fmt::Result {
        let written = self.stdout.write_all(text.as_bytes());
        if self.outcome.is_ok() {
            self.outcome = written;
        }
        Ok(())
    }
}

impl Output {
    pub fn new(stdout: io::Stdout) -> Self {
        Output {
            stdout,
            outcome: Ok(()),
        }
    }

    // What `write!` calls.
    pub fn write_fmt<D: Display + Drop>(&mut self, text: D) {
        let _ = fmt::Write::write(self, text);
    }

    // Whether every write could be done.
    pub fn end(self) -> io::Result<()> {
        self.outcome
    }
}
