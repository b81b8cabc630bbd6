// stdout or stderr, without a buffer.
use std::io::{self, Stderr, Stdout, Write};

/// stdout or stderr.
#[derive(Drop)]
pub enum StandardOutput {
    Out(Stdout),
    Err(Stderr),
}

impl Write for StandardOutput {
    fn write(&mut self, bytes: &[u8]) -> io::Result<usize> {
        match self {
            StandardOutput::Out(out) => out.write(bytes),
            StandardOutput::Err(err) => err.write(bytes),
        }
    }

    fn flush(&mut self) -> io::Result<()> {
        match self {
            StandardOutput::Out(out) => out.flush(),
            StandardOutput::Err(err) => err.flush(),
        }
    }
}
