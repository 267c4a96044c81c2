use std::io::{Result, Stderr, Stdout, Write};

/// Standard output and standard error as one type of writer.
#[derive(Clone, Copy)]
pub enum StandardOutput {
    Output(Stdout),
    Error(Stderr),
}

impl Write for StandardOutput {
    fn write(&mut self, bytes: &[u8]) -> Result<usize> {
        match self {
            StandardOutput::Output(output) => output.write(bytes),
            StandardOutput::Error(error) => error.write(bytes),
        }
    }

    fn flush(&mut self) -> Result<()> {
        match self {
            StandardOutput::Output(output) => output.flush(),
            StandardOutput::Error(error) => error.flush(),
        }
    }
}
