//! An input that is open.
use std::fs::{self, File};
use std::io::{self, Read, Stdin};

/// An input that is open.
#[derive(Drop)]
pub enum Input {
    Standard(Stdin),
    File(File),
}

impl Input {
    /// Opens the input of that name, `-` for standard input.
    ///
    /// # Errors
    ///
    /// The system's error.
    pub fn open(rt: &HostRuntime, name: &str) -> io::Result<Input> {
        if name == "-" {
            return Ok(Input::Standard(rt.stdin()));
        }
        Ok(Input::File(fs::open(rt, name)?))
    }
}

impl Read for Input {
    fn read(&mut self, buf: &mut [u8]) -> io::Result<usize> {
        match self {
            Input::Standard(stdin) => stdin.read(buf),
            Input::File(file) => file.read(buf),
        }
    }
}
