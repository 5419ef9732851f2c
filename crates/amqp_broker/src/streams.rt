//! The standard streams as a source and a sink.
ghost use Rattle.std.specs.Prelude.{◌≡◌, Option, None};

use outside_core::{ReadAnswer, Sink, Source, WriteAnswer};
use std::io::{Read, Stdin, Stdout, Write};

/// The standard input.
#[derive(Drop)]
pub(crate) struct Input {
    stream: Stdin,
    failed: u64,
}

impl Input {
    pub(crate) fn new(stream: Stdin) -> Input
        ensures { result.failed ≡ 0 }
    {
        Input { stream, failed: 0 }
    }
}

impl Source for Input {
    ghost left = { λ _. None };

    ghost faults = { λ s. s.failed };

    fn read(&mut self, into: &mut [u8]) -> ReadAnswer {
        match self.stream.read(into) {
            Ok(0) => ReadAnswer::End,
            Ok(count) => ReadAnswer::Took(count),
            Err(_) => {
                self.failed = self.failed.saturating_add(1);
                ReadAnswer::Failed
            }
        }
    }
}

/// The standard output.
#[derive(Drop)]
pub(crate) struct Output {
    stream: Stdout,
    failed: u64,
}

impl Output {
    pub(crate) fn new(stream: Stdout) -> Output
        ensures { result.failed ≡ 0 }
    {
        Output { stream, failed: 0 }
    }
}

impl Sink for Output {
    ghost held = { λ _. None };

    ghost faults = { λ s. s.failed };

    fn write(&mut self, piece: &[u8]) -> WriteAnswer {
        match self.stream.write(piece) {
            Ok(0) | Err(_) => {
                self.failed = self.failed.saturating_add(1);
                WriteAnswer::Failed
            }
            Ok(count) => WriteAnswer::Took(count),
        }
    }
}
