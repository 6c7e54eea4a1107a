// The system that a program runs on: its files and standard streams, which note why they failed.
use crate::messages::Causes;
use crate::reasons::Cause;
use crate::replacement::Replacement;
use crate::streams::{Device, Input, LARGE, Progress};
use crate::system::System;
use std::alloc::Global;
use std::cell::Cell;
use std::fs;
use std::io::IsTerminal;
use std::path::Path;
use wasm_io::ReadSource;

/// The system, and where its devices note why they failed.
#[derive(Drop)]
pub(crate) struct Host<'a> {
    /// The system.
    pub(crate) rt: &'a HostRuntime,
    /// Why the input failed.
    pub(crate) input_failure: &'a Cell<Option<Cause>>,
    /// Why the output failed.
    pub(crate) output_failure: &'a Cell<Option<Cause>>,
    /// Whether large files show how far they are read.
    pub(crate) has_progress: &'a Cell<bool>,
}

// Returns the progress of a file, if it is large, and standard error a terminal that shows nothing else.
fn progress_of(host: &Host<'_>, file: &fs::File) -> Option<Progress> {
    if !host.has_progress.get()
        || !host.rt.stderr().is_terminal()
        || host.rt.stdout().is_terminal()
    {
        return None;
    }
    match file.metadata() {
        Ok(known) if known.is_file() && known.len() > LARGE => {
            Some(Progress::new(host.rt.stderr(), known.len()))
        }
        _ => None,
    }
}

impl<'a> System for Host<'a> {
    type Input = ReadSource<Input<'a>>;

    type Output = Replacement<'a>;

    // `std` doesn't say what a file holds, and not which one has a name.
    ghost opens = { λ host name result. Unit {0} };

    ghost rereads = { λ host name result. Unit {0} };

    ghost shows = { λ host result. Unit {0} };

    ghost creates = { λ host input name result later. Unit {0} };

    ghost replaces = { λ host output is_complete result later. Unit {0} };

    fn open(&self, name: &str) -> Result<ReadSource<Input<'a>>, Cause> {
        if name == "-" {
            let device = Device::Standard(self.rt.stdin());
            return Ok(ReadSource::new(Input::new(device, self.input_failure, None)));
        }
        match fs::open(self.rt, name) {
            Ok(file) => {
                let progress = progress_of(self, &file);
                let input = Input::new(Device::File(file), self.input_failure, progress);
                Ok(ReadSource::new(input))
            }
            Err(error) => Err(Cause::of(&error)),
        }
    }

    fn is_regular(&self, name: &str) -> bool {
        name != "-" && Path::new(name).is_file(self.rt)
    }

    fn is_terminal(&self) -> bool {
        self.rt.stdout().is_terminal()
    }

    fn create(&mut self, alloc: Global, input: &str, name: &str) -> Result<Replacement<'a>, Cause> {
        match Replacement::create(self.rt, self.output_failure, alloc, input, name) {
            Ok(output) => Ok(output),
            Err(error) => Err(Cause::of(&error)),
        }
    }

    fn replace(&mut self, output: Replacement<'a>, is_complete: bool) -> Result<(), Cause> {
        match output.end(is_complete) {
            Ok(()) => Ok(()),
            Err(error) => Err(Cause::of(&error)),
        }
    }

    fn hide_progress(&self) {
        self.has_progress.set(false);
    }

    fn causes(&self) -> Causes {
        Causes {
            input: self.input_failure.get(),
            output: self.output_failure.get(),
        }
    }
}
