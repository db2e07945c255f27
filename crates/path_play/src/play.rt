//! A run as it is played: the path that its steps change.
use crate::fault::Fault;
use crate::line::{Line, line_of};
use clog_base::Sizes;
use path_core::{Event, PathState};
use path_machine::{Path, StepFault};
use std::alloc::Global;

/// What came of a line.
#[derive(Clone, Copy, PartialEq, Eq)]
pub(crate) enum Outcome {
    /// Nothing is told.
    Silent,
    /// A run begins.
    Begun,
    Made,
    Refused,
    /// The state is to be shown.
    Shown,
}

/// Plays lines, one after the other.
#[derive(Drop)]
pub(crate) struct Player {
    alloc: Global,
    path: Option<Path>,
}

impl Player {
    pub fn new(alloc: Global) -> Self {
        Player { alloc, path: None }
    }

    /// Plays a line of text.
    pub fn play(&mut self, text: &str) -> Result<Outcome, Fault> {
        match line_of(self.alloc, text)? {
            Line::Nothing => Ok(Outcome::Silent),
            Line::Run => Ok(self.begin_run()),
            Line::Path(sizes, base) => self.begin(sizes, base),
            Line::Step(event) => self.step(&event),
            Line::State => Ok(Outcome::Shown),
        }
    }

    /// The state of the path, once there is one.
    pub fn state(&self) -> Result<&PathState, Fault> {
        match &self.path {
            Some(path) => Ok(path.state()),
            None => Err(Fault::NoPath),
        }
    }

    // A run has a path of its own, never that of the run before it.
    fn begin_run(&mut self) -> Outcome {
        self.path = None;
        Outcome::Begun
    }

    fn begin(&mut self, sizes: Sizes, base: u64) -> Result<Outcome, Fault> {
        self.path = Some(Path::new(self.alloc, sizes, base)?);
        Ok(Outcome::Silent)
    }

    fn step(&mut self, event: &Event) -> Result<Outcome, Fault> {
        let Some(path) = &mut self.path else {
            return Err(Fault::NoPath);
        };
        match path.step(event) {
            Ok(()) => Ok(Outcome::Made),
            Err(StepFault::NotAllowed) => Ok(Outcome::Refused),
            Err(StepFault::OutOfMemory) => Err(Fault::OutOfMemory),
        }
    }
}
