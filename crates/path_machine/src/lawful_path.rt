//! A write path of whole notes: each of its states is lawful, since the opening is, and since each
//! allowed step that carries a whole note keeps the law.
ghost use Rattle.std.specs.Prelude.{◌≡◌, IfOk};
ghost use Rattle.path_core.specs.declared.state.PathState.{PathState};
ghost use Rattle.path_core.specs.Lawful.{IsLawfulPath};
ghost use Rattle.path_core.specs.Runs.{opening};
ghost use Rattle.path_core.specs.Whole.{CarriesWhole};
ghost use Rattle.path_machine.specs.Steps.{StepsTo};

use crate::path::{Path, StepFault};
use clog_base::{OutOfMemory, Sizes};
use path_core::{Event, PathState};
use std::alloc::Global;
use std::marker::Model;

/// A write path whose state is lawful. Contracts see its state. `Path` makes the same steps and
/// asks for no whole notes; here whoever steps knows that the state is lawful.
#[derive(Drop)]
pub struct LawfulPath {
    path: Path,
    ghost lawful: { ∥ IsLawfulPath path ∥₁ },
}

impl Model for LawfulPath {
    ghost Value = { PathState };

    ghost view = { λ p. p.path };
}

impl LawfulPath {
    /// A path that has not begun. `base` is the id of its first segment.
    pub fn new(alloc: Global, sizes: Sizes, base: u64) -> Result<LawfulPath, OutOfMemory>
        ensures { IfOk result (λ p. p ≡ opening sizes.tables sizes.writers sizes.capacity
            sizes.ordinals base) }
    {
        Ok(LawfulPath {
            path: Path::new(alloc, sizes, base)?,
        })
    }

    /// The state as it is now, which is lawful.
    pub fn state(&self) -> &PathState
        ensures same { result.now ≡ self.now }
        ensures lawful { ∥ IsLawfulPath self.now ∥₁ }
    {
        self.path.state()
    }

    /// Makes a step, exactly where it is allowed; its note has to be whole. After a refusal nothing
    /// has changed.
    pub fn step(&mut self, event: &Event) -> Result<(), StepFault>
        requires { CarriesWhole event.now }
        ensures steps { StepsTo result self.old event.now self.new }
        ensures lawful { ∥ IsLawfulPath self.new ∥₁ }
    {
        self.path.step(event)
    }
}
