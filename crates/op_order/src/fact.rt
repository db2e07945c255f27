//! What is true of each published value.

/// A fact about the sequence of a publication and its value.
pub trait Fact {
    ghost use Rattle.std.specs.Prelude.{ℕ};

    ghost fits: { ℕ → ℕ → Type 0 };
}
