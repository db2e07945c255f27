//! What single steps leave as it is. Nothing here runs; each function's contract is a promise of
//! the path.
ghost use Rattle.std.specs.Prelude.{◌≡◌, ◌≢◌, ℕ, List};
ghost use Rattle.path_core.specs.declared.event.Event.{Event};
ghost use Rattle.path_core.specs.declared.event.Place.{Place};
ghost use Rattle.path_core.specs.declared.state.PathState.{PathState};
ghost use Rattle.path_core.specs.Allowed.{IsStep};
ghost use Rattle.path_core.specs.Frame.{left_by, SameSizes};
ghost use Rattle.path_core.specs.Lawful.{IsLawfulPath};
ghost use Rattle.path_core.specs.Next.{next_of};
ghost use Rattle.path_core.specs.Parts.{seat_of};
ghost use Rattle.path_core.specs.Runs.{Past};
ghost use Rattle.path_core.specs.Words.{reading, by_of, place_of};

/// A step changes no word but its own: at every other place the same stands as before. At its own
/// place stands what the step makes of what stood there, whatever else the state holds.
pub fn a_step_changes_its_word_alone()
    ensures elsewhere { (x : PathState) (e : Event) (at : Place) → IsLawfulPath x → IsStep x e
        → at ≢ place_of e → reading (next_of x e) at ≡ reading x at }
    ensures there { (x : PathState) (e : Event) → IsLawfulPath x → IsStep x e
        → reading (next_of x e) (place_of e) ≡ left_by e (reading x (place_of e)) }
{}

/// A step changes the part of no seat but its own.
pub fn a_step_changes_its_seat_alone()
    ensures { (x : PathState) (e : Event) (w : ℕ) → w ≢ by_of e
        → seat_of (next_of x e) w ≡ seat_of x w }
{}

/// A run keeps the sizes: the capacity and the ordinals, and how many tables and seats there are.
pub fn runs_keep_sizes()
    ensures { (x y : PathState) (events : List Event) → Past x events y → SameSizes x y }
{}
