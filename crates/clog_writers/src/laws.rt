//! What a crash leaves of lines that writers log, said of one writer.
ghost use Rattle.std.specs.Prelude.{◌≡◌, ◌<◌, ◌≤◌, ℕ, List, take};
ghost use Rattle.std.specs.List.{AllPairs};
ghost use Rattle.clog_disk.specs.Files.{Files, bytes_at};
ghost use Rattle.clog_mutation.specs.declared.mutation.Mutation.{Mutation};
ghost use Rattle.clog_applied.specs.History.{LoggedLine};
ghost use Rattle.clog_crash.specs.Log.{Write};
ghost use Rattle.clog_closing.specs.Written.{HoldsFirsts, RestoresLines, SaysFirst};
ghost use Rattle.clog_writers.specs.Left.{RestoresShares, SaysShares, said_by};

/// What an image restores of a history are again the first of each writer's lines.
pub fn the_first_of_a_history_are_the_first_of_each()
    ensures { (writers n : ℕ) (mutations : List Mutation) (history : List LoggedLine)
        → HoldsFirsts writers mutations history → HoldsFirsts writers mutations (take n history) }
{}

/// Where segments are written in the order of their ids, the lines that they say stand in it too: a
/// line does not come before one of an earlier segment, whoever wrote them.
pub fn lines_stand_in_the_order_of_their_segments()
    ensures { (writers : ℕ) (mutations : List Mutation) (log : List Write)
        (history : List LoggedLine) → AllPairs (λ (a b : Write). a.id < b.id) log
        → SaysShares writers mutations log history
        → AllPairs (λ (a b : LoggedLine). a.id ≤ b.id) history }
{}

/// The lines of one writer are the first of all: the segments say them, and an image restores
/// them.
pub fn one_writer_logs_the_first_lines()
    ensures says { (mutations : List Mutation) (log : List Write) (history : List LoggedLine)
        → SaysShares 1 mutations log history → SaysFirst log mutations }
    ensures restores { (mutations : List Mutation) (history : List LoggedLine) (opened : Files)
        (least : ℕ) (image : Files) → HoldsFirsts 1 mutations history
        → RestoresShares (bytes_at opened) history least image
        → RestoresLines (bytes_at opened) mutations least image }
{}

/// And where segments say the first lines, these are a history of one writer, which says just
/// those.
pub fn first_lines_are_those_of_one_writer()
    ensures { (mutations : List Mutation) (log : List Write) → (said : SaysFirst log mutations)
        → (history : List LoggedLine) × SaysShares 1 mutations log history
        × (said_by history ≡ take said.count mutations) }
{}
