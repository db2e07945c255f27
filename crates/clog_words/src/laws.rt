//! What holds of all lists of words.
ghost use Rattle.std.specs.Prelude.{◌≡◌, ℕ, List, [], ◌∷◌, codes, true, false, None};
ghost use Rattle.sync_core.specs.declared.SyncCore.TheVariants.{Periodic};
ghost use Rattle.clog_words.specs.declared.request.Request.{Request};
ghost use Rattle.clog_words.specs.declared.request.Request.TheVariants.{Apply, Replay};
ghost use Rattle.clog_words.specs.Asks.{Asks};

/// A list of words asks for one request at most. `apply` alone asks for what its options are where
/// none is given, and `replay` is asked for in both spellings, in either order.
pub fn words_laws()
    ensures one { (words : List (List ℕ)) (request other : Request) → Asks words request
        → Asks words other → request ≡ other }
    ensures apply_alone { Asks (codes "apply" ∷ []) (Apply (record {
      writers = 1;
      sync = Periodic 10000;
      segment_kib = 32768;
      flush_at = None;
      archive = false;
      receipts = false;
      drain = false;
      dump = false;
    })) }
    ensures replay_apart { Asks
        (codes "replay" ∷ codes "--ignore-errors" ∷ codes "--workers" ∷ codes "064" ∷ [])
        (Replay (record { workers = 64; ignore_errors = true })) }
    ensures replay_joined { Asks
        (codes "replay" ∷ codes "--workers=64" ∷ codes "--ignore-errors" ∷ [])
        (Replay (record { workers = 64; ignore_errors = true })) }
{}
