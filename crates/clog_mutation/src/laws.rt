//! Laws of the payload's grammar. Each is the contract of a function that does nothing.
ghost use Rattle.std.specs.Prelude.{◌≡◌, ◌⊎◌, ℕ, List};
ghost use Rattle.clog_spec.specs.Crc.{IsBytes};
ghost use Rattle.clog_base.specs.declared.fault.PayloadFault.{PayloadFault};
ghost use Rattle.clog_mutation.specs.declared.mutation.Mutation.{Mutation};
ghost use Rattle.clog_mutation.specs.Payload.{payload_of};
ghost use Rattle.clog_mutation.specs.Stored.{IsStored, IsPayload};
ghost use Rattle.clog_mutation.specs.Refusals.{IsRefused};

/// Bytes are the payload of one mutation, or are refused for one fault.
pub fn payload_laws()
    // No two mutations have one payload.
    ensures one_mutation { (m other : Mutation) → IsStored m → IsStored other
        → payload_of m ≡ payload_of other → m ≡ other }
    // Bytes have one refusal at most.
    ensures one_refusal { (bytes : List ℕ) (fault other : PayloadFault)
        → IsRefused bytes fault → IsRefused bytes other → fault ≡ other }
    // A payload is not refused.
    ensures never_both { (bytes : List ℕ) (m : Mutation) (fault : PayloadFault)
        → IsPayload bytes m → IsRefused bytes fault → ⊥ }
    // What is no payload is refused.
    ensures one_of_both { (bytes : List ℕ) → IsBytes bytes
        → ((m : Mutation) × IsPayload bytes m) ⊎ ((fault : PayloadFault) × IsRefused bytes fault) }
{}
