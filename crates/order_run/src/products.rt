//! The values that are published: each follows from its sequence.
ghost use Rattle.std.specs.Prelude.{◌≡◌, ◌<◌, ◌^◌};
ghost use Rattle.order_run.specs.Rounds.{product_of};

use op_order::Fact;

/// The value of a sequence is its product with a prime, in 32 bits.
pub struct Products;

impl Fact for Products {
    ghost use Rattle.std.specs.Prelude.{◌≡◌};
    ghost use Rattle.order_run.specs.Rounds.{product_of};

    ghost fits = { λ sequence value. value ≡ product_of sequence };
}

/// The value of a sequence.
pub fn product(sequence: u64) -> u64
    requires { sequence < 2 ^ 32 }
    ensures { result ≡ product_of sequence }
{
    sequence * 2_654_435_761 % 4_294_967_296
}
