//! A store may go from one thread to another where its disk may: so it can be the keeper of a path
//! that threads share.
ghost use Rattle.std.specs.Prelude.{◌≡◌};

use crate::store::Store;
use clog_disk::Disk;

// Hands on a value that may go to another thread.
fn hand_over<T: Send>(value: T) -> T
    ensures { result ≡ value }
{
    value
}

/// Hands on a store as to another thread, unchanged.
pub fn a_store_crosses_threads<D: Disk + Send>(store: Store<D>) -> Store<D>
    ensures { result ≡ store }
{
    hand_over(store)
}
