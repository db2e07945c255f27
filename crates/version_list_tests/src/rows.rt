//! What rows are gathered into. A row of key 8 is held there, and the first one of key 9 is
//! refused.
ghost use Rattle.std.specs.Prelude.{◌≡◌, [], IfOk};

use crate::hold::Hold;
use crate::row::Row;
use left_right::Absorb;
use std::alloc::{AllocError, Global};
use std::sync::Arc;
use version_list::Gathers;

/// The rows, in the order of their publication.
#[derive(Drop)]
pub struct Rows {
    pub list: Vec<Row>,
    pub hold: Arc<Hold, Global>,
    pub refuses: bool,
}

impl Absorb<Row> for Rows {
    // A clause reads an array as a list, of any length.
    type State = [Row; 0];

    ghost use Rattle.std.specs.Prelude.{◌++◌, ◌∷◌, []};

    ghost state = { λ s. s.list.items };

    ghost applied = { λ rows row. rows ++ row ∷ [] };

    fn absorb_first(&mut self, operation: &Row, _other: &Rows) -> Result<(), AllocError> {
        if operation.key == 8 {
            self.hold.publication_comes();
        }
        if operation.key == 9 && self.refuses {
            self.refuses = false;
            return Err(AllocError);
        }
        match self.list.push(*operation) {
            Ok(()) => Ok(()),
            Err(_) => Err(AllocError),
        }
    }
}

impl Gathers<Row> for Rows {
    ghost use Rattle.std.specs.Prelude.{[]};

    ghost start = { [] };
}

/// Two values with no row, of which each refuses its first row of key 9.
pub fn two_empty(alloc: Global, hold: &Arc<Hold, Global>) -> Result<(Rows, Rows), AllocError>
    ensures { IfOk result (λ r. (r.0.list.items ≡ []) × (r.1.list.items ≡ [])) }
{
    let one = Arc::try_clone(hold)?;
    let two = Arc::try_clone(hold)?;
    Ok((
        Rows {
            list: Vec::new(alloc),
            hold: one,
            refuses: true,
        },
        Rows {
            list: Vec::new(alloc),
            hold: two,
            refuses: true,
        },
    ))
}
