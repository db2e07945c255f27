//! A gate for tests that want two writers beside one another: each is held until the other has
//! come. A wait that was once given up is not begun again.

use crate::gate::{Gate, Point};
use clog_base::Writer;
use std::hint::spin_loop;
use std::sync::atomic::{AtomicBool, Ordering};

/// How many turns a writer waits at most.
const MOST_TURNS: u32 = 100_000_000;

/// What one writer waits for, and how its wait ended.
#[derive(Drop)]
struct Hold {
    has_come: AtomicBool,
    was_met: AtomicBool,
    was_given_up: AtomicBool,
}

impl Hold {
    fn new() -> Hold {
        Hold {
            has_come: AtomicBool::new(false),
            was_met: AtomicBool::new(false),
            was_given_up: AtomicBool::new(false),
        }
    }

    /// Tells that the other writer has come.
    fn come(&self) {
        self.has_come.store(true, Ordering::SeqCst);
    }

    /// Waits until the other writer has come.
    fn wait(&self) {
        if self.was_given_up.load(Ordering::SeqCst) {
            return;
        }
        for _ in 0..MOST_TURNS {
            if self.has_come.load(Ordering::SeqCst) {
                self.was_met.store(true, Ordering::SeqCst);
                return;
            }
            spin_loop();
        }
        self.was_given_up.store(true, Ordering::SeqCst);
    }

    /// Whether a wait has ended, and none was given up.
    fn ended_well(&self) -> bool {
        self.was_met.load(Ordering::SeqCst) && !self.was_given_up.load(Ordering::SeqCst)
    }
}

/// A gate that lets two writers really meet. Writer 1 waits at `Started` until writer 0 has reached
/// `Deposited`, and writer 0 waits there until writer 1 has reached `Returned`; each waits for at
/// most 100,000,000 turns. Others pass at once.
#[derive(Drop)]
pub struct HoldGate {
    deposited: Hold,
    returned: Hold,
}

impl HoldGate {
    /// A gate at which nobody has been yet.
    pub fn new() -> HoldGate {
        HoldGate {
            deposited: Hold::new(),
            returned: Hold::new(),
        }
    }

    /// Whether both writers have waited, and none of their waits was given up.
    pub fn met(&self) -> bool {
        self.deposited.ended_well() && self.returned.ended_well()
    }
}

impl Gate for HoldGate {
    fn reached(&self, writer: Writer, point: Point) {
        match (writer.0, point) {
            (0, Point::Deposited) => {
                self.deposited.come();
                self.returned.wait();
            }
            (1, Point::Started) => self.deposited.wait(),
            (1, Point::Returned) => self.returned.come(),
            _ => {}
        }
    }
}
