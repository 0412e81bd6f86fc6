use std::sync::Arc;
use std::sync::atomic::{AtomicBool, Ordering};

/// A gate that threads share: any of them may raise it, and it stays raised.
pub trait Gate {
    /// Raises the gate.
    fn raise(&self);

    /// Whether the gate was raised.
    fn raised(&self) -> bool;
}

impl<G: Gate> Gate for &G {
    fn raise(&self) {
        (**self).raise();
    }

    fn raised(&self) -> bool {
        (**self).raised()
    }
}

impl<G: Gate> Gate for Arc<G> {
    fn raise(&self) {
        (**self).raise();
    }

    fn raised(&self) -> bool {
        (**self).raised()
    }
}

/// A gate in memory.
#[derive(Drop)]
pub struct Flag {
    raised: AtomicBool,
}

impl Flag {
    /// A gate that isn't raised.
    pub fn new() -> Self {
        Flag {
            raised: AtomicBool::new(false),
        }
    }
}

impl Gate for Flag {
    fn raise(&self) {
        self.raised.store(true, Ordering::SeqCst);
    }

    fn raised(&self) -> bool {
        self.raised.load(Ordering::SeqCst)
    }
}
