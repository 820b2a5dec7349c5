//! A gate that holds the first tenant's pieces.
use ot_pool::Gate;
use std::sync::atomic::{AtomicBool, AtomicU64, Ordering};
use std::thread;

/// How many turns a test waits at most. In each it looks once, and lets other threads run.
const TURNS: u32 = 10_000_000;

/// Stands between the claim of each piece and its run, and holds those of the first tenant, behind so many,
/// until it is opened.
#[derive(Drop)]
pub(crate) struct Door {
    free: u64,
    /// How many pieces of the first tenant have come.
    came: AtomicU64,
    holds: AtomicBool,
    is_open: AtomicBool,
    gave_up: AtomicBool,
}

/// Waits until the flag is set: whether it is.
fn wait_for(flag: &AtomicBool) -> bool {
    for _ in 0..TURNS {
        if flag.load(Ordering::SeqCst) {
            return true;
        }
        thread::yield_now();
    }
    false
}

impl Door {
    /// A door at which so many pieces of the first tenant go on.
    pub(crate) fn behind(free: u64) -> Door {
        Door {
            free,
            came: AtomicU64::new(0),
            holds: AtomicBool::new(false),
            is_open: AtomicBool::new(false),
            gave_up: AtomicBool::new(false),
        }
    }

    /// Waits until a piece of the first tenant is held: whether one is.
    pub(crate) fn wait(&self) -> bool {
        wait_for(&self.holds)
    }

    /// Holds nobody any more.
    pub(crate) fn set_open(&self) {
        self.is_open.store(true, Ordering::SeqCst);
    }

    /// Whether a piece went on though the door wasn't open.
    pub(crate) fn gave_up(&self) -> bool {
        self.gave_up.load(Ordering::SeqCst)
    }
}

impl Gate for &Door {
    fn pass(&mut self, _worker: u32, tenant: u32, _task: u32) {
        if tenant > 0 || self.came.fetch_add(1, Ordering::SeqCst) < self.free {
            return;
        }
        self.holds.store(true, Ordering::SeqCst);
        if !wait_for(&self.is_open) {
            self.gave_up.store(true, Ordering::SeqCst);
        }
    }
}
