//! A gate that tests look at.
use ot_pool::Gate;
use std::sync::atomic::{AtomicBool, AtomicU64, Ordering};
use std::thread;

/// How many turns a test waits at most. In each it looks once, and lets other threads run.
const TURNS: u32 = 10_000_000;

/// For so many turns other threads are let run until those that find nothing to do surely sleep. Each of them looks
/// a few times before.
const LONG: u32 = 100_000;

/// How many pieces have come by their number, of a task or of a worker. The last counts all from 3 on.
#[derive(Drop)]
struct Tally([AtomicU64; 4]);

impl Tally {
    fn new() -> Tally {
        Tally([
            AtomicU64::new(0),
            AtomicU64::new(0),
            AtomicU64::new(0),
            AtomicU64::new(0),
        ])
    }

    fn count(&self, number: u32) {
        let [zero, one, two, more] = &self.0;
        let place = match number {
            0 => zero,
            1 => one,
            2 => two,
            _ => more,
        };
        place.fetch_add(1, Ordering::SeqCst);
    }

    fn counts(&self) -> [u64; 4] {
        let [zero, one, two, more] = &self.0;
        [
            zero.load(Ordering::SeqCst),
            one.load(Ordering::SeqCst),
            two.load(Ordering::SeqCst),
            more.load(Ordering::SeqCst),
        ]
    }
}

/// The pieces of some tenants that have come.
#[derive(Drop)]
struct Pieces {
    by_task: Tally,
    by_worker: Tally,
}

impl Pieces {
    fn new() -> Pieces {
        Pieces {
            by_task: Tally::new(),
            by_worker: Tally::new(),
        }
    }

    fn count(&self, worker: u32, task: u32) {
        self.by_task.count(task);
        self.by_worker.count(worker);
    }
}

/// Stands between the claim of each piece and its run: counts the pieces, and may hold some of the first
/// tenant's.
#[derive(Drop)]
pub(crate) struct Door {
    /// Whether it looks at pieces at all.
    looks: bool,
    /// How many pieces of the first tenant pass before others of it are held.
    free: u64,
    /// How many pieces of tasks of the first tenant, its root aside, stand here together before one of them goes on.
    together: u64,
    /// How many pieces of the first tenant have come.
    came: AtomicU64,
    /// The pieces of the first tenant.
    first: Pieces,
    /// The pieces of all others.
    others: Pieces,
    is_open: AtomicBool,
    /// Whether a piece went on though it was to be held.
    gave_up: AtomicBool,
}

impl Door {
    /// A door that neither counts nor holds.
    pub(crate) fn none() -> Door {
        Door {
            looks: false,
            ..Door::counting()
        }
    }

    /// A door that holds nobody.
    pub(crate) fn counting() -> Door {
        Door::behind(u64::MAX)
    }

    /// A door that holds the pieces of the first tenant behind so many.
    pub(crate) fn behind(free: u64) -> Door {
        Door {
            looks: true,
            free,
            together: 0,
            came: AtomicU64::new(0),
            first: Pieces::new(),
            others: Pieces::new(),
            is_open: AtomicBool::new(false),
            gave_up: AtomicBool::new(false),
        }
    }

    /// A door that holds the pieces of the first tenant, and behind that those of its tasks, its root aside, until so many
    /// of these stand here together.
    pub(crate) fn gathering(together: u64) -> Door {
        Door {
            together,
            ..Door::behind(0)
        }
    }

    /// Holds nobody any more.
    pub(crate) fn set_open(&self) {
        self.is_open.store(true, Ordering::SeqCst);
    }

    /// Waits until it is open: whether it is.
    fn wait_open(&self) -> bool {
        for _ in 0..TURNS {
            if self.is_open.load(Ordering::SeqCst) {
                return true;
            }
            thread::yield_now();
        }
        false
    }

    /// Waits until so many pieces of the first tenant have come, or it is open: whether they have.
    pub(crate) fn wait_for(&self, pieces: u64) -> bool {
        for _ in 0..TURNS {
            if self.came.load(Ordering::SeqCst) >= pieces {
                return true;
            }
            if self.is_open.load(Ordering::SeqCst) {
                return false;
            }
            thread::yield_now();
        }
        false
    }

    /// Opens it long after a piece of the first tenant has come, when all who find nothing to do sleep: whether one
    /// has come.
    pub(crate) fn open_late(&self) -> bool {
        let came = self.wait_for(1);
        if came {
            for _ in 0..LONG {
                thread::yield_now();
            }
        }
        self.set_open();
        came
    }

    /// Waits until as many pieces of tasks have come as are to stand here together, or another has given up: whether
    /// they have.
    fn wait_for_others(&self) -> bool {
        for _ in 0..TURNS {
            let [_, one, two, more] = self.first.by_task.counts();
            if one.saturating_add(two).saturating_add(more) >= self.together {
                return true;
            }
            if self.gave_up() {
                return false;
            }
            thread::yield_now();
        }
        false
    }

    /// Holds a piece of the first tenant as long as it is to be held: whether it was let go in time.
    fn holds(&self, task: u32) -> bool {
        let before = self.came.fetch_add(1, Ordering::SeqCst);
        if before >= self.free && !self.wait_open() {
            return false;
        }
        task == 0 || self.wait_for_others()
    }

    /// How many pieces of each task have come: of the first tenant, and of all others.
    pub(crate) fn by_task(&self) -> ([u64; 4], [u64; 4]) {
        (self.first.by_task.counts(), self.others.by_task.counts())
    }

    /// How many pieces each worker has passed: of the first tenant, and of all others.
    pub(crate) fn by_worker(&self) -> ([u64; 4], [u64; 4]) {
        (
            self.first.by_worker.counts(),
            self.others.by_worker.counts(),
        )
    }

    /// Whether a piece went on though it was to be held.
    pub(crate) fn gave_up(&self) -> bool {
        self.gave_up.load(Ordering::SeqCst)
    }
}

impl Gate for &Door {
    fn pass(&mut self, worker: u32, tenant: u32, task: u32) {
        if !self.looks {
            return;
        }
        if tenant > 0 {
            self.others.count(worker, task);
            return;
        }
        self.first.count(worker, task);
        if !self.holds(task) {
            self.gave_up.store(true, Ordering::SeqCst);
        }
    }
}
