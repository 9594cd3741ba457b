//! A gate that four workers pass together.
use cam_hall::Gate;
use std::sync::atomic::{AtomicU64, Ordering};
use std::thread::yield_now;

// How often a worker looks for the others before it gives up.
const PATIENCE: u32 = 10_000_000;

/// What one of four workers did.
#[derive(Drop)]
struct Worker {
    /// It has come to its first call of `before` with step 0, and to that with step 1.
    began: AtomicU64,
    stepped: AtomicU64,
    /// How often it called `before`, and `after`.
    asked: AtomicU64,
    told: AtomicU64,
}

impl Worker {
    fn new() -> Worker {
        Worker {
            began: AtomicU64::new(0),
            stepped: AtomicU64::new(0),
            asked: AtomicU64::new(0),
            told: AtomicU64::new(0),
        }
    }
}

/// Keeps the first call of each of four workers with step 0 open until all four are there, and so with step 1. The third call of worker 0
/// does not pass.
#[derive(Drop)]
pub(crate) struct Meeting {
    first: Worker,
    second: Worker,
    third: Worker,
    fourth: Worker,
    alone: AtomicU64,
}

/// What a meeting counted: the calls that waited in vain, and the steps of each worker.
#[derive(Clone, Copy, Debug, PartialEq, Eq)]
pub(crate) struct Counted {
    pub(crate) alone: u64,
    pub(crate) steps: [u64; 4],
}

impl Meeting {
    pub(crate) fn new() -> Meeting {
        Meeting {
            first: Worker::new(),
            second: Worker::new(),
            third: Worker::new(),
            fourth: Worker::new(),
            alone: AtomicU64::new(0),
        }
    }

    // A worker, by its number.
    fn worker(&self, worker: u32) -> &Worker {
        match worker {
            0 => &self.first,
            1 => &self.second,
            2 => &self.third,
            _ => &self.fourth,
        }
    }

    // Whether all four workers have come to a place.
    fn is_full(&self, step: u32) -> bool {
        let came = |worker: &Worker| {
            if step == 0 {
                worker.began.load(Ordering::SeqCst) != 0
            } else {
                worker.stepped.load(Ordering::SeqCst) != 0
            }
        };
        came(&self.first) && came(&self.second) && came(&self.third) && came(&self.fourth)
    }

    // Waits until all four have come.
    fn wait(&self, step: u32) {
        for _ in 0..PATIENCE {
            if self.is_full(step) || self.alone.load(Ordering::SeqCst) != 0 {
                return;
            }
            yield_now();
        }
        self.alone.fetch_add(1, Ordering::SeqCst);
    }

    /// What it has counted so far.
    pub(crate) fn counted(&self) -> Counted {
        Counted {
            alone: self.alone.load(Ordering::SeqCst),
            steps: [
                self.first.told.load(Ordering::SeqCst),
                self.second.told.load(Ordering::SeqCst),
                self.third.told.load(Ordering::SeqCst),
                self.fourth.told.load(Ordering::SeqCst),
            ],
        }
    }
}

impl Gate for Meeting {
    fn before(&self, worker: u32, step: u32) -> bool {
        let own = self.worker(worker);
        let asked = own.asked.fetch_add(1, Ordering::SeqCst);
        if step == 0 && own.began.fetch_add(1, Ordering::SeqCst) == 0 {
            self.wait(0);
        }
        if step == 1 && own.stepped.fetch_add(1, Ordering::SeqCst) == 0 {
            self.wait(1);
        }
        worker != 0 || asked != 2
    }

    fn after(&self, worker: u32, _step: u32) {
        self.worker(worker).told.fetch_add(1, Ordering::SeqCst);
    }
}
