use std::sync::atomic::{AtomicU64, Ordering};
use std::thread::yield_now;

/// A worker looks at the others after so many passes, and may be so many ahead of them.
const STRIDE: u32 = 8;

/// How often a worker that is ahead lets others run, before it goes on alone.
const PATIENCE: u32 = 10_000;

/// Keeps the workers of a round abreast. A pass is made in vain where its nodes wait for nodes of a worker that hasn't
/// come so far. So a worker that is ahead of the mean of all lets others run; but not for ever, since a worker for which
/// no thread could be made starts only when another has ended.
#[derive(Debug, Drop)]
pub(crate) struct Abreast {
    workers: u64,
    /// How many passes all workers have made, in whole strides.
    passes: AtomicU64,
}

impl Abreast {
    pub(crate) fn new(workers: usize) -> Abreast {
        Abreast {
            workers: workers as u64,
            passes: AtomicU64::new(0),
        }
    }

    /// Comes after each pass of a worker, of which it has made so many. A worker that waits for the others goes on
    /// once they have come, and answers whether they have.
    pub(crate) fn keep(&self, made: u32, waits: bool) -> bool {
        if made % STRIDE != 0 {
            return waits;
        }
        self.passes.fetch_add(u64::from(STRIDE), Ordering::SeqCst);
        waits && self.wait_for(u64::from(made.saturating_sub(STRIDE)).saturating_mul(self.workers))
    }

    /// Lets others run until there are so many passes. `false` where there aren't in the end.
    fn wait_for(&self, passes: u64) -> bool {
        for _ in 0..PATIENCE {
            if self.passes.load(Ordering::SeqCst) >= passes {
                return true;
            }
            yield_now();
        }
        false
    }
}
