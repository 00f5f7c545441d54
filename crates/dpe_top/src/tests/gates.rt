//! Gates that watch a run.
use crate::Gate;
use std::alloc::{AllocError, Global};
use std::sync::atomic::{AtomicBool, AtomicU64, Ordering};

/// How often one who came looks for the others before it goes on alone.
const TURNS: u64 = 10_000_000_000;

/// How often each number was noted.
#[derive(Drop)]
pub struct Counts {
    counts: Vec<AtomicU64>,
    strays: AtomicU64,
}

impl Counts {
    /// For numbers below `end`.
    fn below(alloc: Global, end: u64) -> Result<Counts, AllocError> {
        let mut counts = Vec::new(alloc);
        'numbers: for _ in 0..end {
            counts.push(AtomicU64::new(0))?;
        }
        Ok(Counts {
            counts,
            strays: AtomicU64::new(0),
        })
    }

    fn note(&self, number: u64) {
        let count = match self.counts.get(number as usize) {
            Some(count) => count,
            None => &self.strays,
        };
        count.fetch_add(1, Ordering::SeqCst);
    }

    /// Whether each of the numbers was noted, and no other.
    pub fn has_each(&self) -> bool {
        'numbers: for count in self.counts.iter() {
            if count.load(Ordering::SeqCst) == 0 {
                return false;
            }
        }
        self.strays.load(Ordering::SeqCst) == 0
    }

    /// Whether each of the numbers was noted once, and no other.
    pub fn has_each_once(&self) -> bool {
        'numbers: for count in self.counts.iter() {
            if count.load(Ordering::SeqCst) != 1 {
                return false;
            }
        }
        self.strays.load(Ordering::SeqCst) == 0
    }
}

/// What a run tells its gate: the tickets, the workers that drew them, and the buffers that were filled.
#[derive(Drop)]
pub struct Tally {
    draws: AtomicU64,
    fillings: AtomicU64,
    pub tickets: Counts,
    pub workers: Counts,
    pub buffers: Counts,
}

impl Tally {
    /// For tickets, workers and buffers with numbers below these.
    pub fn below(
        alloc: Global,
        tickets: u64,
        workers: u64,
        buffers: u64,
    ) -> Result<Tally, AllocError> {
        Ok(Tally {
            draws: AtomicU64::new(0),
            fillings: AtomicU64::new(0),
            tickets: Counts::below(alloc, tickets)?,
            workers: Counts::below(alloc, workers)?,
            buffers: Counts::below(alloc, buffers)?,
        })
    }

    /// How many tickets were drawn.
    pub fn draws(&self) -> u64 {
        self.draws.load(Ordering::SeqCst)
    }

    /// How often a buffer was filled.
    pub fn fillings(&self) -> u64 {
        self.fillings.load(Ordering::SeqCst)
    }
}

impl Gate for Tally {
    fn before(&self, worker: u32, ticket: u64) {
        self.draws.fetch_add(1, Ordering::SeqCst);
        self.tickets.note(ticket);
        self.workers.note(worker as u64);
    }

    fn filling(&self, buffer: u64) {
        self.fillings.fetch_add(1, Ordering::SeqCst);
        self.buffers.note(buffer);
    }
}

/// Several who go on only once all have come.
#[derive(Drop)]
struct Meeting {
    came: Vec<AtomicBool>,
    here: AtomicU64,
    is_late: AtomicBool,
}

impl Meeting {
    /// Before any of so many has come.
    fn of(alloc: Global, count: u64) -> Result<Meeting, AllocError> {
        let mut came = Vec::new(alloc);
        'numbers: for _ in 0..count {
            came.push(AtomicBool::new(false))?;
        }
        Ok(Meeting {
            came,
            here: AtomicU64::new(0),
            is_late: AtomicBool::new(false),
        })
    }

    fn all_are_here(&self) -> bool {
        self.here.load(Ordering::SeqCst) == self.came.len() as u64
    }

    /// One comes, and waits the first time.
    fn come(&self, number: usize) {
        let Some(came) = self.came.get(number) else {
            self.is_late.store(true, Ordering::SeqCst);
            return;
        };
        if came.swap(true, Ordering::SeqCst) {
            return;
        }
        self.here.fetch_add(1, Ordering::SeqCst);
        'turns: for _ in 0..TURNS {
            if self.all_are_here() {
                return;
            }
        }
        self.is_late.store(true, Ordering::SeqCst);
    }

    /// Whether all came, and none went on alone.
    fn took_place(&self) -> bool {
        self.all_are_here() && !self.is_late.load(Ordering::SeqCst)
    }
}

/// The first draw of each worker waits for those of all the others, where earlier tickets don't count.
#[derive(Drop)]
pub struct WorkersMeet {
    first: u64,
    meeting: Meeting,
}

impl WorkersMeet {
    /// For draws of this ticket and later ones by so many workers.
    pub fn from_ticket(alloc: Global, first: u64, workers: u64) -> Result<WorkersMeet, AllocError> {
        Ok(WorkersMeet {
            first,
            meeting: Meeting::of(alloc, workers)?,
        })
    }

    /// Whether all workers drew, and none went on alone.
    pub fn took_place(&self) -> bool {
        self.meeting.took_place()
    }
}

impl Gate for WorkersMeet {
    fn before(&self, worker: u32, ticket: u64) {
        if ticket >= self.first {
            self.meeting.come(worker as usize);
        }
    }

    fn filling(&self, _buffer: u64) {}
}

/// The first draw of any worker and the filling of the second buffer wait for each other.
#[derive(Drop)]
pub struct DrawMeetsFilling {
    meeting: Meeting,
}

impl DrawMeetsFilling {
    /// Before the run.
    pub fn new(alloc: Global) -> Result<DrawMeetsFilling, AllocError> {
        Ok(DrawMeetsFilling {
            meeting: Meeting::of(alloc, 2)?,
        })
    }

    /// Whether there were both the draw and the filling, and neither went on alone.
    pub fn took_place(&self) -> bool {
        self.meeting.took_place()
    }
}

impl Gate for DrawMeetsFilling {
    fn before(&self, _worker: u32, _ticket: u64) {
        self.meeting.come(0);
    }

    fn filling(&self, buffer: u64) {
        if buffer == 1 {
            self.meeting.come(1);
        }
    }
}

/// The first draw of each of the first runs waits for those of the others.
#[derive(Drop)]
pub struct RunsMeet {
    begun: AtomicU64,
    meeting: Meeting,
}

impl RunsMeet {
    /// For so many runs.
    pub fn of(alloc: Global, runs: u64) -> Result<RunsMeet, AllocError> {
        Ok(RunsMeet {
            begun: AtomicU64::new(0),
            meeting: Meeting::of(alloc, runs)?,
        })
    }

    /// Whether so many runs began, no more, and none went on alone.
    pub fn took_place(&self) -> bool {
        self.meeting.took_place()
    }
}

impl Gate for RunsMeet {
    fn before(&self, _worker: u32, ticket: u64) {
        if ticket == 0 {
            let number = self.begun.fetch_add(1, Ordering::SeqCst);
            self.meeting.come(number as usize);
        }
    }

    fn filling(&self, _buffer: u64) {}
}
