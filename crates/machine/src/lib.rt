// The machine of document 01: four threads' logs over one cache, the locks, and the clocks that decide races. Each kind of step has its
// method.
#![tactic(auto)]

ghost use Rattle.std.specs.Prelude.{◌≡◌};
ghost use Rattle.machine.specs.Holds.{fresh_machine, start_of};
ghost use Rattle.machine.specs.Image.{cut_of};
ghost use Rattle.machine.specs.Runs.{after, evict_all, Reached};
ghost use Rattle.machine.specs.Steps.{step_of};

use accesses::{Accesses, STAMPS};
use answer::{Answer, Refusal};
use cache::Cache;
use clocks::Clock;
use event::SyncCount;
use kinds::Kind;
use locks::Lock;
use reader::IMAGE_WORDS;
use sizes::{CELLS, ENTRY_WORDS, LOCKS, THREADS};
use std::marker::Model;
use thread_log::Log;
use writer::write_log;

// Fields are private, so that machine values come only from the start call and from steps, as the type's invariant says. Arrays side by
// side, as the scope names them: a clock for each thread and one for each lock.
#[derive(Clone, Copy)]
pub struct Machine {
    cache: Cache,
    logs: [Log; THREADS],
    clocks: [Clock; THREADS],
    // Each lock's clock is that of its last RELEASE.
    lock_clocks: [Clock; LOCKS],
    locks: [Lock; LOCKS],
    accesses: Accesses,
}

// A contract sees every field, and none asks that a machine is reached, since each one is.
impl Model for Machine {
    ghost use Rattle.machine.specs.State.{Machine};

    ghost Value = { Machine };

    ghost use Rattle.machine.specs.View.{machine_of, fields_of, IsReached};

    ghost view = { machine_of };

    ghost invariant = { IsReached };

    ghost inverse = { fields_of };
}

// A step's answer, beside the next machine: no Result, since the scope asks for both, on refusal too.
#[derive(Clone, Copy)]
pub struct Stepped {
    pub answer: Answer,
    pub machine: Machine,
}

impl Machine {
    // The machine at the start, with these cells: nothing logged, nothing held, nothing accessed. A thread's own number is 1.
    fn fresh(cells: [u64; CELLS]) -> Machine
        ensures { result ≡ fresh_machine cells }
    {
        let unknown = Clock {
            t0: 0,
            t1: 0,
            t2: 0,
            t3: 0,
        };
        let free = Lock {
            holder: None,
            count: SyncCount(0),
            pruned: SyncCount(0),
        };
        let cache = Cache::new(cells);
        let log = Log::new();
        // By hand: over the array's `map` the proof didn't close, since its fact leaves open which clock each call of the closure saw.
        let own0 = unknown.raise(0);
        let own1 = unknown.raise(1);
        let own2 = unknown.raise(2);
        let own3 = unknown.raise(3);
        Machine {
            cache,
            logs: [log; THREADS],
            clocks: [own0, own1, own2, own3],
            lock_clocks: [unknown; LOCKS],
            locks: [free; LOCKS],
            accesses: Accesses {
                stamps: [0; STAMPS],
                logged: [0; CELLS],
                loggers: [0; CELLS],
            },
        }
    }

    // The start call: the machine with these cells, or 21 where there are not 128 words, and the machine with all cells 0.
    pub fn start(words: &[u64]) -> Stepped
        ensures { result ≡ start_of words.now }
    {
        let mut cells = [0; CELLS];
        if words.len() != CELLS {
            return Stepped {
                answer: Err(Refusal::WrongLength),
                machine: Machine::fresh(cells),
            };
        }
        cells.copy_from_slice(words);
        Stepped {
            answer: Ok(0),
            machine: Machine::fresh(cells),
        }
    }

    // The thirteen steps: the scope asks for a method of each kind that hands the next machine back beside the answer. Each is one call over
    // the lent machine.

    // LOAD: answers the cell's cached content, where its last LOG happens before.
    pub fn load(mut self, thread: u64, cell: u64) -> Stepped
        ensures { result ≡ step_of self 1 thread cell 0 }
    {
        let answer = self.take_load(thread, cell);
        Stepped {
            answer,
            machine: self,
        }
    }

    // LOG: answers the LSN of the cell's entry in the current region. Where there is none it makes one, a STORE entry with the cell's
    // cached content, where every earlier access of the cell that may race happens before; else the machine stays as it is.
    pub fn log(mut self, thread: u64, cell: u64) -> Stepped
        ensures { result ≡ step_of self 2 thread cell 0 }
    {
        let answer = self.take_log(thread, cell);
        Stepped {
            answer,
            machine: self,
        }
    }

    // STORE: the cell's cached content is the value, where the current region has a durable entry of it.
    pub fn store(mut self, thread: u64, cell: u64, value: u64) -> Stepped
        ensures { result ≡ step_of self 3 thread cell value }
    {
        let answer = self.take_store(thread, cell, value);
        Stepped {
            answer,
            machine: self,
        }
    }

    // ACQUIRE: takes a free lock, with an ACQUIRE entry of its count. The thread knows what the lock's last RELEASE knew. Answers the
    // count.
    pub fn acquire(mut self, thread: u64, lock: u64) -> Stepped
        ensures { result ≡ step_of self 4 thread lock 0 }
    {
        let answer = self.take_acquire(thread, lock);
        Stepped {
            answer,
            machine: self,
        }
    }

    // LOGREL: a RELEASE entry with the lock's count, where the thread holds the lock. Answers the count.
    pub fn log_release(mut self, thread: u64, lock: u64) -> Stepped
        ensures { result ≡ step_of self 5 thread lock 0 }
    {
        let answer = self.take_log_release(thread, lock);
        Stepped {
            answer,
            machine: self,
        }
    }

    // RELEASE: the lock is free, with one release more and the thread's clock, and the thread's own number grows.
    pub fn release(mut self, thread: u64, lock: u64) -> Stepped
        ensures { result ≡ step_of self 6 thread lock 0 }
    {
        let answer = self.take_release(thread, lock);
        Stepped {
            answer,
            machine: self,
        }
    }

    // FLUSH: the thread has a flush of the line pending.
    pub fn flush(mut self, thread: u64, line: u64) -> Stepped
        ensures { result ≡ step_of self 7 thread line 0 }
    {
        let answer = self.take_flush(thread, line);
        Stepped {
            answer,
            machine: self,
        }
    }

    // FLUSHLOG: the thread's entries made so far are flushed.
    pub fn flush_log(mut self, thread: u64) -> Stepped
        ensures { result ≡ step_of self 8 thread 0 0 }
    {
        let answer = self.take_flush_log(thread);
        Stepped {
            answer,
            machine: self,
        }
    }

    // FENCE: the thread's pending flushes of lines complete, and its flushed entries become persisted and durable. The answer is how many
    // of both there were.
    pub fn fence(mut self, thread: u64) -> Stepped
        ensures { result ≡ step_of self 9 thread 0 0 }
    {
        let answer = self.take_fence(thread);
        Stepped {
            answer,
            machine: self,
        }
    }

    // PRUNE: the head moves past the thread's oldest finished region, and the answer is how many entries that has.
    pub fn prune(mut self, thread: u64) -> Stepped
        ensures { result ≡ step_of self 10 thread 0 0 }
    {
        let answer = self.take_prune(thread);
        Stepped {
            answer,
            machine: self,
        }
    }

    // EVICTLOG: the entry in the slot becomes persisted.
    pub fn evict_log(mut self, thread: u64, slot: u64) -> Stepped
        ensures { result ≡ step_of self 12 thread slot 0 }
    {
        let answer = self.take_evict_log(thread, slot);
        Stepped {
            answer,
            machine: self,
        }
    }

    // EVICTCELL: the cell's cached content alone is persisted.
    pub fn evict_cell(mut self, cell: u64) -> Stepped
        ensures { result ≡ step_of self 13 0 cell 0 }
    {
        let answer = self.take_evict_cell(cell);
        Stepped {
            answer,
            machine: self,
        }
    }

    // EVICTWORDS: the first so many words of the entry in the slot become persisted.
    pub fn evict_words(mut self, thread: u64, slot: u64, count: u64) -> Stepped
        ensures { result ≡ step_of self 14 thread slot count }
    {
        let answer = self.take_evict_words(thread, slot, count);
        Stepped {
            answer,
            machine: self,
        }
    }

    // The cut: each cell, head and slot's persisted content, or 21 where the lent image is not of 1,156 words, which leaves it as it was.
    pub fn cut(self, image: &mut [u64]) -> Answer
        ensures image { record { answer = result; buffer = image.new } ≡ cut_of self image.old }
        ensures reached { Reached self }
    {
        // Before the test, since the use of a field tells that the machine is reached.
        let cache = &self.cache;
        if image.len() != IMAGE_WORDS {
            return Err(Refusal::WrongLength);
        }
        cache.persist_into(image);
        for (thread, log) in self.logs.iter().enumerate() {
            write_log(log, thread, image);
        }
        Ok(0)
    }

    // The cut with every cell evicted just before, as by an EVICTCELL of each: the image has the cells' cached contents.
    pub fn cut_evicted(mut self, image: &mut [u64]) -> Answer
        ensures { record { answer = result; buffer = image.new } ≡ cut_of (after self evict_all) image.old }
    {
        let seen = self.cache.cached;
        self.cache.persisted = seen;
        self.cut(image)
    }
}

// The kinds of step over the lent machine: where a step is refused, by the input's tests or by those of its parts, it stays as it was.
impl Machine {
    fn take_load(&mut self, thread: u64, cell: u64) -> Answer
        ensures { record { answer = result; machine = self.new } ≡ step_of self.old 1 thread cell 0 }
    {
        Kind::Load.input_answer(thread, cell, 0)?;
        let content = self.cache.cached[cell as usize];
        let clock = self.clocks[thread as usize];
        accessing::load(&mut self.accesses, clock, thread as u8, cell as u8, content)
    }

    fn take_log(&mut self, thread: u64, cell: u64) -> Answer
        ensures { record { answer = result; machine = self.new } ≡ step_of self.old 2 thread cell 0 }
    {
        Kind::Log.input_answer(thread, cell, 0)?;
        let at = thread as usize;
        let old = self.cache.cached[cell as usize];
        let clock = self.clocks[at];
        let log = &mut self.logs[at];
        let accesses = &mut self.accesses;
        accessing::log_cell(log, accesses, clock, thread as u8, cell as u8, old)
    }

    fn take_store(&mut self, thread: u64, cell: u64, value: u64) -> Answer
        ensures { record { answer = result; machine = self.new } ≡ step_of self.old 3 thread cell value }
    {
        Kind::Store.input_answer(thread, cell, value)?;
        undo::store_answer(&self.logs[thread as usize], cell as usize)?;
        self.cache = self.cache.store(cell as usize, value);
        Ok(0)
    }

    fn take_acquire(&mut self, thread: u64, lock: u64) -> Answer
        ensures { record { answer = result; machine = self.new } ≡ step_of self.old 4 thread lock 0 }
    {
        Kind::Acquire.input_answer(thread, lock, 0)?;
        let at = thread as usize;
        let to = lock as usize;
        let last = self.lock_clocks[to];
        let log = &mut self.logs[at];
        let wanted = &mut self.locks[to];
        let clock = &mut self.clocks[at];
        locks::acquire(log, wanted, clock, last, thread as u8, lock as u8)
    }

    fn take_log_release(&mut self, thread: u64, lock: u64) -> Answer
        ensures { record { answer = result; machine = self.new } ≡ step_of self.old 5 thread lock 0 }
    {
        Kind::LogRel.input_answer(thread, lock, 0)?;
        let held = self.locks[lock as usize];
        let log = &mut self.logs[thread as usize];
        locks::log_release(log, held, thread as u8, lock as u8)
    }

    fn take_release(&mut self, thread: u64, lock: u64) -> Answer
        ensures { record { answer = result; machine = self.new } ≡ step_of self.old 6 thread lock 0 }
    {
        Kind::Release.input_answer(thread, lock, 0)?;
        let at = thread as usize;
        let to = lock as usize;
        let known = self.clocks[at];
        let log = &mut self.logs[at];
        let held = &mut self.locks[to];
        let clock = &mut self.clocks[at];
        let given = locks::release(log, held, clock, thread as u8, lock as u8)?;
        self.lock_clocks[to] = known;
        Ok(given)
    }

    fn take_flush(&mut self, thread: u64, line: u64) -> Answer
        ensures { record { answer = result; machine = self.new } ≡ step_of self.old 7 thread line 0 }
    {
        Kind::Flush.input_answer(thread, line, 0)?;
        self.cache = self.cache.flush(thread as usize, line as usize);
        Ok(0)
    }

    fn take_flush_log(&mut self, thread: u64) -> Answer
        ensures { record { answer = result; machine = self.new } ≡ step_of self.old 8 thread 0 0 }
    {
        Kind::FlushLog.input_answer(thread, 0, 0)?;
        self.logs[thread as usize].flush();
        Ok(0)
    }

    fn take_fence(&mut self, thread: u64) -> Answer
        ensures { record { answer = result; machine = self.new } ≡ step_of self.old 9 thread 0 0 }
    {
        Kind::Fence.input_answer(thread, 0, 0)?;
        let at = thread as usize;
        let carried = writeback::carried(self.cache, self.logs[at].tail, at);
        self.cache = writeback::fence(self.cache, at);
        self.logs[at].fence();
        Ok(carried)
    }

    fn take_prune(&mut self, thread: u64) -> Answer
        ensures { record { answer = result; machine = self.new } ≡ step_of self.old 10 thread 0 0 }
    {
        Kind::Prune.input_answer(thread, 0, 0)?;
        let log = &mut self.logs[thread as usize];
        prune::prune(log, &self.cache, &mut self.locks)
    }

    fn take_evict_log(&mut self, thread: u64, slot: u64) -> Answer
        ensures { record { answer = result; machine = self.new } ≡ step_of self.old 12 thread slot 0 }
    {
        Kind::EvictLog.input_answer(thread, slot, 0)?;
        self.logs[thread as usize].evict_words(slot as usize, ENTRY_WORDS)
    }

    fn take_evict_cell(&mut self, cell: u64) -> Answer
        ensures { record { answer = result; machine = self.new } ≡ step_of self.old 13 0 cell 0 }
    {
        Kind::EvictCell.input_answer(0, cell, 0)?;
        self.cache = writeback::evict_cell(self.cache, cell as usize);
        Ok(0)
    }

    fn take_evict_words(&mut self, thread: u64, slot: u64, count: u64) -> Answer
        ensures { record { answer = result; machine = self.new } ≡ step_of self.old 14 thread slot count }
    {
        Kind::EvictWords.input_answer(thread, slot, count)?;
        self.logs[thread as usize].evict_words(slot as usize, count as usize)
    }
}
