// One log: 64 slots, cached and persisted, the head and the thread's record. What the kind, the place and the value of an entry mean is not
// known here.
#![tactic(auto)]

ghost use Rattle.std.specs.Prelude.{◌≡◌, ◌<◌};
ghost use Rattle.thread_log.specs.Entries.{fresh_log, appended_of, flush_log_of, fence_log_of, evicted_words_of};
ghost use Rattle.thread_log.specs.Entries.{drop_to_of};

use answer::{Answer, Refusal};
use entry::{Entry, Payload};
use ring::{Lsn, has_slot, next_slot, slot_after};
use sizes::SLOTS;
use tail::Tail;

// A thread's log: 64 slots, cached (document 01: seen) and persisted (kept), the head and the thread's record. Two arrays, since a fence
// and an eviction copy from one to the other, and the definitions name each by itself.
#[derive(Clone, Copy)]
pub struct Log {
    pub cached: [Entry; SLOTS],
    pub persisted: [Entry; SLOTS],
    pub head: Lsn,
    pub tail: Tail,
}

impl Log {
    // The log of a thread that has made no entry.
    #[tactic(auto, unfolding(crate::specs::Entries::fresh_log, tail::specs::Tail::fresh_tail))]
    pub fn new() -> Log
        ensures { result ≡ fresh_log }
    {
        let zeros = Entry {
            kind: 0,
            place: 0,
            lsn: Lsn(0),
            value: 0,
        };
        Log {
            cached: [zeros; SLOTS],
            persisted: [zeros; SLOTS],
            head: Lsn(1),
            tail: Tail {
                next: Lsn(1),
                durable: Lsn(0),
                flushed: Lsn(0),
                releasing: None,
            },
        }
    }

    // One entry more: answers its LSN; or a refusal (6, then 5), which leaves the log as it was. A RELEASE entry closes its lock.
    pub fn append(&mut self, payload: Payload, closes: Option<u8>) -> Answer
        ensures { record { answer = result; log = self.new } ≡ appended_of self.old payload closes }
    {
        let lsn = self.tail.next;
        let number = append::append(&mut self.tail, self.head, closes)?;
        self.cached[lsn.0 as usize % SLOTS] = Entry {
            kind: payload.kind,
            place: payload.place,
            lsn,
            value: payload.value,
        };
        Ok(number)
    }

    // FLUSHLOG: the entries made so far are flushed.
    #[tactic(auto, unfolding(crate::specs::Entries::flush_log_of))]
    pub fn flush(&mut self)
        ensures { self.new ≡ flush_log_of self.old }
    {
        self.tail = self.tail.flushed_all();
    }

    // FENCE: the flushed entries become persisted and durable.
    pub fn fence(&mut self)
        ensures { self.new ≡ fence_log_of self.old }
    {
        // by the slots of the ring, each found by `next_slot` from the one before
        let mut slot = slot_after(self.tail.durable, 0);
        for done in 0..self.tail.unfenced() {
            slot = next_slot(slot as u8);
            self.persisted[slot] = self.cached[slot];
        }
        self.tail = self.tail.fenced();
    }

    // EVICTWORDS, and EVICTLOG with all words: the first so many words of the entry in the slot become persisted, and not durable; or 18
    // where no live one sits there, and the log as it was.
    pub fn evict_words(&mut self, slot: usize, count: usize) -> Answer
        ensures { record { answer = result; log = self.new } ≡ evicted_words_of self.old slot count }
    {
        if !has_slot(self.head, self.tail.live_count(self.head), slot) {
            return Err(Refusal::NoLiveEntry);
        }
        self.persisted[slot] = self.persisted[slot].torn(self.cached[slot], count);
        Ok(0)
    }

    // All entries before this LSN are dropped; one that is neither live nor the next changes nothing.
    pub fn drop_to(&mut self, head: Lsn)
        ensures { self.new ≡ drop_to_of self.old head.0 }
    {
        if self.head.0 <= head.0 && head.0 <= self.tail.next.0 {
            self.head = head;
        }
    }
}
