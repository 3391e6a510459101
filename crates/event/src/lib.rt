// What an entry of an undo log means: a cell's content before a store, or a lock's count; and how it is written in an entry and read from one.
#![tactic(auto)]

ghost use Rattle.std.specs.Prelude.{◌≡◌};
ghost use Rattle.entry.specs.Words.{said_by};
ghost use Rattle.event.specs.Events.{payload_of, event_of, closes_of};

use entry::{Entry, Payload};

pub mod words;

// The kinds of entry by document 01's numbers; `words` has them as 64-bit words. Numbers, and no enum: a slot or an image may hold any
// word there, and `payload_of`, `event_of` and `is_bad_entry` go by the word.
pub const STORE_ENTRY: u8 = 1;

pub const ACQUIRE_ENTRY: u8 = 2;

pub const RELEASE_ENTRY: u8 = 3;

// How often a lock was released (document 01: lock count). Never added to or compared with an LSN.
#[derive(Clone, Copy)]
pub struct SyncCount(pub u64);

// What an entry records: a cell's content before a store, or a lock's count. `Empty` is what an untouched slot says: a case, and no
// Option, for `event_of` gives every entry an event.
#[derive(Clone, Copy)]
pub enum Event {
    Empty,
    Store { cell: u8, old: u64 },
    Acquire { lock: u8, count: SyncCount },
    Release { lock: u8, count: SyncCount },
}

impl Event {
    // The lock that an entry begins to release.
    pub fn closes(self) -> Option<u8>
        ensures { result ≡ closes_of self }
    {
        match self {
            Event::Release { lock, .. } => Some(lock),
            Event::Empty | Event::Store { .. } | Event::Acquire { .. } => None,
        }
    }
}

impl From<Event> for Payload {
    ghost from_gives = { λ event payload. payload ≡ payload_of event };

    // How the event is written in an entry.
    fn from(event: Event) -> Payload {
        match event {
            Event::Empty => Payload {
                kind: 0,
                place: 0,
                value: 0,
            },
            Event::Store { cell, old } => Payload {
                kind: STORE_ENTRY,
                place: cell,
                value: old,
            },
            Event::Acquire { lock, count } => Payload {
                kind: ACQUIRE_ENTRY,
                place: lock,
                value: count.0,
            },
            Event::Release { lock, count } => Payload {
                kind: RELEASE_ENTRY,
                place: lock,
                value: count.0,
            },
        }
    }
}

impl From<Entry> for Event {
    ghost from_gives = { λ entry event. event ≡ event_of (said_by entry) };

    // What an entry says.
    #[tactic(auto, unfolding(crate::specs::Events::event_of))]
    fn from(entry: Entry) -> Event {
        match entry.kind {
            STORE_ENTRY => Event::Store {
                cell: entry.place,
                old: entry.value,
            },
            ACQUIRE_ENTRY => Event::Acquire {
                lock: entry.place,
                count: SyncCount(entry.value),
            },
            RELEASE_ENTRY => Event::Release {
                lock: entry.place,
                count: SyncCount(entry.value),
            },
            _ => Event::Empty,
        }
    }
}
