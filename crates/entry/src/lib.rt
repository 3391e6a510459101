// One entry of a log, whatever it says: its four words, and what is persisted of it where only some of them are.
#![tactic(auto)]

ghost use Rattle.std.specs.Prelude.{◌≡◌, ◌<◌, get_or};
ghost use Rattle.entry.specs.Words.{slot_words, torn_of};

use ring::Lsn;
use sizes::LSN_WORD;

// What an entry says, beside its LSN.
#[derive(Clone, Copy)]
pub struct Payload {
    pub kind: u8,
    pub place: u8,
    pub value: u64,
}

// An entry, as the cache has it and as persistent memory has it: the words kind, place, value and LSN of an image, each as wide as an entry
// needs it. It sits in slot LSN mod 64; an untouched slot holds zeros.
#[derive(Clone, Copy)]
pub struct Entry {
    pub kind: u8,
    pub place: u8,
    pub lsn: Lsn,
    pub value: u64,
}

impl Entry {
    // One of the entry's four words, in an image's order.
    pub fn word(self, index: usize) -> u64
        requires { index < 4 }
        ensures { result ≡ get_or (slot_words self) index 0 }
    {
        [
            u64::from(self.kind),
            u64::from(self.place),
            self.value,
            u64::from(self.lsn.0),
        ][index]
    }

    // What is persisted of a slot that had this entry, once the first so many words of another one are persisted there.
    pub fn torn(self, new: Entry, count: usize) -> Entry
        ensures { result ≡ torn_of self new count }
    {
        Entry {
            kind: if 0 < count { new.kind } else { self.kind },
            place: if 1 < count { new.place } else { self.place },
            lsn: if LSN_WORD < count { new.lsn } else { self.lsn },
            value: if 2 < count { new.value } else { self.value },
        }
    }
}
