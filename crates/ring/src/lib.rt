// Log sequence numbers, and the slots that they sit in.
#![tactic(auto)]

ghost use Rattle.std.specs.Prelude.{◌≡◌, ◌+◌, ◌-◌, eqb};
ghost use Rattle.answer.specs.Lists.{some_below};
ghost use Rattle.ring.specs.Ring.{slot_of, next_slot_of};

use sizes::SLOTS;

// A log sequence number (document 01: rank), 1 to 1,000,000 in one thread's log. Never added to or compared with a lock's count.
#[derive(Clone, Copy, PartialEq, Eq, PartialOrd, Ord, Debug)]
pub struct Lsn(pub u32);

// The slot of the LSN after the one in this slot: 0 after 63. Numbers from 64 on, which are no slots, answer the slot of the number after.
pub fn next_slot(slot: u8) -> usize
    ensures { result ≡ next_slot_of slot }
{
    (slot as usize + 1) % SLOTS
}

// The slot of the LSN that is so many after this one.
pub fn slot_after(lsn: Lsn, count: usize) -> usize
    ensures { result ≡ slot_of (lsn.0 + count) }
{
    (lsn.0 as usize % SLOTS + count % SLOTS) % SLOTS
}

// Of so many LSNs from this one on, one sits in the slot.
pub fn has_slot(first: Lsn, count: u32, slot: usize) -> bool
    ensures { result ≡ some_below count (λ index. eqb (slot_of (first.0 + index)) slot) }
{
    if SLOTS <= slot {
        return false;
    }
    let ahead = (slot + SLOTS - first.0 as usize % SLOTS) % SLOTS;
    ahead < count as usize
}

impl Lsn {
    // How many LSNs there are from an earlier one on, up to this one and without it: 0 where the other is not earlier.
    pub fn since(self, earlier: Lsn) -> u32
        ensures { result ≡ self.0 - earlier.0 }
    {
        self.0.saturating_sub(earlier.0)
    }
}
