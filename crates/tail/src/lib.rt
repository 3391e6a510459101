// The thread's record: how far its log has come, and the lock that it is releasing. Knows nothing of what an entry says.
#![tactic(auto)]

ghost use Rattle.std.specs.Prelude.{◌≡◌};
ghost use Rattle.tail.specs.Tail.{live_of, unfenced, is_releasing, is_releasing_lock, flushed_tail, fenced_tail, released_tail};

use ring::Lsn;

// The thread's record: the next LSN, the last durable one, the last flushed one, and the lock that the thread is releasing (document 01:
// closing), between its RELEASE entry and its RELEASE step.
#[derive(Clone, Copy)]
pub struct Tail {
    pub next: Lsn,
    pub durable: Lsn,
    pub flushed: Lsn,
    pub releasing: Option<u8>,
}

impl Tail {
    // How many entries are live, from this head on.
    pub fn live_count(self, head: Lsn) -> u32
        ensures { result ≡ live_of self head.0 }
    {
        self.next.since(head)
    }

    // How many entries are flushed and not durable: those that a fence makes durable.
    pub fn unfenced(self) -> u32
        ensures { result ≡ unfenced self }
    {
        self.flushed.since(self.durable)
    }

    // The thread has made a RELEASE entry whose RELEASE step is still to come.
    pub fn is_releasing(self) -> bool
        ensures { result ≡ is_releasing self.releasing }
    {
        self.releasing.is_some()
    }

    // The thread has made a RELEASE entry of this lock whose RELEASE step is still to come.
    pub fn is_releasing_lock(self, lock: u8) -> bool
        ensures { result ≡ is_releasing_lock self.releasing lock }
    {
        self.releasing == Some(lock)
    }

    // FLUSHLOG: every entry made so far is flushed.
    #[tactic(auto, unfolding(crate::specs::Tail::flushed_tail))]
    pub fn flushed_all(self) -> Tail
        ensures { result ≡ flushed_tail self }
    {
        Tail {
            flushed: Lsn(self.next.since(Lsn(1))),
            ..self
        }
    }

    // FENCE: every flushed entry is durable.
    #[tactic(auto, unfolding(crate::specs::Tail::fenced_tail))]
    pub fn fenced(self) -> Tail
        ensures { result ≡ fenced_tail self }
    {
        Tail {
            durable: self.flushed,
            ..self
        }
    }

    // RELEASE: the thread is no more releasing a lock.
    #[tactic(auto, unfolding(crate::specs::Tail::released_tail))]
    pub fn released(self) -> Tail
        ensures { result ≡ released_tail self }
    {
        Tail {
            releasing: None,
            ..self
        }
    }
}
