// Clocks: what a thread knows of the RELEASE steps of each.
#![tactic(auto)]

ghost use Rattle.std.specs.Prelude.{◌≡◌};
ghost use Rattle.clocks.specs.Clocks.{clock_at, join_of, raise_of};

// One number for each thread. A thread's own number is 1 and the RELEASE steps it took; of another thread, how many of that one's
// RELEASE steps happen before. Four numbers by name, and no array: the scope asks for a small struct.
#[derive(Clone, Copy)]
pub struct Clock {
    pub t0: u32,
    pub t1: u32,
    pub t2: u32,
    pub t3: u32,
}

impl Clock {
    // The clock's number for a thread.
    #[tactic(auto, unfolding(crate::specs::Clocks::clock_at))]
    pub fn at(self, thread: u8) -> u32
        ensures { result ≡ clock_at self thread }
    {
        match thread {
            0 => self.t0,
            1 => self.t1,
            2 => self.t2,
            3 => self.t3,
            _ => 0,
        }
    }

    // What either clock knows.
    #[tactic(auto, unfolding(crate::specs::Clocks::join_of))]
    pub fn join(self, other: Clock) -> Clock
        ensures { result ≡ join_of self other }
    {
        Clock {
            t0: self.t0.max(other.t0),
            t1: self.t1.max(other.t1),
            t2: self.t2.max(other.t2),
            t3: self.t3.max(other.t3),
        }
    }

    // One more for a thread. A number that could not grow stays.
    #[tactic(auto, unfolding(crate::specs::Clocks::raise_of))]
    pub fn raise(mut self, thread: u8) -> Clock
        ensures { result ≡ raise_of self thread }
    {
        match thread {
            0 => self.t0 = self.t0.saturating_add(1),
            1 => self.t1 = self.t1.saturating_add(1),
            2 => self.t2 = self.t2.saturating_add(1),
            3 => self.t3 = self.t3.saturating_add(1),
            _ => {}
        }
        self
    }
}
