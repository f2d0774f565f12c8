// What a summary counts. A count that is full stays at its most.
ghost use Rattle.std.specs.Prelude.{◌≡◌, ◌+◌, ◌-◌, ◌^◌, min, not, if◌then◌else◌, Some};
ghost use Rattle.bench.specs.Totals.{totals_text};

use std::fmt;

#[derive(Clone, Copy, Default)]
pub struct Totals {
    pub calls: u64,
    pub accepted: u64,
    pub refused: u64,
    pub events: u64,
}

impl Totals {
    pub fn new() -> Totals
        ensures value { result ≡ record { calls = 0; accepted = 0; refused = 0; events = 0 } }
    {
        Totals::default()
    }

    // One call more, with its events.
    pub fn count(&mut self, accepted: bool, events: usize)
        ensures calls { self.new.calls ≡ min (self.old.calls + 1) (2 ^ 64 - 1) }
        ensures accepted { self.new.accepted ≡ min (self.old.accepted + (if accepted then 1 else 0)) (2 ^ 64 - 1) }
        ensures refused { self.new.refused ≡ min (self.old.refused + (if accepted then 0 else 1)) (2 ^ 64 - 1) }
        ensures events { self.new.events ≡ min (self.old.events + events) (2 ^ 64 - 1) }
    {
        self.calls = self.calls.saturating_add(1);
        self.accepted = self.accepted.saturating_add(u64::from(accepted));
        self.refused = self.refused.saturating_add(u64::from(!accepted));
        self.events = self.events.saturating_add(events as u64);
    }
}

impl fmt::Display for Totals {
    ghost output = { λ t. Some (totals_text t) };

    fn fmt<W: fmt::Write>(&self, f: &mut fmt::Formatter<W>) -> fmt::Result {
        write!(
            f,
            "calls {} accepted {} refused {} events {}",
            self.calls, self.accepted, self.refused, self.events
        )
    }
}
