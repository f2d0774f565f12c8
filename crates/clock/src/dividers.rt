// The two dividers of a source rate toward a wanted frequency. Rates are in Hz.
ghost use Rattle.std.specs.Prelude.{◌≡◌, ℕ, ◌<◌, ◌≤◌, Some, MatchOption};
ghost use Rattle.clock.specs.Dividers.{Best, dividers_of, divisions, error_of, pre_of};

const MAX_PRE: u32 = 16;

// A source rate, and the frequency that is wanted of it. The public calls take the two as plain numbers: a struct of
// two arguments would be made at each call to be taken apart there.
#[derive(Clone, Copy)]
struct Aim {
    source: u32,
    frequency: u32,
    ghost some: { 0 < frequency },
}

impl Aim {
    // The prescaler that goes with the divider n.
    fn pre_for(self, n: u32) -> u32
        requires { 2 ≤ n }
        ensures { result ≡ pre_of self.source self.frequency n }
    {
        ((self.source / n + self.frequency / 2) / self.frequency).clamp(1, MAX_PRE)
    }

    // How far from the frequency the clock runs with n and its prescaler.
    fn error_of(self, n: u32) -> u32
        requires { (2 ≤ n) × (n ≤ 64) }
        ensures { result ≡ error_of self.source self.frequency n }
    {
        (self.source / (self.pre_for(n) * n)).abs_diff(self.frequency)
    }

    // Tries each divider from 2 to 64. As a `min_by_key` over the range, the proof did not close.
    fn search(self) -> (u32, u32)
        ensures best { Best self.source self.frequency result.0 result.1 }
        ensures value { result ≡ divisions self.source self.frequency }
    {
        let mut best = 2;
        let mut least = self.error_of(best);
        for n in 3..=64 {
            let error = self.error_of(n);
            if error <= least {
                best = n;
                least = error;
            }
        }
        (best, self.pre_for(best))
    }
}

// The divider of the least error, the largest on ties, and its prescaler; none at frequency 0.
pub fn dividers(source: u32, frequency: u32) -> Option<(u32, u32)>
    ensures value { result ≡ dividers_of source frequency }
    ensures best { MatchOption result (frequency ≡ 0) (λ d. (0 < frequency) × Best source frequency d.0 d.1) }
    ensures only { (n pre : ℕ) → 0 < frequency → Best source frequency n pre → result ≡ Some (n, pre) }
{
    if frequency == 0 {
        return None;
    }
    Some(Aim { source, frequency }.search())
}
