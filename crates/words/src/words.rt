// The words of a line, one after the other.
ghost use Rattle.std.specs.Prelude.{◌≡◌, ℕ, Bool, ◌≤◌, [], ◌∷◌, drop, length, MatchOption, MatchResult, nat_eq};
ghost use Rattle.std.specs.Option.{option_map};
ghost use Rattle.faults.specs.declared.fault.Expected.TheVariants.{MoreWords};
ghost use Rattle.words.specs.Arities.{none, one, two, one_or_two, none_or_four};
ghost use Rattle.faults.specs.Readings.{ok_map};
ghost use Rattle.words.specs.Words.{before, blank, Computes, uncarried, uncommented, words};

use faults::fault::Expected;
use std::marker::Model;

// Four words of four meanings.
pub type Four<'a> = (&'a [u8], &'a [u8], &'a [u8], &'a [u8]);

// What is left of a line.
#[derive(Drop)]
pub struct Words<'a> {
    rest: &'a [u8],
}

// The words that are left.
impl<'a> Model for Words<'a> {
    ghost use Rattle.std.specs.Prelude.{ℕ, List};
    ghost use Rattle.words.specs.Words.{words};

    ghost Value = { List (List ℕ) };

    ghost view = { λ s. words s.rest.now };
}

// What stands before the first byte that `stop` holds of, or all where there is none, and what is left.
fn split_before<F: Fn(u8) -> bool>(bytes: &[u8], stop: F) -> (&[u8], &[u8])
    requires { F.IsAlwaysCallable stop }
    ensures front { (p : ℕ → Bool) → Computes (F.post stop) p → result.0.now ≡ before p bytes.now }
    ensures back { result.1.now ≡ drop (length result.0.now) bytes.now }
    ensures within { length result.0.now ≤ length bytes.now }
{
    let place = bytes.iter().position(|b| stop(*b)).unwrap_or(bytes.len());
    bytes.split_at(place)
}

// What stands before the first `stop`, or all where there is none.
pub fn before_first(bytes: &[u8], stop: u8) -> &[u8]
    ensures front { result.now ≡ before (λ b. nat_eq b stop) bytes.now }
    ensures within { length result.now ≤ length bytes.now }
{
    split_before(bytes, |b| b == stop).0
}

fn is_blank(b: u8) -> bool
    ensures { result ≡ blank b }
{
    b == b' ' || b == b'\t'
}

// The line without a CR at its end.
fn without_carriage_return(line: &[u8]) -> &[u8]
    ensures { result.now ≡ uncarried line.now }
{
    match line {
        [front @ .., b'\r'] => front,
        _ => line,
    }
}

impl<'a> Words<'a> {
    pub fn new(line: &'a [u8]) -> Words<'a>
        ensures { result ≡ words (uncommented line.now) }
    {
        Words {
            rest: before_first(without_carriage_return(line), b'#'),
        }
    }

    pub fn next_word(&mut self) -> Option<&'a [u8]>
        ensures word { MatchOption result (self.old ≡ []) (λ w. self.old ≡ w.now ∷ self.new) }
        ensures left { self.new ≡ drop 1 self.old }
    {
        let (_, rest) = split_before(self.rest, |b| !is_blank(b));
        let (word, left) = split_before(rest, is_blank);
        self.rest = left;
        if word.is_empty() {
            return None;
        }
        Some(word)
    }

    pub fn word(&mut self) -> Result<&'a [u8], Expected>
        ensures word { MatchResult result (λ w. self.old ≡ w.now ∷ self.new) (λ e. (self.old ≡ []) × (e ≡ MoreWords)) }
        ensures left { self.new ≡ drop 1 self.old }
    {
        self.next_word().ok_or(Expected::MoreWords)
    }

    pub fn end(&mut self) -> Result<(), Expected>
        ensures end { result ≡ none self.old }
        ensures left { self.new ≡ drop 1 self.old }
    {
        match self.next_word() {
            Some(_) => Err(Expected::NoMoreWords),
            None => Ok(()),
        }
    }

    // This and `two` answer as the rules of statements do, by a word and a pair, which clauses above cite as they are.
    pub fn one(&mut self) -> Result<&'a [u8], Expected>
        ensures word { ok_map (λ x. x.now) result ≡ one self.old }
        ensures left { self.new ≡ drop 2 self.old }
    {
        let first = self.word()?;
        self.end()?;
        Ok(first)
    }

    pub fn two(&mut self) -> Result<(&'a [u8], &'a [u8]), Expected>
        ensures words { ok_map (λ p. (p.0.now, p.1.now)) result ≡ two self.old }
        ensures left { self.new ≡ drop 3 self.old }
    {
        let first = self.word()?;
        let second = self.word()?;
        self.end()?;
        Ok((first, second))
    }

    pub fn one_or_two(&mut self) -> Result<(&'a [u8], Option<&'a [u8]>), Expected>
        ensures words { ok_map (λ p. (p.0.now, option_map (λ x. x.now) p.1)) result ≡ one_or_two self.old }
        ensures left { self.new ≡ drop 3 self.old }
    {
        let first = self.word()?;
        let more = self.next_word();
        self.end()?;
        Ok((first, more))
    }

    pub fn none_or_four(&mut self) -> Result<Option<Four<'a>>, Expected>
        ensures words { ok_map (option_map (λ f. (f.0.now, f.1.now, f.2.now, f.3.now))) result ≡ none_or_four self.old }
        ensures left { self.new ≡ drop 5 self.old }
    {
        let Some(first) = self.next_word() else {
            return Ok(None);
        };
        let second = self.word()?;
        let third = self.word()?;
        let fourth = self.word()?;
        self.end()?;
        Ok(Some((first, second, third, fourth)))
    }
}
