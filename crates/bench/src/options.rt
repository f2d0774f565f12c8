// The words after the program's name.
ghost use Rattle.std.specs.Prelude.{◌≡◌, true, false, is_some, is_ok, if◌then◌else◌, Some, string_bytes};
ghost use Rattle.bench.specs.Options.{allowed, names_file, names_state, sort_of, usage_text};

use std::error::Error;
use std::fmt;

// `--state`, a file's name, or another word that begins with `-`.
#[derive(Clone, Copy)]
pub enum Sort {
    State,
    File,
    Unknown,
}

#[derive(Default, Drop)]
pub struct Options {
    pub state: bool,
    pub file: Option<String>,
}

// The words are not `[--state] [FILE]`.
#[derive(Clone, Copy, Debug)]
pub struct Usage;

impl fmt::Display for Usage {
    ghost output = { λ _. Some usage_text };

    fn fmt<W: fmt::Write>(&self, f: &mut fmt::Formatter<W>) -> fmt::Result {
        f.write_str("usage: spibench [--state] [FILE]")
    }
}

impl Error for Usage {}

// What a word is, and not the word in another form: so no `From`.
pub fn sort_of(word: &[u8]) -> Sort
    ensures value { result ≡ sort_of word.now }
{
    match word {
        b"--state" => Sort::State,
        [b'-', ..] => Sort::Unknown,
        _ => Sort::File,
    }
}

impl Options {
    // One word more. A second file and an unknown option are refused, and alter nothing.
    pub fn take(&mut self, word: String) -> Result<(), Usage>
        ensures test { is_ok result ≡ allowed (sort_of (string_bytes word)) (is_some self.old.file) }
        ensures state { self.new.state ≡ (if names_state (sort_of (string_bytes word)) then true else self.old.state) }
        ensures file { self.new.file ≡ (if is_ok result then (if names_file (sort_of (string_bytes word)) then Some word else self.old.file) else self.old.file) }
    {
        match sort_of(word.as_bytes()) {
            Sort::State => self.state = true,
            Sort::File if self.file.is_none() => self.file = Some(word),
            Sort::File | Sort::Unknown => return Err(Usage),
        }
        Ok(())
    }
}
