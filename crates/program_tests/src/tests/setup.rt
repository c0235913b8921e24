//! How a row is run.

/// How many bytes an output takes, where a row doesn't say otherwise.
pub(super) const ROOM: usize = 8_192;

/// How a row is run.
#[derive(Clone, Copy)]
pub(super) struct Setup<'a> {
    pub words: &'a str,
    pub status: u8,
    pub fails: Fails,
    /// How many bytes the output takes.
    pub room: usize,
    /// How often the input is given.
    pub times: usize,
}

/// What fails in a run, or how its input comes.
#[derive(Clone, Copy, PartialEq, Eq)]
pub(super) enum Fails {
    Nothing,
    /// The words can't be read.
    Words,
    /// There are no random keys.
    Keys,
    /// The first half of the input comes a byte a read, with an interruption before each.
    Drops,
    /// Behind the last byte comes an error.
    Read,
    /// Behind the last byte comes an error for want of memory.
    Memory,
    /// Behind the last byte come zeros without end.
    End,
}

impl<'a> Setup<'a> {
    /// How a row says that it is run.
    pub(super) fn of(row: &'a str) -> Setup<'a> {
        let mut how = line_of(row, "% ").split(' ');
        Setup {
            words: line_of(row, "$ "),
            status: u8::try_from(number(how.next(), 0)).unwrap_or(u8::MAX),
            fails: Fails::of(how.next().unwrap_or_default()),
            room: number(how.next(), ROOM),
            times: number(how.next(), 1),
        }
    }
}

impl Fails {
    fn of(word: &str) -> Fails {
        match word {
            "words" => Fails::Words,
            "keys" => Fails::Keys,
            "drops" => Fails::Drops,
            "read" => Fails::Read,
            "memory" => Fails::Memory,
            "end" => Fails::End,
            _ => Fails::Nothing,
        }
    }
}

/// The line of a row that begins so, without that beginning.
fn line_of<'a>(row: &'a str, mark: &str) -> &'a str {
    for line in row.lines() {
        if let Some(rest) = line.strip_prefix(mark) {
            return rest;
        }
    }
    ""
}

/// The number that a word spells, or another one.
fn number(word: Option<&str>, other: usize) -> usize {
    word.and_then(|word| word.parse().ok()).unwrap_or(other)
}
