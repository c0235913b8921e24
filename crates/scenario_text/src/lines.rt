//! The lines of an input.
ghost use Rattle.std.specs.Prelude.{◌≡◌, ◌<◌, ◌∷◌, length, position};
ghost use Rattle.std.specs.Iterator.{YieldsFirstRef, item_count};
ghost use Rattle.scenario_text.specs.Lines.{lines_of, is_line_feed};

use memchr::memchr;

/// The lines of an input that are left: each ends at a line feed, which the last may lack.
#[derive(Drop)]
pub struct Lines<'a> {
    rest: &'a [u8],
}

impl<'a> Lines<'a> {
    /// The lines of an input.
    pub fn of(input: &'a [u8]) -> Lines<'a>
        ensures { result.rest.now ≡ input.entry.now }
    {
        Lines { rest: input }
    }
}

impl<'a> Iterator for Lines<'a> {
    type Item = &'a [u8];

    ghost next_gives = { YieldsFirstRef (λ lines. lines_of lines.rest.now) };

    ghost remaining = { item_count (λ lines. lines_of lines.rest.now) };

    fn next(&mut self) -> Option<&'a [u8]> {
        if self.rest.is_empty() {
            return None;
        }
        let (line, rest) = first_line(self.rest);
        self.rest = rest;
        Some(line)
    }
}

/// The first line of an input that has bytes, and the bytes after its line feed.
fn first_line(input: &[u8]) -> (&[u8], &[u8])
    requires { 0 < length input.now }
    ensures { lines_of input.now ≡ result.0.now ∷ lines_of result.1.now }
{
    match line_feed_in(input) {
        Some(end) => (&input[..end], &input[end + 1..]),
        None => (input, &[]),
    }
}

/// The place of the first line feed.
fn line_feed_in(input: &[u8]) -> Option<usize>
    ensures { result ≡ position is_line_feed input.now }
{
    memchr(b'\n', input)
}
