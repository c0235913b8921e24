//! Tests of the subcommands over readers and writers in memory: streams that fail, which subcommand runs, and what `coord serve` is asked for.
//! What the program prints for its lines stands in `cases`, the worked examples of the protocol among them.

mod services;
mod setup;
mod stream;
mod streams;
mod subcommands;

use scenario_lines::program::{self, Ran};
use scenario_text::service::Service;
use setup::{Fails, Setup};
use std::alloc::{AllocError, Global};
use std::collections::hash_map::RandomState;
use std::io;
use std::io::{Cursor, Error, ErrorKind, Write};
use std::random::RandomSource;
use stream::Stream;

/// Runs the rows of a table. A table is text, and an empty line stands between its rows. A line of a row is one of these:
///
/// | Line | It has |
/// |---|---|
/// | `# NAME` | the row's name |
/// | `$ WORDS` | the words of the command line |
/// | `% STATUS FAILS ROOM TIMES` | the status, what fails, how many bytes the output takes and how often the input is given; without it `0 nothing 8192 1` |
/// | `! LINE` | a line that is told on standard error |
/// | `| TEXT` | a remark |
/// | `LINE => PRINTED` | a line of the input and a line that is printed; either may be left out |
#[derive(Clone, Copy)]
struct Runner {
    alloc: Global,
    keys: RandomState,
}

/// What a run has written, and its status.
#[derive(Drop)]
struct Output {
    status: u8,
    printed: Vec<u8>,
    told: Vec<u8>,
}

/// What a line of a row is for.
#[derive(Clone, Copy)]
enum Part {
    Input,
    Printed,
    Told,
}

/// How many processors there are.
const PROCESSORS: usize = 3;

/// The line of an act that is refused for want of memory.
const REFUSED: &[u8] = b"refused 4\n";

/// The rows of a table that come to something else than they say. Where memory was refused, the table is gone through once more.
fn wrong_rows(rt: &(impl AllocGlobal + RandomSource), table: &str) -> io::Result<String> {
    let runner = Runner {
        alloc: rt.alloc(),
        keys: RandomState::new(rt)?,
    };
    let wrong = runner.wrong_rows(table);
    Ok(wrong.or_else(|_| runner.wrong_rows(table))?)
}

impl Runner {
    fn wrong_rows(&self, table: &str) -> Result<String, AllocError> {
        let mut wrong = String::new(self.alloc);
        for row in table.split("\n\n") {
            self.look(row, &mut wrong)?;
        }
        Ok(wrong)
    }

    /// Tells a row that comes to something else than it says.
    fn look(&self, row: &str, wrong: &mut String) -> Result<(), AllocError> {
        let setup = Setup::of(row);
        let input = self.text_of(row, Part::Input, setup.times)?;
        let output = self.run_with_memory(&setup, input.as_bytes())?;
        if !self.is_right(row, &setup, &output)? {
            let printed = output.printed.escape_ascii();
            let told = output.told.escape_ascii();
            writeln!(wrong, "{row}\n{} {printed} {told}", output.status)?;
        }
        Ok(())
    }

    /// Whether a row's run has come to what the row says.
    fn is_right(&self, row: &str, setup: &Setup<'_>, output: &Output) -> Result<bool, AllocError> {
        let mut printed = self.text_of(row, Part::Printed, setup.times)?.into_bytes();
        printed.truncate(setup.room);
        let told = self.text_of(row, Part::Told, 1)?;
        Ok(
            output.status == setup.status
                && output.printed == printed
                && output.told.as_slice() == told.as_bytes(),
        )
    }

    /// One part of a row, `times` times over.
    fn text_of(&self, row: &str, part: Part, times: usize) -> Result<String, AllocError> {
        let lines = self.lines_of(row, part)?;
        let mut text = String::new(self.alloc);
        for _ in 0..times {
            text.push_str(lines.as_str())?;
        }
        Ok(text)
    }

    /// The lines of one part of a row.
    fn lines_of(&self, row: &str, part: Part) -> Result<String, AllocError> {
        let mut lines = String::new(self.alloc);
        for line in row.lines() {
            put_line(&mut lines, part.of(line))?;
        }
        Ok(lines)
    }

    /// What comes of a run, which is made once more where memory was short in it.
    fn run_with_memory(&self, setup: &Setup<'_>, input: &[u8]) -> Result<Output, AllocError> {
        let output = self.run(setup, input)?;
        if output.lacked_memory() {
            return self.run(setup, input);
        }
        Ok(output)
    }

    fn run(&self, setup: &Setup<'_>, input: &[u8]) -> Result<Output, AllocError> {
        let words = self.words(setup)?;
        let mut printed = vec![in self.alloc; 0; setup.room]?;
        let mut told = vec![in self.alloc; 0; setup::ROOM]?;
        let mut writer = Cursor::new(printed.as_mut_slice());
        let mut faults = Cursor::new(told.as_mut_slice());
        let status = self.status(setup, words, input, &mut writer, &mut faults);
        let (written, told_bytes) = (writer.position() as usize, faults.position() as usize);
        printed.truncate(written);
        told.truncate(told_bytes);
        Ok(Output {
            status,
            printed,
            told,
        })
    }

    fn status<W: Write, E: Write>(
        &self,
        setup: &Setup<'_>,
        words: io::Result<Vec<String>>,
        input: &[u8],
        writer: &mut W,
        faults: &mut E,
    ) -> u8 {
        let mut reader = Stream::new(input, setup.fails);
        let keys = match setup.fails {
            Fails::Keys => Err(Error::from(ErrorKind::BrokenPipe)),
            _ => Ok(self.keys),
        };
        let ran = program::run(
            self.alloc,
            words,
            keys,
            PROCESSORS,
            &mut reader,
            writer,
            faults,
        );
        match ran {
            Ran::Ended(status) => status,
            Ran::Serves(service) => echo(service, writer),
        }
    }

    /// The words of the command line.
    fn words(&self, setup: &Setup<'_>) -> Result<io::Result<Vec<String>>, AllocError> {
        if setup.fails == Fails::Words {
            return Ok(Err(Error::from(ErrorKind::BrokenPipe)));
        }
        let mut words = Vec::new(self.alloc);
        words.push(String::from_str(self.alloc, "coord")?)?;
        for word in setup.words.split_whitespace() {
            words.push(String::from_str(self.alloc, word)?)?;
        }
        Ok(Ok(words))
    }
}

/// Prints the numbers of what the program is to serve, 0 where no connection is to be closed for its silence, whether ends are told (1) or
/// not (0), and the partitions of the topic `t`, and serves nothing. Gives 0, or 1 where the writer fails.
fn echo<W: Write>(service: Service, writer: &mut W) -> u8 {
    let (port, workers) = (service.port, service.workers);
    let (shards, connections) = (service.shards, service.connections);
    let partitions = service.image.find("t").map_or(0, |(_, count)| count);
    let (idle, logs) = (service.idle.unwrap_or(0), u8::from(service.logs));
    let printed = writeln!(
        writer,
        "{port} {workers} {shards} {connections} {idle} {logs} {partitions}"
    );
    if printed.is_ok() { 0 } else { 1 }
}

impl Output {
    /// Whether memory was short: the run ended for it, or an act was refused for it.
    fn lacked_memory(&self) -> bool {
        self.told.ends_with(b"out of memory\n")
            || self
                .printed
                .windows(REFUSED.len())
                .any(|part| part == REFUSED)
    }
}

impl Part {
    /// What a line of a row has for this part, or nothing.
    fn of(self, line: &str) -> &str {
        if let Some(told) = line.strip_prefix("! ") {
            return match self {
                Part::Told => told,
                Part::Input | Part::Printed => "",
            };
        }
        if line.starts_with("# ")
            || line.starts_with("$ ")
            || line.starts_with("% ")
            || line.starts_with("| ")
        {
            return "";
        }
        let (input, printed) = line.split_once("=>").unwrap_or((line, ""));
        match self {
            Part::Input => input.trim(),
            Part::Printed => printed.trim(),
            Part::Told => "",
        }
    }
}

/// Appends a line that isn't empty.
fn put_line(text: &mut String, line: &str) -> Result<(), AllocError> {
    if !line.is_empty() {
        text.push_str(line)?;
        text.push('\n')?;
    }
    Ok(())
}
