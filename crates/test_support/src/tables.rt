//! Tables of text: each row has a question, ` = `, and the answer that is wanted.

use std::alloc::{AllocError, Global};
use std::str::FromStr;

/// What answers the questions of a table.
pub trait Answers {
    /// Appends the answer to a question. Fails only for want of memory, and is then asked again.
    fn answer(&self, alloc: Global, question: &str, out: &mut String) -> Result<(), AllocError>;
}

/// The rows whose answer is another than the one that is wanted, each with that answer. A line that is empty or begins with `#`
/// is no row.
pub fn wrong_rows<T: Answers>(
    alloc: Global,
    answers: &T,
    table: &str,
) -> Result<String, AllocError> {
    let mut wrong = String::new(alloc);
    for row in table.lines() {
        if !row.is_empty() && !row.starts_with('#') {
            let (question, wanted) = row.split_once(" = ").unwrap_or((row, ""));
            look_twice(alloc, answers, question, wanted, &mut wrong)?;
        }
    }
    Ok(wrong)
}

/// Appends the same for answers that take several lines.
pub fn add_wrong_pairs<T: Answers>(
    alloc: Global,
    answers: &T,
    pairs: &[(&str, &str)],
    wrong: &mut String,
) -> Result<(), AllocError> {
    for (question, wanted) in pairs {
        look_twice(alloc, answers, question, wanted, wrong)?;
    }
    Ok(())
}

/// Looks at a row, and once more where a growth is refused.
fn look_twice<T: Answers>(
    alloc: Global,
    answers: &T,
    question: &str,
    wanted: &str,
    wrong: &mut String,
) -> Result<(), AllocError> {
    match look(alloc, answers, question, wanted, wrong) {
        Ok(()) => Ok(()),
        Err(_) => look(alloc, answers, question, wanted, wrong),
    }
}

/// Looks whether the answer is the one that is wanted, and appends the row where it isn't.
fn look<T: Answers>(
    alloc: Global,
    answers: &T,
    question: &str,
    wanted: &str,
    wrong: &mut String,
) -> Result<(), AllocError> {
    let mut answer = String::new(alloc);
    answers.answer(alloc, question, &mut answer)?;
    if is_wanted(answer.as_str(), wanted) {
        return Ok(());
    }
    writeln!(wrong, "{question} = {answer}")
}

/// Whether the answer has the words of the one that is wanted, which may stand on several lines.
fn is_wanted(answer: &str, wanted: &str) -> bool {
    let mut words = answer.split_whitespace();
    for word in wanted.split_whitespace() {
        if words.next() != Some(word) {
            return false;
        }
    }
    words.next().is_none()
}

/// A word, and the words behind it.
pub fn cut(words: &str) -> (&str, &str) {
    words.split_once(' ').unwrap_or((words, ""))
}

/// Parts the next word from those that stand there.
pub fn part_words(out: &mut String) -> Result<(), AllocError> {
    if out.is_empty() || out.as_str().ends_with(' ') {
        return Ok(());
    }
    out.push(' ')
}

/// A number, or 0 where the text is none.
pub fn number<T: FromStr + Default>(text: &str) -> T
where
    T::Err: Drop,
{
    text.parse().unwrap_or_default()
}
