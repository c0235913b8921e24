//! Tables of steps, each of which goes on from where the one before it ended.

use std::alloc::{AllocError, Global};

/// What a call says that was refused a growth.
pub const OUT_OF_MEMORY: &str = "out of memory";

/// What goes through the steps of a table.
pub trait Course {
    /// Takes a step, and says what comes of it: `OUT_OF_MEMORY` where a call of the library was refused a growth.
    fn step(&mut self, alloc: Global, step: &str) -> Result<String, AllocError>;

    /// Appends what is to be seen of it.
    fn tell(&self, out: &mut String) -> Result<(), AllocError>;
}

/// The rows of which something else comes than is wanted, each with that. A row is a step, ` = `, and what is wanted; a line
/// without ` = ` is no row.
pub fn wrong_steps<C: Course + Drop>(
    alloc: Global,
    mut course: C,
    table: &str,
) -> Result<String, AllocError> {
    let mut wrong = String::new(alloc);
    for line in table.lines() {
        if let Some((step, wanted)) = line.split_once(" = ") {
            look(alloc, &mut course, step, wanted, &mut wrong)?;
        }
    }
    Ok(wrong)
}

/// Adds a step to the wrong ones where something else comes of it than is wanted.
fn look<C: Course>(
    alloc: Global,
    course: &mut C,
    step: &str,
    wanted: &str,
    wrong: &mut String,
) -> Result<(), AllocError> {
    let answer = answer(alloc, course, step)?;
    if is_same(answer.as_str(), wanted) {
        return Ok(());
    }
    writeln!(wrong, "{step} = {answer}")
}

/// What comes of a step. Where a growth is refused nothing may have changed, and the step is taken once more.
fn answer<C: Course>(alloc: Global, course: &mut C, step: &str) -> Result<String, AllocError> {
    let before = told(alloc, course)?;
    let answer = course.step(alloc, step)?;
    if answer.as_str() == OUT_OF_MEMORY && told(alloc, course)? == before {
        return course.step(alloc, step);
    }
    Ok(answer)
}

/// What is to be seen of a course.
fn told<C: Course>(alloc: Global, course: &C) -> Result<String, AllocError> {
    let mut text = String::with_capacity(alloc, 128)?;
    course.tell(&mut text)?;
    Ok(text)
}

/// Whether both texts are the same, but for spaces that part what is wanted as its reader likes.
fn is_same(answer: &str, wanted: &str) -> bool {
    let answer = answer.as_bytes();
    let mut at = 0;
    for byte in wanted.as_bytes() {
        if at < answer.len() && answer[at] == *byte {
            at += 1;
        } else if *byte != b' ' {
            return false;
        }
    }
    at == answer.len()
}
