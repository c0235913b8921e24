//! The names that an expression matches.
ghost use Rattle.std.specs.Prelude.{◌≡◌, IfOk, Err};
ghost use Rattle.regex.specs.Patterns.{Re};
ghost use Rattle.regex.specs.Strings.{regex_pattern};
ghost use Rattle.topic_expressions.specs.Expressions.{texts, matched, IsReadAs, IsRefused};

use crate::fault::ExpressionFault;
use crate::pattern::pattern_of;
use regex::Regex;
use std::alloc::{AllocError, Global};

/// Those of the names that a pattern matches.
fn matched_by<'a>(
    alloc: Global,
    regex: &Regex,
    names: &[&'a str],
) -> Result<Vec<&'a str>, AllocError>
    ensures { IfOk result (λ found. texts found.items ≡ matched (regex_pattern regex.now) (texts names.now)) }
{
    let mut matcher = regex.matcher(alloc)?;
    let mut found = Vec::new(alloc);
    for name in names {
        if matcher.is_match(name) {
            found.push(*name)?;
        }
    }
    Ok(found)
}

/// Those of the names that a regular expression matches as a whole, in their order (KIP-848, "SubscribedTopicRegex").
///
/// Faults: `Refused` if it is longer than 1,000 bytes, no regular expression, or over 256 KiB when compiled; memory.
pub fn names_matched<'a>(
    alloc: Global,
    expression: &str,
    names: &[&'a str],
) -> Result<Vec<&'a str>, ExpressionFault>
    ensures found { IfOk result (λ found. (re : Re) × IsReadAs expression.now re × (texts found.items ≡ matched re (texts names.now))) }
    ensures refused { result ≡ Err ExpressionFault.Refused → IsRefused expression.now }
{
    let regex = pattern_of(alloc, expression)?;
    let found = matched_by(alloc, &regex, names)?;
    Ok(found)
}
