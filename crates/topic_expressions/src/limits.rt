//! The limits of expressions.

/// The most bytes of a regular expression (ours).
pub const LONGEST_EXPRESSION: usize = 1_000;

/// About how many bytes the compiled form of a regular expression may take (ours).
pub const LARGEST_PATTERN: usize = 262_144;
