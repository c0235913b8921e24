//! The names of the server-side assignors.
ghost use Rattle.std.specs.Prelude.{◌≡◌};

/// A server-side assignor of KIP-848.
#[derive(Clone, Copy, Debug, PartialEq, Eq)]
pub enum AssignorName {
    Range,
    Uniform,
}

impl AssignorName {
    ghost use Rattle.group_types.specs.AssignorName.{assignor_named, assignor_text};

    /// The assignor that a request names, or none where there is no such assignor.
    pub fn of(text: &str) -> Option<AssignorName>
        ensures { result ≡ assignor_named text.now }
    {
        if text == "range" {
            return Some(AssignorName::Range);
        }
        if text == "uniform" {
            return Some(AssignorName::Uniform);
        }
        None
    }

    /// The name, as a request spells it.
    pub fn as_str(self) -> &'static str
        ensures { result.now ≡ assignor_text self }
    {
        match self {
            AssignorName::Range => "range",
            AssignorName::Uniform => "uniform",
        }
    }
}
