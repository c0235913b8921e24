//! What a line of a script begins with.
ghost use Rattle.std.specs.Prelude.{◌≡◌, ◌≢◌, IfSome, IfNone};
ghost use Rattle.scenario_lines.specs.Scripts.{word_of};
ghost use Rattle.scenario_lines.specs.Shows.{done_word};

/// The first word of a line of a script: what the line asks for.
#[derive(Clone, Copy, Debug, PartialEq, Eq)]
pub enum Verb {
    /// A client comes into the story.
    Client,
    /// The topics are now these.
    Image,
    /// The clock is set.
    Clock,
    /// The clock is set, and members whose time is over are removed.
    Tick,
    /// A client asks to join.
    Join,
    /// A client sends a heartbeat.
    Beat,
    /// A client leaves, for good or for a while.
    Quit,
    /// A client waits no longer for the reply to its request.
    Lose,
    /// A request is delivered.
    Deliver,
    /// A reply is given to the client that it is for.
    Take,
    /// A client releases a partition.
    Release,
    /// A client commits an offset.
    Commit,
    /// A commit is brought to the coordinator.
    Bring,
    /// Three rounds settle the world.
    Settle,
}

impl Verb {
    /// The verb that a word is, where it is one.
    pub fn of(word: &str) -> Option<Verb>
        ensures some { IfSome result (λ verb. word.now ≡ word_of verb) }
        ensures none { IfNone result ((verb : Verb) → word.now ≢ word_of verb) }
    {
        match word {
            "client" => Some(Verb::Client),
            "image" => Some(Verb::Image),
            "clock" => Some(Verb::Clock),
            "tick" => Some(Verb::Tick),
            "join" => Some(Verb::Join),
            "beat" => Some(Verb::Beat),
            "quit" => Some(Verb::Quit),
            "lose" => Some(Verb::Lose),
            "deliver" => Some(Verb::Deliver),
            "take" => Some(Verb::Take),
            "release" => Some(Verb::Release),
            "commit" => Some(Verb::Commit),
            "bring" => Some(Verb::Bring),
            "settle" => Some(Verb::Settle),
            _ => None,
        }
    }

    /// What is printed where a line with this verb is done and nothing else is to be shown: its word, and for `settle` that
    /// it is.
    pub fn done(self) -> &'static str
        ensures { result.now ≡ done_word self }
    {
        match self {
            Verb::Image => "image",
            Verb::Settle => "settled",
            _ => "clock",
        }
    }
}
