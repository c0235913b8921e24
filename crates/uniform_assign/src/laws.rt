//! What holds of the owners under uniform, whatever the members, the topics and the former owners.

ghost use Rattle.uniform_assign.specs.Existence.{UniformHasASpread};
ghost use Rattle.uniform_assign.specs.Laws.{LawfulAndEvenOwnersStay, UniformIsEven, UniformIsLawful, UniformIsOneSpread};

/// The owners under uniform are lawful: each partition that some member subscribes has exactly one owner, who
/// subscribes it, and nothing else is owned.
pub fn uniform_is_lawful()
    ensures { UniformIsLawful }
{}

/// Under uniform no owner of a partition owns more than one partition more than a subscriber of its topic.
pub fn uniform_is_even()
    ensures { UniformIsEven }
{}

/// Where the former owners are lawful and even, uniform gives them back.
pub fn lawful_and_even_owners_stay()
    ensures { LawfulAndEvenOwnersStay }
{}

/// The rule has one result: two spreads under uniform, of the same former owners, are one.
pub fn uniform_is_one_spread()
    ensures { UniformIsOneSpread }
{}

/// The rule has a result: for members no two of whom have one id there is a spread under uniform, whatever the topics and
/// the former owners.
pub fn uniform_has_a_spread()
    ensures { UniformHasASpread }
{}
