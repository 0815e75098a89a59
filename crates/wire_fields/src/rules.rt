// The rules by which a command is refused, and their numbers in a frame.
ghost use Rattle.std.specs.Prelude.{◌≡◌};
ghost use Rattle.wire_fields.specs.Refused.{rule_of};

/// A rule of the policy state that a command broke, as a frame tells it.
#[derive(Clone, Copy, Debug, PartialEq, Eq)]
pub enum Rule {
    Reserved,
    LayoutThere,
    NoLayout,
    NoBucket,
    RootBucket,
    BadKind,
    UnknownUser,
    OtherPackage,
    OtherAuthor,
    OtherHybrid,
    NotInstalled,
    Limit,
    Cycle,
}

impl Rule {
    /// The rule of this number.
    pub fn of(number: u8) -> Option<Rule>
        ensures { result ≡ rule_of number }
    {
        match number {
            1 => Some(Rule::Reserved),
            2 => Some(Rule::LayoutThere),
            3 => Some(Rule::NoLayout),
            4 => Some(Rule::NoBucket),
            5 => Some(Rule::RootBucket),
            6 => Some(Rule::BadKind),
            7 => Some(Rule::UnknownUser),
            8 => Some(Rule::OtherPackage),
            9 => Some(Rule::OtherAuthor),
            10 => Some(Rule::NotInstalled),
            11 => Some(Rule::Limit),
            12 => Some(Rule::Cycle),
            14 => Some(Rule::OtherHybrid),
            _ => None,
        }
    }
}
