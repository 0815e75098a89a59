use cynara_keys::{Kind, Short};

/// Where an answer was found in a database: the kind of the result, the place of the bucket that holds it, and there
/// the place of the policy, or none for the bucket's fallback. Places count from 0.
#[derive(Clone, Copy, Debug, PartialEq, Eq)]
pub struct Found {
    pub kind: Kind,
    pub bucket: usize,
    pub policy: Option<usize>,
}

/// The texts of a policy's key.
#[derive(Clone, Copy, Debug, PartialEq, Eq)]
pub struct Row {
    pub client: Short,
    pub user: Short,
    pub privilege: Short,
}

/// Why an answer came: the bucket that holds it, and the key of its policy, or none for the bucket's fallback.
#[derive(Clone, Copy, Debug, PartialEq, Eq)]
pub struct Cause {
    pub bucket: Short,
    pub row: Option<Row>,
}

/// The answer to a question, by value.
#[derive(Clone, Copy, Debug, PartialEq, Eq)]
pub struct Answer {
    pub kind: Kind,
    pub metadata: Short,
    pub cause: Cause,
}

/// An answer, and the commit of the policies that it was given under.
#[derive(Clone, Copy, Debug, PartialEq, Eq)]
pub struct Verdict {
    pub commit: u64,
    pub answer: Answer,
}
