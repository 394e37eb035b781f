use ug_hearing::{Breach, Judge};

/// What is found of a session: the judge that stands behind its messages, which found no breach, or its first breach.
#[derive(Drop)]
pub enum Verdict {
    Right(Judge),
    Broken(Breach),
}
