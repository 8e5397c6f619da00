// The answer of a text's judgement. What it means, for any rule of texts, stands in specs/FirstBad.antt. The crate's name: a viable prefix is a beginning that can
// still become a right text.
#![tactic(auto)]

pub type Judged = Result<(), usize>;
