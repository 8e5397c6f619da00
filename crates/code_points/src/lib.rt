// No code: what UTF-8 and UTF-16 mean, characters by their numbers (specs/), with the proofs that the tests of `text` and `characters` say the same (proofs/).
#![tactic(auto)]
