// No code: a payload made from an old 3GPP sample is in the tag profile (specs/), and the proof of it (proofs/).
#![tactic(auto)]
