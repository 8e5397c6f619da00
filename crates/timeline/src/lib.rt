// No code: cues and tracks on a timeline of ticks, packing, the check and unpacking (specs/), with their theorems (proofs/).
#![tactic(auto)]
