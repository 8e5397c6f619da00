// No code: what of a 3GPP text is left as a WebVTT payload, with its tags (specs/), and the laws about it (proofs/).
#![tactic(auto)]
