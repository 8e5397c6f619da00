// No code: what a conversion answers is a list without fault, each of its cues is a sample's, and a payload is what is left of a text.
#![tactic(auto)]
