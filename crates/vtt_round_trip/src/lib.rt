// No code: a file that is written is read again, its cues the same, and none of the premises can be left out.
#![tactic(auto)]
