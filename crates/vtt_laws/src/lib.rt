// No code: what is read from a file is a list without fault, and its cues are lines of the file.
#![tactic(auto)]
