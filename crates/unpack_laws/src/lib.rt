// No code: what unpacking answers is a list without fault, the check accepts it, and a packed list comes back.
#![tactic(auto)]
