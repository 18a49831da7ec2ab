// Nothing to run: demand 3, and that each promise determines its result.
#![tactic(auto)]
