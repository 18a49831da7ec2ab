// Nothing to run: tableaux, and the invariant of the module, with their theory.
#![tactic(auto)]
