// Nothing to run: the definitions of document 01 and their theory.
#![tactic(auto)]
