// In each code any two columns of a stripe are determined by the others, so at most one can be named bad. Laws, and no code.
#![tactic(auto)]
