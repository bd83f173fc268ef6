// The elimination method over any equations, and what its outcome says of the lost cells. Definitions and laws, and no code.
#![tactic(auto)]
