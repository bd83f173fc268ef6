// The stripes to try that document 01 marks P, as one table, and that every row of it holds. Laws, and no code.
#![tactic(auto)]
