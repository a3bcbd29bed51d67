// What one of two tables that share a pool shows, whatever the other does, and the books of their pool over a whole input: theorems over the definitions that the
// contracts of `pairs` cite. There is no code here.
#![tactic(auto)]
