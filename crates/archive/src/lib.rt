// What the stored log is worth: theorems over the definitions that the contracts of `records`, `fresh`, `amends` and `ledger` cite. There is no code here.
#![tactic(auto)]
