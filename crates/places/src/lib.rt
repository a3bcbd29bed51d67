// Request No. 11's theorems: places compare as hands do, and each occurs. There is no code here, only theorems over `ladder`.
#![tactic(auto)]
