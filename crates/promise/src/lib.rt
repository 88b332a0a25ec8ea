// Promise 3 of our own board: what the abstract board of the crate guarantee asks, supplied. There is no code here.
#![tactic(auto)]
