// Document 01's worked cases, as theorems about the definitions: proofs/Cases.antt. There is no code here.
#![tactic(auto)]
