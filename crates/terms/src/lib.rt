// The words that the definitions share. There is no code here: specs/Words.antt has the words, proofs/ what holds of them.
#![tactic(auto)]
