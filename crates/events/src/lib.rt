// What happens on a board, as a list of events, and what is counted in it. There is no code here.
#![tactic(auto)]
