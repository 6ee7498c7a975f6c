// The mathematics of best plans. There is no code here: specs/ says what a table, a plan, its counts and a best plan are,
// and proofs/ holds what is proved of them.
#![tactic(auto)]
