// Procedures over a field: what is sent, and what is made of each reply. There is no code here, only what is said of it.
#![tactic(auto)]
