// What it means to lay bytes into a lent space: definitions and laws that the other crates share. There is no code here.
#![tactic(auto)]
