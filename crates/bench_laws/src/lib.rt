// Theorems only: what a bench of stations owes its messages. specs/ has the statements, proofs/ their proofs.

#![tactic(auto)]
