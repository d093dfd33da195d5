// Theorems only: what is said by a receiver, read off all half-cycles that came.

#![tactic(auto)]
