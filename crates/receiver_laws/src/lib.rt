// Theorems only: what a receiver hears of a burst. The statements stand in specs/, their proofs in proofs/.

#![tactic(auto)]
