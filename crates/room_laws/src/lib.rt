// Laws of rooms: of a message applied, of the two routes, of a press. There is no code here: specs/ states them and proofs/ proves them.

#![tactic(auto)]
