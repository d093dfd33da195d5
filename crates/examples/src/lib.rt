// No code: the line examples P1 to P12, as one statement over the definitions that the contracts cite.

#![tactic(auto)]
