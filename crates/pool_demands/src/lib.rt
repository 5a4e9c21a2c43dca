// The second and the third demand of the pool profile, and that no message is accepted by both profiles: theorems, and no code.
#![tactic(auto)]
