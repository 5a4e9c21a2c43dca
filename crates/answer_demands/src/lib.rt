// The second and the third demand of the MT509: theorems, and no code.
#![tactic(auto)]
