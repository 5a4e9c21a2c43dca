// What a table lays out, for any table: theorems alone, and no code.
#![tactic(auto)]
