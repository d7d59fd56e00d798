// What holds of fields written by one end and read by the other: theorems, and no code.
#![tactic(auto)]
