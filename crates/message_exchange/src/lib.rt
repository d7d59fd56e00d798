// Messages exchanged in two directions: the transcript that is kept of them, and when both ends agree on it. Definitions and theorems; no code.
#![tactic(auto)]
