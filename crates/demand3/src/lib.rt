// Our two ends over one line: demand 3. Theorems only.
#![tactic(auto)]
