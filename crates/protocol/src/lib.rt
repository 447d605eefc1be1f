// Two ends over one line, any that keep the link rules: what demand 3 says of them, and its proof. Theorems only.
#![tactic(auto)]
