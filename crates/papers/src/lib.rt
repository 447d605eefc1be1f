// Theorems that hold the definitions to the papers.
#![tactic(auto)]
