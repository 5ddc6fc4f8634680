// Costs of paths from any state, and cycles below zero: definitions and laws only.
#![tactic(auto)]
