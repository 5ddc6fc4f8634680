// No code: the claim as far as the printed text, its definitions and its proof.
#![tactic(auto)]
