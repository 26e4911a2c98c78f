// No code: what the signed forms give, on whole numbers, and the laws over the width that their proofs cite.
#![tactic(auto)]
