// No code: every order of tills. Histories of the card table, and the theorem that redemptions leave it as if each had run whole.
#![tactic(auto)]
