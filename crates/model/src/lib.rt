// The session as mathematics: there is no code here. The definitions, the book and the claims stand in specs/, the demands'
// proofs in proofs/; crate `session` is the code that is proved equal to the definitions.
#![tactic(auto)]
