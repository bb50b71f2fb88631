// The known exchanges of the rules that are marked with a star, computed by the definitions of `model`. There is no code here.
#![tactic(auto)]
