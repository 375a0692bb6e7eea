// No code: the three demands as statements about any machine, and the proof that the rules meet them.
#![tactic(auto)]
