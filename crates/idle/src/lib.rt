// No code: machines that the demands shut out, each by what it does, and the proof that it is shut out.
#![tactic(auto)]
