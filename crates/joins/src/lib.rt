// No code: laws that join the rules to the bytes that the code reads and writes.
#![tactic(auto)]
