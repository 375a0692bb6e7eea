// No code: stores that are document 01's but for their ways, and the demands that each meets or does not.
#![tactic(auto)]
