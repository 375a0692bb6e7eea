// No code: document 01's worked sessions on lent bytes.
#![tactic(auto)]
