// No code: what the rules of document 01 leave of a store, whatever has happened to it before.
#![tactic(auto)]
