// Nothing but a statement: document 01's marked cases hold of the library's definitions (specs/Cases, proofs/Marked).
#![tactic(auto)]
