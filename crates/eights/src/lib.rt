// Nothing but a statement: by a list of eleven eights every call answers as document 01 has it, where each block has eight words and there is
// no list (specs/Base, proofs/Eights).
#![tactic(auto)]
