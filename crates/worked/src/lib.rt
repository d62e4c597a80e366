// The worked examples of the public documents, proved of the definitions: specs/ and proofs/ hold
// them, and there is no code.

#![tactic(auto)]
