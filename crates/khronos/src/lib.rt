// The Khronos description of a texel, and the proof that it is document 01's: see specs/ and proofs/. Nothing here runs.
#![tactic(auto)]
