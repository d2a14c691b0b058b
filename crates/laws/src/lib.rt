// What every other crate cites: the definitions in specs/ and the laws in proofs/. It has no code of its own.
#![tactic(auto)]
