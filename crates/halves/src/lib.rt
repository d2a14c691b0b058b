// What the pairs of a constant's half do, a promise about recipes and the machine; there is no code here.
#![tactic(auto)]
