// The order of the mnemonics, a promise about the names and the tables; there is no code here.
#![tactic(auto)]
