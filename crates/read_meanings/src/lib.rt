// What pairs that are read mean, promises about reading and meanings; there is no code here.
#![tactic(auto)]
