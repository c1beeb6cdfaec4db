// Theorems about the definitions of crate `model`: see specs/.
#![tactic(auto)]
