// Laws only: no sheet carried to more binary places changes a verdict (specs/Finer.antt, proofs/Theorems/Finer.antt).
#![tactic(auto)]
