// Laws only, about the whole station: the three demands (specs/Demand1.antt, Demand2.antt, Demand3.antt), and that no
// report is longer than 161 bytes (specs/Longest.antt).
#![tactic(auto)]
