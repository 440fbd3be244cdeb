// C entries for the tests outside the proof, declared for C in tests/shared/probe.h. A host links `shade`, not this. A
// load, a judgement and a place stand twice: C has no type that is either X, Y, Z or L*, a*, b*.
#![tactic(auto)]

pub mod answers;
pub mod ground;
pub mod printed;
