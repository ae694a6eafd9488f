//! Worked programs: their sources and modules, why these are the sources' translations, and what both come to.
//! The expected values are those of a reference.
#![tactic(auto)]
