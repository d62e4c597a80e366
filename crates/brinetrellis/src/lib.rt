// The walks as C sees them: numbers and byte slices go in, and a number comes out. What each function
// answers and writes is in specs/Entries.antt, a definition to a function.

#![tactic(auto)]

mod binds;
mod chained;
mod exports;
mod names;
mod rebases;
