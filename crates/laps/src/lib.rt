// Loops over whole walks, inside the library, for benchmarks: each sums up one number of each item.

#![tactic(auto)]

mod chained;
mod exports;
mod lap;
mod streams;
