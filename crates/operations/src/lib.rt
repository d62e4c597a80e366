// The operations of rebase and bind streams, read at a place. `specs/Loader.antt` has their table.

#![tactic(auto)]

pub mod bind_operation;
mod operands;
pub mod rebase_operation;
