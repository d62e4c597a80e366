// Numbers, strings and parts of a slice, read at a place. Any place and any bytes get an answer: a
// number or a string that is not there is `None`, and a part that is not there is empty. Beside what is read
// stands the place behind it.

#![tactic(auto)]

pub mod leb128;
pub mod little_endian;
pub mod parts;
pub mod strings;
