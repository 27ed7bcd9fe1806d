//! Tests of libraries, of what no command reaches and no clause says: generated accesses to banks whose frames run out, beside
//! a plain list of bytes.
#![tactic(auto)]

#[cfg(test)]
mod buses;
