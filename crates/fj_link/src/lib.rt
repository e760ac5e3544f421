//! The calls of a Fortran program on one unit, as C sees them: a handle in room that the caller has, and calls on it.
#![tactic(auto)]

mod exports;
mod handle;
