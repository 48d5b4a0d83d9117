//! A cluster behind a handle.

pub mod access;
pub mod handle;
mod readers;
mod steps;
