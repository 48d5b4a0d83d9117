//! A consumer behind a handle.

mod access;
mod calls;
mod handle;
mod pairs;
