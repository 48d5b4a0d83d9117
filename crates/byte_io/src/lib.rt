//! Byte sources and sinks: the boundary between the reports and the system. Promises:
//! - `read_all` returns every byte that the source has left, `fill` as many as a buffer takes, and
//!   `write_all` and `write_texts` append exactly the bytes given.
//! - An error names the device call that failed. `ReadFailed` and `WriteFailed` come only if the
//!   device counted one failure during the call; after `WriteFailed` a prefix is written.
//!
//! Tests: `report_tests`, with devices that transfer a few bytes at a time and fail in mid-stream.
#![tactic(auto)]

mod device;

pub use device::{
    DeviceFailed, FromRead, FromWrite, Sink, Source, fill, read_all, write_all, write_texts,
};
