//! How often records were read.

ghost use Rattle.std.specs.Prelude.{◌≡◌, IfOk, OnOk};
ghost use Rattle.timeline_recorder.specs.Reads.{lengthened, once_more, read_again, read_again_of, read_at, read_on, times_read, with_mark, with_records};

use lane_words::Memory;
use std::alloc::Global;
use timeline::{Column, Mark, Records};

/// One reading more; 2 says more than once.
fn once_more(times: u8) -> u8
    ensures { result ≡ once_more times }
{
    times.saturating_add(1).min(2)
}

/// Reads the record at an offset once more, if it is there.
fn read_at(times: &mut [u8], offset: usize)
    ensures { times.new ≡ read_at times.old offset }
{
    if offset < times.len() {
        times[offset] = once_more(times[offset]);
    }
}

/// Reads so many records from an offset on once more.
#[tactic(auto, using(crate::proofs::Counting::read_on_more))]
fn read_on(times: &mut [u8], from: u32, count: u32)
    ensures { times.new ≡ read_on count from times.old }
{
    for i in 0..count {
        read_at(times, from as usize + i as usize);
    }
}

/// Adds so many records, which were not read yet.
#[tactic(auto, using(crate::proofs::Counting::lengthened_more))]
fn lengthen(times: &mut Vec<u8>, count: usize) -> Result<(), Memory>
    ensures { OnOk result (times.new.items ≡ lengthened count times.old.items) }
{
    for _i in 0..count {
        times.push(0)?;
    }
    Ok(())
}

/// Reads these records once more.
fn read_records(times: &mut Vec<u8>, records: &Records) -> Result<(), Memory>
    ensures { OnOk result (times.new.items ≡ with_records records.now times.old.items) }
{
    lengthen(times, (records.to as usize).saturating_sub(times.len()))?;
    read_on(times, records.from, records.to.saturating_sub(records.from));
    Ok(())
}

fn read_mark(times: &mut Vec<u8>, partition: usize, mark: &Mark) -> Result<(), Memory>
    ensures { OnOk result (times.new.items ≡ with_mark partition times.old.items mark.now) }
{
    match mark {
        Mark::Poll(records) if records.partition as usize == partition => {
            read_records(times, records)
        }
        _ => Ok(()),
    }
}

/// How often each record of a partition was read.
#[tactic(auto, unfolding(crate::specs::Reads::times_read))]
fn times_read(alloc: Global, partition: usize, columns: &[Column]) -> Result<Vec<u8>, Memory>
    ensures { IfOk result (λ times. times.items ≡ times_read partition columns.now) }
{
    let mut times = Vec::new(alloc);
    for column in columns {
        read_mark(&mut times, partition, &column.mark)?;
    }
    Ok(times)
}

/// How many records of a partition were read more than once.
#[tactic(auto, unfolding(crate::specs::Reads::read_again_of))]
fn read_again_of(alloc: Global, columns: &[Column], partition: usize) -> Result<usize, Memory>
    ensures { IfOk result (λ count. count ≡ read_again_of columns.now partition) }
{
    let times = times_read(alloc, partition, columns)?;
    Ok(times.iter().filter(|times| **times == 2).count())
}

/// How many records of all partitions were read more than once.
#[tactic(auto, using(crate::proofs::Counting::sum_more))]
pub fn read_again(alloc: Global, partitions: usize, columns: &[Column]) -> Result<u128, Memory>
    ensures { IfOk result (λ count. count ≡ read_again partitions columns.now) }
{
    let mut total = 0u128;
    for p in 0..partitions {
        total += read_again_of(alloc, columns, p)? as u128;
    }
    Ok(total)
}
