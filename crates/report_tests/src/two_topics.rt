//! The two topics of these tests, and options with them.

ghost use Rattle.std.specs.Prelude.{◌≡◌, IfOk};
ghost use Rattle.ingest.specs.Reports.{AreInRange};
ghost use Rattle.partitioner.specs.Topic.{AreTopics};

use crate::options;
use command_line::Options;
use group_machine::Name;
use lane_words::Memory;
use partitioner::Topic;
use std::alloc::Global;
use std::process::Abort;

/// A topic of this name, which must be valid, with this many partitions.
pub fn topic(rt: &impl Abort, name: &[u8], partitions: u32) -> Topic
    ensures { result ≡ record { name = name.now; partitions = partitions } }
{
    let name = Name::new(name).expect(rt, "a name");
    Topic { name, partitions }
}

/// The topics a with two partitions and b with three.
fn a_and_b(rt: &impl Abort) -> [Topic; 2]
    ensures { AreTopics result }
{
    [topic(rt, b"a", 2), topic(rt, b"b", 3)]
}

/// Options with these topics.
pub fn options_of_two(rt: &impl Abort, alloc: Global) -> Result<Options, Memory>
    ensures { IfOk result AreInRange }
{
    let topics = Vec::from_array(alloc, a_and_b(rt))?;
    let mut options = options(alloc, 1);
    options.topics = topics;
    Ok(options)
}
