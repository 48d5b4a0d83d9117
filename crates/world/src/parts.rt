//! The parts of a world, and the events on them.

ghost use Rattle.std.specs.Prelude.{◌≡◌, ◌<◌, ◌≤◌, ◌++◌, ◌∷◌, [], ℕ, suc, length, map, zip, IfOk, IfErr, OnOk};
ghost use Rattle.std.specs.Vec.{vec_capacity, vec_len};
ghost use Rattle.partitioner.specs.Place.{AreTopics};
ghost use Rattle.partition_log.specs.Appends.{lent};
ghost use Rattle.partition_log.specs.Keys.{of_first};
ghost use Rattle.consumer.specs.Consumer.{joined_as, out_of_group};
ghost use Rattle.world.specs.World.{WorldState};
ghost use Rattle.world.specs.Steps.{Comes, MayCome, Step, append_event, append_in_event, deliver_event, deliver_unanswered_event, join_event, join_kept_event, leave_event, lose_event, poll_event, refused_by_cluster, rejoin_event, send_event, sync_event, take_over_event};
ghost use Rattle.world.specs.Runs.{AppendsRecords, Loads, appends_in, appends_of};
ghost use Rattle.world.specs.Valid.{IsValidWorld};
ghost use Rattle.world.specs.Private.Loading.{ArePlaced, LoadsPlaced};
ghost use Rattle.world.specs.Private.Lookups.{IsAsking, IsIndexOf, IsNotAsking};
ghost use Rattle.world.specs.Private.View.{world_view};

use crate::event::{Event, MOST_COMMITS, Reply};
use consumer::Consumer;
use group_machine::{Cluster, Commit, Name};
use lane_words::{MOST_PARTITIONS, Memory, Refusal};
use std::alloc::Global;
use std::thread::Threads;

/// The parts of a world.
#[derive(Drop)]
pub struct Parts {
    pub cluster: Cluster,
    /// By member number: that of member m stands at index m - 1.
    pub consumers: Vec<Consumer>,
    /// By number: commit k stands at index k - 1.
    pub mail: Vec<Commit>,
}

impl Parts {
    /// Makes one event, and returns the reply to it.
    pub fn step(&mut self, alloc: Global, event: Event) -> Reply
        requires { IsValidWorld (world_view self.old) }
        ensures { Step (world_view self.old) event.entry result (world_view self.new) }
    {
        match event {
            Event::Append(key) => self.append(key),
            Event::AppendIn(topic, key) => self.append_in(topic, key),
            Event::Join(name) => self.join(alloc, name),
            Event::JoinKept(name) => self.join_kept(alloc, name),
            Event::TakeOver(name) => self.take_over(alloc, name),
            Event::Sync(member) => self.sync(member),
            Event::Rejoin(member) => self.rejoin(member),
            Event::Leave(member) => self.leave(member),
            Event::Lose(member) => self.lose(member),
            Event::Poll {
                member,
                partition,
                records,
            } => self.poll(member, partition, records),
            Event::Send { member, partition } => self.send(member, partition),
            Event::Deliver(number) => self.deliver(number),
            Event::DeliverUnanswered(number) => self.deliver_unanswered(number),
        }
    }

    /// Appends a record of each key to the first topic, in order, until one is refused.
    pub fn load<R: Threads + Sync>(&mut self, rt: &R, keys: &[&[u8]]) -> Result<(), (u64, Refusal)>
        requires { IsValidWorld (world_view self.old) }
        ensures step { Loads (world_view self.old) (appends_of keys.now) result
            (world_view self.new) }
        ensures history { OnOk result (AppendsRecords (map (λ key. of_first key.now) keys.now)
            (world_view self.old) (world_view self.new)) }
        ensures valid { IsValidWorld (world_view self.new) }
    {
        let Ok(places) = self.cluster.logs().places_of(rt, keys) else {
            return Err((0, Refusal::Memory));
        };
        self.append_placed(keys, &places)
    }

    /// Like `load`, with the index of a topic for each key.
    pub fn load_in<R: Threads + Sync>(
        &mut self,
        rt: &R,
        topics: &[u8],
        keys: &[&[u8]],
    ) -> Result<(), (u64, Refusal)>
        requires topics { AreTopics (length self.old.cluster.logs.counts) (length keys.now)
            topics.now }
        requires valid { IsValidWorld (world_view self.old) }
        ensures step { Loads (world_view self.old) (appends_in topics.now keys.now) result
            (world_view self.new) }
        ensures history { OnOk result (AppendsRecords (zip topics.now (lent keys.now))
            (world_view self.old) (world_view self.new)) }
        ensures valid { IsValidWorld (world_view self.new) }
    {
        let Ok(places) = self.cluster.logs().places_of_in(rt, topics, keys) else {
            return Err((0, Refusal::Memory));
        };
        self.append_placed(keys, &places)
    }

    /// Appends a record of each key to its partition, in order, until one is refused.
    fn append_placed(&mut self, keys: &[&[u8]], places: &[u32]) -> Result<(), (u64, Refusal)>
        requires partitions { ArePlaced self.old.cluster.logs places.now keys.now }
        requires valid { IsValidWorld (world_view self.old) }
        ensures step { LoadsPlaced (world_view self.old) places.now keys.now result
            (world_view self.new) }
        ensures valid { IsValidWorld (world_view self.new) }
    {
        for i in 0..keys.len() {
            if let Err(why) = self.cluster.append_at(places[i], keys[i]) {
                return Err((i as u64, why));
            }
        }
        Ok(())
    }

    fn append(&mut self, key: &[u8]) -> Reply
        ensures { MayCome (world_view self.old)
            (append_event (world_view self.old) (of_first key.now)) result (world_view self.new) }
    {
        match self.cluster.append(key) {
            Ok((partition, offset)) => return Reply::Appended(partition, offset),
            Err(why) => return Reply::Refused(why),
        }
    }

    fn append_in(&mut self, topic: u32, key: &[u8]) -> Reply
        ensures { MayCome (world_view self.old)
            (append_in_event (world_view self.old) (topic, key.now)) result (world_view self.new) }
    {
        if topic as usize >= self.cluster.topics() {
            return Reply::Refused(Refusal::NoSuchTopic { nth: 0 });
        }
        match self.cluster.append_in(topic as u8, key) {
            Ok((partition, offset)) => return Reply::Appended(partition, offset),
            Err(why) => return Reply::Refused(why),
        }
    }

    // Plan, then apply: all memory is reserved before the cluster changes. So are the next two.
    fn join(&mut self, alloc: Global, name: &Name) -> Reply
        ensures { MayCome (world_view self.old) (join_event (world_view self.old) name.now) result
            (world_view self.new) }
    {
        let partitions = self.cluster.partitions();
        let Ok(consumer) = new_consumer(&mut self.consumers, alloc, partitions) else {
            return Reply::Refused(Refusal::Memory);
        };
        match self.cluster.join(name.copy()) {
            Ok(member) => {
                enter(&mut self.consumers, consumer, member);
                return Reply::Joined(member);
            }
            Err(why) => return Reply::Refused(why),
        }
    }

    fn join_kept(&mut self, alloc: Global, name: &Name) -> Reply
        ensures { MayCome (world_view self.old) (join_kept_event (world_view self.old) name.now)
            result (world_view self.new) }
    {
        let partitions = self.cluster.partitions();
        let Ok(consumer) = new_consumer(&mut self.consumers, alloc, partitions) else {
            return Reply::Refused(Refusal::Memory);
        };
        match self.cluster.join_kept(name.copy()) {
            Ok(member) => {
                enter(&mut self.consumers, consumer, member);
                return Reply::Joined(member);
            }
            Err(why) => return Reply::Refused(why),
        }
    }

    fn take_over(&mut self, alloc: Global, name: &Name) -> Reply
        ensures { MayCome (world_view self.old) (take_over_event (world_view self.old) name.now)
            result (world_view self.new) }
    {
        let partitions = self.cluster.partitions();
        let Ok(consumer) = new_consumer(&mut self.consumers, alloc, partitions) else {
            return Reply::Refused(Refusal::Memory);
        };
        match self.cluster.take_over(name) {
            Ok(member) => {
                enter(&mut self.consumers, consumer, member);
                return Reply::TakenOver(member);
            }
            Err(why) => return Reply::Refused(why),
        }
    }

    fn sync(&mut self, member: u32) -> Reply
        requires { IsValidWorld (world_view self.old) }
        ensures { MayCome (world_view self.old) (sync_event (world_view self.old) member) result
            (world_view self.new) }
    {
        let index = match self.asking(member) {
            Ok(index) => index,
            Err(why) => return Reply::Refused(why),
        };
        match self.cluster.sync(member) {
            Ok(lease) => {
                self.consumers[index].take_lease(&lease);
                return Reply::Leased(lease.generation());
            }
            Err(why) => return self.refuse(index, why),
        }
    }

    fn rejoin(&mut self, member: u32) -> Reply
        ensures { MayCome (world_view self.old) (rejoin_event (world_view self.old) member) result
            (world_view self.new) }
    {
        let index = match self.asking(member) {
            Ok(index) => index,
            Err(why) => return Reply::Refused(why),
        };
        let consumer = &mut self.consumers[index];
        match self
            .cluster
            .rejoin(member, consumer.generation(), &consumer.claim())
        {
            Ok(()) => {
                consumer.give_up();
                return Reply::Rejoined;
            }
            Err(why) => return self.refuse(index, why),
        }
    }

    fn leave(&mut self, member: u32) -> Reply
        ensures { MayCome (world_view self.old) (leave_event (world_view self.old) member) result
            (world_view self.new) }
    {
        let index = match self.asking(member) {
            Ok(index) => index,
            Err(why) => return Reply::Refused(why),
        };
        match self.cluster.leave(member) {
            Ok(()) => {
                self.consumers[index].drop_all();
                return Reply::Left;
            }
            Err(why) => return self.refuse(index, why),
        }
    }

    fn lose(&mut self, member: u32) -> Reply
        ensures { MayCome (world_view self.old) (lose_event (world_view self.old) member) result
            (world_view self.new) }
    {
        match self.cluster.lose(member) {
            Ok(()) => return Reply::Lost,
            Err(why) => return Reply::Refused(why),
        }
    }

    fn poll(&mut self, member: u32, partition: u32, records: u32) -> Reply
        requires { IsValidWorld (world_view self.old) }
        ensures { Comes (poll_event (world_view self.old) member partition records) result
            (world_view self.new) }
    {
        let Some(index) = index_of(member, self.consumers.len()) else {
            return Reply::Refused(Refusal::UnknownMember);
        };
        match self.consumers[index].poll(self.cluster.logs(), partition, records) {
            Ok(count) => return Reply::Polled(count),
            Err(why) => return Reply::Refused(why),
        }
    }

    fn send(&mut self, member: u32, partition: u32) -> Reply
        requires { IsValidWorld (world_view self.old) }
        ensures { MayCome (world_view self.old) (send_event (world_view self.old) member partition)
            result (world_view self.new) }
    {
        let Some(index) = index_of(member, self.consumers.len()) else {
            return Reply::Refused(Refusal::UnknownMember);
        };
        let consumer = &self.consumers[index];
        if let Err(why) = consumer.sendable(partition) {
            return Reply::Refused(why);
        }
        if self.mail.len() >= MOST_COMMITS {
            return Reply::Refused(Refusal::MailFull);
        }
        if self.mail.reserve(1).is_err() {
            return Reply::Refused(Refusal::Memory);
        }
        match consumer.send(self.cluster.logs(), partition) {
            Ok(commit) => {
                self.mail.push_reserved(commit);
                return Reply::Sent(self.mail.len() as u32);
            }
            Err(why) => return Reply::Refused(why),
        }
    }

    fn deliver(&mut self, number: u32) -> Reply
        ensures { Comes (deliver_event (world_view self.old) number) result (world_view self.new) }
    {
        let Some(index) = index_of(number, self.mail.len()) else {
            return Reply::Refused(Refusal::NoSuchCommit);
        };
        let commit = &self.mail[index];
        let answer = self.cluster.commit(commit);
        if let Some(index) = index_of(commit.member(), self.consumers.len()) {
            self.consumers[index].answered(commit.partition(), answer);
        }
        match answer {
            Ok(offset) => return Reply::Committed(offset),
            Err(why) => return Reply::Refused(why),
        }
    }

    fn deliver_unanswered(&mut self, number: u32) -> Reply
        ensures { Comes (deliver_unanswered_event (world_view self.old) number) result
            (world_view self.new) }
    {
        let Some(index) = index_of(number, self.mail.len()) else {
            return Reply::Refused(Refusal::NoSuchCommit);
        };
        let _ = self.cluster.commit(&self.mail[index]);
        Reply::Unanswered
    }

    /// The index of a member's consumer, if there is one and it is in the group.
    fn asking(&self, member: u32) -> Result<usize, Refusal>
        ensures value { IfOk result (IsAsking (world_view self.now) member) }
        ensures fault { IfErr result (IsNotAsking (world_view self.now) member) }
    {
        let Some(index) = index_of(member, self.consumers.len()) else {
            return Err(Refusal::UnknownMember);
        };
        if self.consumers[index].member().is_none() {
            return Err(Refusal::OutOfGroup);
        }
        Ok(index)
    }

    /// Passes the cluster's refusal on to the consumer that made the request. A consumer whose
    /// member is unknown leaves the group.
    fn refuse(&mut self, index: usize, why: Refusal) -> Reply
        requires { index < length (world_view self.old).consumers }
        ensures { Comes (refused_by_cluster (world_view self.old) (suc index) why) result
            (world_view self.new) }
    {
        if why == Refusal::UnknownMember {
            self.consumers[index].drop_all();
        }
        Reply::Refused(why)
    }
}

/// A consumer for a new member, with capacity for it at the end of `consumers`.
fn new_consumer(
    consumers: &mut Vec<Consumer>,
    alloc: Global,
    partitions: u32,
) -> Result<Consumer, Memory>
    requires { (1 ≤ partitions) × (partitions ≤ MOST_PARTITIONS) }
    ensures value { IfOk result (λ consumer. consumer ≡ out_of_group partitions) }
    ensures capacity { OnOk result (vec_len consumers.new < vec_capacity consumers.new) }
    ensures same { consumers.new.items ≡ consumers.old.items }
{
    consumers.reserve(1)?;
    Consumer::new(alloc, partitions)
}

/// Adds the consumer of a member that has joined. The capacity for it is there.
fn enter(consumers: &mut Vec<Consumer>, mut consumer: Consumer, member: u32)
    requires { vec_len consumers.old < vec_capacity consumers.old }
    ensures { consumers.new.items ≡ consumers.old.items ++ joined_as consumer member ∷ [] }
{
    consumer.joined(member);
    consumers.push_reserved(consumer);
}

/// The index of item `number`, counted from 1, of `count` items.
pub fn index_of(number: u32, count: usize) -> Option<usize>
    ensures { IsIndexOf number count result }
{
    if number == 0 || number as usize > count {
        return None;
    }
    Some(number as usize - 1)
}
