//! The cluster behind a handle, taken and put back: what each call begins and ends with.

ghost use Rattle.std.specs.Prelude.{◌≡◌, None, Some, MatchOption};
ghost use Rattle.keycount_c.specs.Held.{cluster_in};

use super::handle::ClusterHandle;
use group_machine::Cluster;
use raw_box::RawBox;
use std::alloc::Global;
use std::mem;

/// Takes the cluster. The handle has none afterwards.
pub fn take(handle: &mut ClusterHandle, alloc: Global) -> Option<Box<Cluster>>
    ensures value { MatchOption result (cluster_in handle.old ≡ None)
        (λ cluster. cluster_in handle.old ≡ Some cluster.value) }
    ensures none { cluster_in handle.new ≡ None }
{
    match mem::replace(handle, ClusterHandle::none(alloc)).into_raw() {
        Some(raw) => Some(raw.into_box()),
        None => None,
    }
}

/// Puts a cluster behind the handle.
pub fn put(handle: &mut ClusterHandle, cluster: Box<Cluster>)
    ensures { cluster_in handle.new ≡ Some cluster.value }
{
    *handle = ClusterHandle::of(RawBox::of(cluster));
}
