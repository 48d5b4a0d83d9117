//! The handle of a cluster. Each of its functions but `drop` is proved by hand; only `access.rt`
//! calls them.

ghost use Rattle.std.specs.Prelude.{◌≡◌, false, true, MatchOption};
ghost use Rattle.group_machine.specs.Cluster.{ClusterState};
ghost use Rattle.raw_box.specs.Owned.{is_none_at};

use group_machine::Cluster;
use raw_box::RawBox;
use std::alloc::Global;
use std::marker::Model;
use std::ptr::null_mut;

/// A cluster, or none, as C holds it: one pointer, since `Global` takes no bytes. C keeps it as a
/// call left it, and in one place.
#[repr(C)]
pub struct ClusterHandle {
    /// Where the cluster is, or null.
    at: *mut u8,
    /// What its block was allocated from.
    alloc: Global,
    /// The cluster.
    ghost state: { ClusterState },
}

impl Model for ClusterHandle {
    ghost use Rattle.group_machine.specs.contracts.cluster.Cluster.{the_row as cluster};
    ghost use Rattle.raw_box.specs.Owned.{owned};

    ghost also_owns = { λ h. owned cluster h.alloc h.at h.state };
}

// C may pass a handle to another thread, which then makes the calls, one at a time.
unsafe impl Send for ClusterHandle {}

impl Drop for ClusterHandle {
    fn drop(self) {
        if let Some(raw) = self.into_raw() {
            drop(raw.into_box());
        }
    }
}

impl ClusterHandle {
    /// A handle with this cluster.
    pub fn of(raw: RawBox<Cluster, Global>) -> ClusterHandle
        ensures { (is_none_at result.at ≡ false) × (result.state ≡ raw.value) }
    {
        let RawBox { at, alloc } = raw;
        ClusterHandle {
            at: at as *mut u8,
            alloc,
        }
    }

    /// The cluster, if there is one.
    pub fn into_raw(self) -> Option<RawBox<Cluster, Global>>
        ensures { MatchOption result (is_none_at self.at ≡ true)
            (λ raw. (is_none_at self.at ≡ false) × (raw.value ≡ self.state)) }
    {
        let ClusterHandle { at, alloc } = self;
        if at.is_null() {
            None
        } else {
            Some(RawBox {
                at: at as *mut Cluster,
                alloc,
            })
        }
    }

    /// A handle without a cluster.
    pub fn none(alloc: Global) -> ClusterHandle
        ensures { is_none_at result.at ≡ true }
    {
        ClusterHandle {
            at: null_mut(),
            alloc,
        }
    }
}
