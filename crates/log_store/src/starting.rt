// Why a store can't be started.
ghost use Rattle.std.specs.Prelude.{◌≡◌};
ghost use Rattle.log_store.specs.Starts.{cause_of, disk_of};

use object_store::ClusterFault;

/// Why no store was started. The disk is given back.
#[derive(Debug, Drop)]
pub enum StartFault<D> {
    /// The file stands for no history, from this place on.
    Damaged { at: u64, disk: D },
    Failed { disk: D },
    Memory { disk: D },
}

// The fault with the disk.
pub(crate) fn with_disk<D>(fault: ClusterFault, disk: D) -> StartFault<D>
    ensures cause { cause_of result ≡ fault }
    ensures disk { disk_of result ≡ disk }
{
    match fault {
        ClusterFault::Damaged { at } => StartFault::Damaged { at, disk },
        ClusterFault::Failed => StartFault::Failed { disk },
        ClusterFault::Memory => StartFault::Memory { disk },
    }
}
