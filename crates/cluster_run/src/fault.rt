use group_cluster::LayoutField;
use scenario_text::LineFault;
use std::alloc::AllocError;

/// Why a line was refused: it is no line of a script of several groups, it names groups with this field out of range, or
/// there was no memory.
#[derive(Clone, Copy, Debug, PartialEq, Eq)]
pub enum ClusterFault {
    BadLine,
    BadLayout(LayoutField),
    Want,
}

impl From<AllocError> for ClusterFault {
    ghost use Rattle.std.specs.Prelude.{◌≡◌};
    ghost use Rattle.cluster_run.specs.declared.fault.ClusterFault.TheVariants.{Want};

    ghost from_gives = { λ _ fault. fault ≡ Want };

    fn from(_: AllocError) -> ClusterFault {
        ClusterFault::Want
    }
}

/// A group's line names no group: where its shape is out of range it is no line of the script.
impl From<LineFault> for ClusterFault {
    ghost use Rattle.std.specs.Prelude.{◌≡◌};
    ghost use Rattle.cluster_run.specs.Faults.{fault_of};

    ghost from_gives = { λ fault given. given ≡ fault_of fault };

    fn from(fault: LineFault) -> ClusterFault {
        match fault {
            LineFault::BadLine | LineFault::BadShape(_) => ClusterFault::BadLine,
            LineFault::Want => ClusterFault::Want,
        }
    }
}
