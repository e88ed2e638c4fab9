ghost use Rattle.std.specs.Prelude.{◌≡◌};
ghost use Rattle.cluster_play.specs.Language.{told_at};

use crate::next::treat;
use crate::playing::ClusterPlay;
use cluster_run::ClusterFault;
use group_cluster::LayoutField;
use scenario_play::{Count, Status, Subject};
use std::alloc::Global;

impl Subject for ClusterPlay {
    ghost use Rattle.cluster_run.specs.Playing.{ClusterTurn};
    ghost use Rattle.cluster_play.specs.Doing.{cluster_script, cluster_told};

    type Fault = ClusterFault;

    ghost Turn = { ClusterTurn };

    ghost script = { cluster_script };

    fn treat(
        subject: &mut Option<ClusterPlay>,
        alloc: Global,
        _number: u64,
        line: &[u8],
    ) -> Result<Option<Vec<u8>>, ClusterFault> {
        treat(alloc, subject, line)
    }

    fn told(fault: ClusterFault, number: u64) -> Status {
        status_of(fault, number)
    }

    ghost tells = { cluster_told };
}

/// What is told of a line of this number that is refused.
fn status_of(fault: ClusterFault, number: u64) -> Status
    ensures { result ≡ told_at number fault }
{
    match fault {
        ClusterFault::BadLine => Status::BadLine(number),
        ClusterFault::BadLayout(LayoutField::Groups) => Status::BadCount(Count::Groups),
        ClusterFault::BadLayout(LayoutField::Nodes) => Status::BadCount(Count::Nodes),
        ClusterFault::BadLayout(LayoutField::Shape(field)) => Status::BadShape(field),
        ClusterFault::Want => Status::Want,
    }
}
