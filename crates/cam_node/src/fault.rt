// Why a node fails.
ghost use Rattle.std.specs.Prelude.{◌≡◌};
ghost use Rattle.cam_node.specs.declared.fault.NodeFault.TheVariants.{NoMemory as OutOfMemory};
ghost use Rattle.cam_node.specs.Faults.{fault_of};

use cam_base::NoMemory;
use cam_log::LogFault;
use thiserror::Error;

/// Why a call of a node failed.
#[derive(Clone, Copy, Debug, PartialEq, Eq, Error)]
pub enum NodeFault {
    /// The node's disk failed, and its count of faults rose; or a restart read what cannot be
    /// restarted, as a count that is the last. A node in whose step or restart it comes is halted.
    #[error("the disk failed")]
    DiskFault,
    /// Out of memory. The node is halted where its disk had none, and where it comes of a restart.
    #[error("out of memory")]
    NoMemory,
}

impl From<LogFault> for NodeFault {
    ghost from_gives = { λ fault given. given ≡ fault_of fault };

    fn from(fault: LogFault) -> NodeFault {
        match fault {
            LogFault::DiskFault | LogFault::NotALog(_) => NodeFault::DiskFault,
            LogFault::NoMemory => NodeFault::NoMemory,
        }
    }
}

impl From<NoMemory> for NodeFault {
    ghost from_gives = { λ _ fault. fault ≡ OutOfMemory };

    fn from(_: NoMemory) -> NodeFault {
        NodeFault::NoMemory
    }
}

/// A disk of which no node was made, and why.
#[derive(Drop)]
pub struct FormatRefused<D> {
    pub fault: NodeFault,
    pub disk: D,
}
