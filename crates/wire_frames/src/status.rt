use edge_io::{Failed, SinkFault};
use std::alloc::AllocError;
use wire_codec::DecodeFault;

/// How the reading of a stream of frames ended.
#[derive(Clone, Copy, Debug, PartialEq, Eq)]
pub enum FramesStatus {
    /// The input ended between two frames.
    Done,
    /// The input ended inside a frame.
    Cut,
    /// The frame that begins at this byte of the stream is no spelling.
    BadFrame(u64),
    /// As many bytes were read as a stream may have.
    Worn,
    /// The source counted a fault.
    ReadFault,
    /// The sink counted a fault.
    WriteFault,
    /// There was no memory.
    Want,
}

impl From<AllocError> for FramesStatus {
    ghost use Rattle.std.specs.Prelude.{◌≡◌};
    ghost use Rattle.wire_frames.specs.declared.status.FramesStatus.TheVariants.{Want};

    ghost from_gives = { λ _ status. status ≡ Want };

    fn from(_: AllocError) -> FramesStatus {
        FramesStatus::Want
    }
}

impl From<Failed> for FramesStatus {
    ghost use Rattle.std.specs.Prelude.{◌≡◌};
    ghost use Rattle.wire_frames.specs.declared.status.FramesStatus.TheVariants.{ReadFault};

    ghost from_gives = { λ _ status. status ≡ ReadFault };

    fn from(_: Failed) -> FramesStatus {
        FramesStatus::ReadFault
    }
}

impl From<SinkFault> for FramesStatus {
    ghost use Rattle.std.specs.Prelude.{◌≡◌};
    ghost use Rattle.wire_frames.specs.Faults.{status_of_sink};

    ghost from_gives = { λ fault status. status ≡ status_of_sink fault };

    fn from(fault: SinkFault) -> FramesStatus {
        match fault {
            SinkFault::Failed => FramesStatus::WriteFault,
            SinkFault::Want => FramesStatus::Want,
        }
    }
}

impl From<DecodeFault> for FramesStatus {
    ghost use Rattle.std.specs.Prelude.{◌≡◌};
    ghost use Rattle.wire_frames.specs.Faults.{status_of_decoder};

    ghost from_gives = { λ fault status. status ≡ status_of_decoder fault };

    fn from(fault: DecodeFault) -> FramesStatus {
        match fault {
            DecodeFault::BadFrame { at } => FramesStatus::BadFrame(at),
            DecodeFault::Want => FramesStatus::Want,
        }
    }
}
