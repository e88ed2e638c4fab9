use crate::pipe::PipeFault;
use link_frames::{Frame, Hello, NameSet};

/// What the first frame of a stream says.
#[derive(Clone, Copy, Debug, PartialEq, Eq)]
pub(crate) enum Heard {
    /// No whole frame is there yet.
    Nothing,
    /// Its sender greets.
    Hello(Hello),
    /// Its sender has cut these.
    Said(NameSet),
    /// Something else.
    Other,
    /// The stream ended or broke.
    Broken,
}

impl Heard {
    /// What was read says this.
    pub(crate) fn of(next: Result<Option<Frame>, PipeFault>) -> Heard {
        match next {
            Ok(Some(frame)) => Heard::of_frame(&frame),
            Ok(None) => Heard::Nothing,
            Err(PipeFault::Want) => Heard::Nothing,
            Err(PipeFault::BadFrame) => Heard::Other,
            Err(PipeFault::Broken) => Heard::Broken,
        }
    }

    fn of_frame(frame: &Frame) -> Heard {
        match frame {
            Frame::Hello(hello) => Heard::Hello(*hello),
            Frame::Said(names) => Heard::Said(*names),
            _ => Heard::Other,
        }
    }
}
