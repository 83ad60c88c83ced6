// A line that is made in memory.
use qs_base::NoMemory;
use qs_ports::{Sink, SinkFault};
use std::alloc::Global;

/// The bytes of a line so far. Like a sink it fails where no memory is found.
#[derive(Drop)]
pub struct Taking {
    pub bytes: Vec<u8>,
    pub faults: u64,
    pub failed: bool,
}

impl Taking {
    ghost use Rattle.std.specs.Prelude.{◌≡◌, [], IfOk, Ok};
    ghost use Rattle.qs_report.specs.Taking.{taking_view};

    /// No bytes.
    pub fn new(alloc: Global) -> Taking
        ensures { (taking_view result).written ≡ [] }
    {
        Taking {
            bytes: Vec::new(alloc),
            faults: 0,
            failed: false,
        }
    }

    /// The bytes of the line, where all of it was put.
    pub fn line(self, put: Result<(), SinkFault>) -> Result<Vec<u8>, NoMemory>
        ensures bytes { IfOk result (λ line. line.items ≡ (taking_view self).written) }
        ensures put { IfOk result (λ _. put ≡ Ok tt) }
    {
        match put {
            Ok(()) => Ok(self.bytes),
            Err(_) => Err(NoMemory),
        }
    }
}

impl Sink for Taking {
    ghost use Rattle.qs_ports.specs.SinkView.{Puts};
    ghost use Rattle.qs_report.specs.Taking.{taking_view};

    ghost view = { taking_view };

    fn put(&mut self, piece: &[u8]) -> Result<usize, SinkFault>
        ensures { Puts (taking_view self.old) (taking_view self.new) piece.now result }
    {
        self.failed = self.bytes.reserve_exact(piece.len()).is_err();
        if self.failed {
            self.faults = self.faults.saturating_add(1);
            return Err(SinkFault);
        }
        self.bytes.extend_from_slice(piece).unwrap();
        Ok(piece.len())
    }
}
