// The output of a run, kept in memory.
use qs_ports::{Sink, SinkFault};
use std::alloc::Global;

/// A sink that keeps the bytes that are put. It fails where no memory is found for them.
#[derive(Drop)]
pub struct KeptOutput {
    pub bytes: Vec<u8>,
    pub faults: u64,
    pub failed: bool,
}

impl KeptOutput {
    ghost use Rattle.std.specs.Prelude.{◌≡◌, []};

    /// No bytes.
    pub fn new(alloc: Global) -> KeptOutput
        ensures { result.bytes.items ≡ [] }
    {
        KeptOutput {
            bytes: Vec::new(alloc),
            faults: 0,
            failed: false,
        }
    }
}

impl Sink for KeptOutput {
    ghost use Rattle.qs_ports.specs.SinkView.{Puts};
    ghost use Rattle.qs_driver_session.specs.KeptOutput.{kept_view};

    ghost view = { kept_view };

    fn put(&mut self, piece: &[u8]) -> Result<usize, SinkFault>
        ensures { Puts (kept_view self.old) (kept_view self.new) piece.now result }
    {
        self.failed = self.bytes.reserve(piece.len()).is_err();
        if self.failed {
            self.faults = self.faults.saturating_add(1);
            return Err(SinkFault);
        }
        self.bytes.extend_from_slice(piece).unwrap();
        Ok(piece.len())
    }
}
