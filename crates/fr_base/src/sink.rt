ghost use Rattle.fr_base.specs.Device.{Sunk, PutsPiece};

/// Why a piece was not put whole.
#[derive(Clone, Copy, Debug, PartialEq, Eq)]
pub enum PutFault {
    /// The sink failed, and counted it.
    Failed,
}

/// Where text is put.
pub trait Sink {
    /// The bytes put so far and the puts so far, each where the sink tells them, and its count of faults.
    ghost state: { Self → Sunk };

    /// Puts a piece after what was put before. It fails only where the count rose, and then a front of the piece may
    /// have been put. A sink may take memory for what is put, as `KeptText` of `flexray_c` does; want of it is a fault
    /// like another.
    fn put(&mut self, piece: &[u8]) -> Result<(), PutFault>
        ensures { PutsPiece result (state self.old) (state self.new) piece.now };
}
