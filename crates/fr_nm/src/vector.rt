ghost use Rattle.std.specs.Prelude.{◌≡◌, ◌≤◌, length};
ghost use Rattle.fr_nm.specs.Vectors.{or_bytes, placed};

/// The frames of a cycle that count.
#[derive(Clone, Copy, Debug, PartialEq, Eq)]
pub struct Folded {
    /// The vector in twelve places, zeros behind its bytes.
    pub vector: [u8; 12],
    /// How many frames.
    pub frames: u64,
}

// The first bytes of a payload in twelve places, zeros behind them.
pub(crate) fn placed(width: usize, payload: &[u8]) -> [u8; 12]
    requires fits { width ≤ 12 }
    requires enough { width ≤ length payload.now }
    ensures { result ≡ placed width payload.now }
{
    let mut vector = [0; 12];
    vector[..width].copy_from_slice(&payload[..width]);
    vector
}

// Byte by byte the bitwise OR of two vectors.
pub(crate) fn or_bytes(one: [u8; 12], other: [u8; 12]) -> [u8; 12]
    ensures { result ≡ or_bytes one other }
{
    [
        one[0] | other[0],
        one[1] | other[1],
        one[2] | other[2],
        one[3] | other[3],
        one[4] | other[4],
        one[5] | other[5],
        one[6] | other[6],
        one[7] | other[7],
        one[8] | other[8],
        one[9] | other[9],
        one[10] | other[10],
        one[11] | other[11],
    ]
}
