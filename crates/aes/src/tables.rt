// The substitution tables and the round constants (FIPS 197 5.1.1, 5.3.2, 5.2).
//
// A constant table that is indexed where it stands is laid anew at every look-up: copy it into a local once and lend that.
ghost use Rattle.std.specs.Prelude.{◌≡◌, ◌<◌, ◌≤◌};
ghost use Rattle.fips197.specs.Tables as Tables;

mod forward;
mod inverse;

pub use forward::SBOX;
pub use inverse::INV_SBOX;

// The powers of x that the key expansion adds.
const ROUND_CONSTANTS: [u8; 10] = [0x01, 0x02, 0x04, 0x08, 0x10, 0x20, 0x40, 0x80, 0x1b, 0x36];

// The constant of round j.
pub(crate) fn round_constant(j: usize) -> u8
    requires { (0 < j) × (j ≤ 10) }
    ensures { result ≡ Tables.round_constant j }
{
    ROUND_CONSTANTS[j - 1]
}
