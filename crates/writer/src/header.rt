// The 44 bytes before the provider name (004 2.3.4.5 and 2.3.2).
ghost use Rattle.std.specs.Prelude.{◌≡◌, ℕ, ◌≤◌, length};
ghost use mathlib.Core.List.{List, flat_map};
ghost use Rattle.octets.specs.Octets.{le_bytes};
ghost use Rattle.descriptor.specs.Info.{alg_id_of};
ghost use Rattle.descriptor.specs.LaidOut as LaidOut;
ghost use Rattle.writer.specs.Written as Written;

use descriptor::BitCount;

// fCryptoAPI and fAES (004 2.3.1).
const FLAGS: u32 = 0x24;

// Each number in four bytes.
fn numbers(ns: [u32; 10]) -> [u8; 40]
    ensures { result ≡ flat_map (le_bytes 4) ns }
{
    let mut b = [0; 40];
    for (i, n) in ns.iter().enumerate() {
        octets::put_le32(&mut b, 4 * i, *n);
    }
    b
}

// Version 3.2, Flags and HeaderSize, then the numbers of EncryptionHeader, for the AlgID of a key size and a name of so many bytes.
#[tactic(auto, unfolding(crate::specs::Written::name_limit), using(crate::proofs::Laid::front_laid))]
pub fn front(bits: BitCount, alg_id: u32, name: usize) -> [u8; 44]
    requires { (alg_id ≡ alg_id_of bits.0) × (name ≤ Written.name_limit) }
    ensures { (k n salt v filling : List ℕ) → length n ≡ name → result ≡ LaidOut.front (Written.new_fields bits.0 k n salt v filling) }
{
    let fields = [
        FLAGS,
        // HeaderSize
        32 + name as u32,
        FLAGS,
        // SizeExtra
        0,
        alg_id,
        // AlgIDHash: SHA-1
        0x8004,
        bits.0,
        // ProviderType: AES
        24,
        // Reserved1 and Reserved2
        0,
        0,
    ];
    let mut b = [0; 44];
    octets::put_le16(&mut b, 0, 3);
    octets::put_le16(&mut b, 2, 2);
    octets::copy(&numbers(fields), 0, 40, &mut b, 4);
    b
}
