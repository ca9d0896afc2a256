// A descriptor in 88 bytes: its fields one after the other.
ghost use Rattle.std.specs.Prelude.{◌≡◌};
ghost use Rattle.crossing.specs.Crossing as Crossing;

use descriptor::Descriptor;

// The numbers of a descriptor.
#[tactic(auto, using(crate::proofs::Laid::numbers_laid))]
fn numbers(d: Descriptor) -> [u8; 20]
    requires { Crossing.Crosses d }
    ensures { result ≡ Crossing.number_bytes d }
{
    let mut b = [0; 20];
    octets::put_le16(&mut b, 0, d.major);
    octets::put_le16(&mut b, 2, d.minor);
    octets::put_le32(&mut b, 4, d.alg_id);
    octets::put_le32(&mut b, 8, d.key_size.0 as u32);
    octets::put_le32(&mut b, 12, d.name_place as u32);
    octets::put_le32(&mut b, 16, d.name_length as u32);
    b
}

// They, the fields that are bytes, and the scheme.
pub fn descriptor_bytes(d: Descriptor) -> [u8; 88]
    requires { Crossing.Crosses d }
    ensures { result ≡ Crossing.descriptor_bytes d }
{
    let mut b = [0; 88];
    octets::copy(&numbers(d), 0, 20, &mut b, 0);
    octets::copy(&d.salt, 0, 16, &mut b, 20);
    octets::copy(&d.encrypted_verifier, 0, 16, &mut b, 36);
    octets::copy(&d.encrypted_verifier_hash, 0, 32, &mut b, 52);
    octets::put_le32(&mut b, 84, d.scheme as u32);
    b
}
