// Doubling in the field of AES (FIPS 197 4.2). MixColumns needs the products by 1, 2 and 3, which are sums of a byte and its double;
// those of InvMixColumns are looked up (`shares`).
ghost use Rattle.std.specs.Prelude.{◌≡◌};
ghost use Rattle.fips197.specs.Field as Field;

// x times a: where the highest bit falls out, 0x1b comes in.
#[tactic(auto, unfolding(fips197::specs::Field::double, fips197::specs::Field::xor))]
pub fn double(a: u8) -> u8
    ensures { result ≡ Field.double a }
{
    (a << 1) ^ ((a >> 7) * 0x1b)
}
