// What the test programs open and seal: an EncryptionInfo for each key size, with the usual provider name, the password "password"
// and the verifier of 000 8.4. Test data, of which nothing is promised.

#![tactic(auto)]

ghost use Rattle.std.specs.Prelude.{◌+◌, ◌≤◌};

// "password", in 16-bit units.
pub static PASSWORD: [u16; 8] = [0x70, 0x61, 0x73, 0x73, 0x77, 0x6f, 0x72, 0x64];

// 00 to 0f, rising.
pub fn rising() -> [u8; 16] {
    *b"\x00\x01\x02\x03\x04\x05\x06\x07\x08\x09\x0a\x0b\x0c\x0d\x0e\x0f"
}

// 00 to ff by steps of 11, the salt of 000 8.1.
pub fn stepping() -> [u8; 16] {
    *b"\x00\x11\x22\x33\x44\x55\x66\x77\x88\x99\xaa\xbb\xcc\xdd\xee\xff"
}

// HeaderSize 140, a name of 108 bytes, 224 bytes in all; salt, verifier and hash not yet there.
fn frame(alg: u32, bits: u32) -> [u8; 224] {
    let mut s = [0u8; 224];
    octets::put_le16(&mut s, 0, 3);
    octets::put_le16(&mut s, 2, 2);
    octets::put_le32(&mut s, 4, 0x24);
    octets::put_le32(&mut s, 8, 140);
    octets::put_le32(&mut s, 12, 0x24);
    octets::put_le32(&mut s, 20, alg);
    octets::put_le32(&mut s, 24, 0x8004);
    octets::put_le32(&mut s, 28, bits);
    octets::put_le32(&mut s, 32, 24);
    octets::put_le32(&mut s, 152, 16);
    octets::put_le32(&mut s, 188, 20);
    name(&mut s);
    s
}

// The provider name's letters, two bytes each.
fn name(s: &mut [u8; 224]) {
    let letters = b"Microsoft Enhanced RSA and AES Cryptographic Provider";
    for (i, letter) in letters.iter().enumerate() {
        s[44 + 2 * i] = *letter;
    }
}

// A stream with other bytes at a place.
pub fn with<const N: usize>(s: [u8; 224], at: usize, part: [u8; N]) -> [u8; 224]
    requires { at + N ≤ 224 }
{
    let mut t = s;
    octets::copy(&part, 0, N, &mut t, at);
    t
}

// All of it.
fn info(alg: u32, bits: u32, salt: [u8; 16], verifier: [u8; 16], hash: [u8; 32]) -> [u8; 224] {
    let s = with(frame(alg, bits), 156, salt);
    with(with(s, 172, verifier), 192, hash)
}

// AES-128: the salt, and so the key, of 000 8.1.
pub fn info_128() -> [u8; 224] {
    info(
        0x660e,
        128,
        stepping(),
        *b"\x75\x43\x48\x67\x80\x88\x47\xa6\x12\xa9\xad\xb6\x79\x53\x0a\x73",
        *b"\xab\x84\xec\x5b\xea\x96\xf5\xbf\x89\x36\x4b\xf7\x76\xac\xcc\x55\x8e\x1f\xb1\x01\x63\xf5\x64\x31\x7d\xbb\xea\x6c\x36\x58\xe9\x3d",
    )
}

// AES-192: its key is the first 24 bytes of the next one's.
pub fn info_192() -> [u8; 224] {
    info(
        0x660f,
        192,
        rising(),
        *b"\xde\xe1\xa1\xd2\xc1\x4b\x61\x28\x86\x44\x42\x92\x60\x71\xb1\x62",
        *b"\x07\x55\x6c\x93\x55\x91\x93\x20\x54\xa9\x04\x25\x76\xd1\xa7\x94\xa9\xb8\xe9\xa0\x6d\x50\x7b\x73\x9d\xc1\x11\xf9\xaf\x00\x07\x99",
    )
}

// AES-256: 000 8.4 itself.
pub fn info_256() -> [u8; 224] {
    info(
        0x6610,
        256,
        rising(),
        *b"\x25\x89\xae\xbb\x86\x0b\x8a\x41\xfa\x69\x0e\x76\xed\x56\xb0\xbe",
        *b"\xde\xdd\xb6\xb2\x9f\x9c\xd3\x82\xa0\xa2\x04\xa5\x1b\x7f\xdf\x7e\xb1\x23\x3f\x14\xfe\x5c\x99\xd9\x6f\x5d\xe4\xdb\x08\x3d\x92\x5e",
    )
}

// The first n bytes, or all where there are not so many.
pub fn front(s: &[u8], n: usize) -> &[u8] {
    &s[..n.min(s.len())]
}

// Byte i is i modulo 251.
pub fn pattern<const N: usize>() -> [u8; N] {
    std::array::from_fn(|i| (i % 251) as u8)
}
