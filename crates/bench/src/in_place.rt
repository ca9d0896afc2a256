// The bare block loops: a buffer's blocks one after the other, in place.

// Each whole block of s through f.
pub fn each<F: Fn([u8; 16]) -> [u8; 16]>(s: &mut [u8], f: F)
    requires { F.IsAlwaysCallable f }
{
    let (blocks, _) = s.as_chunks_mut::<16>();
    for block in blocks {
        let b = f(*block);
        *block = b;
    }
}
