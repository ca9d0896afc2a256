// Writes the EncryptionInfo stream of a new locked document (request 2026-01; 004 2.3.4.5 and, for its EncryptionVerifier, 2.3.4.8).
//
//     let size = writer::write_info(BitCount(256), password, name, salt, verifier, filling, &mut out)?;
//
// The first `size` bytes of out are then an EncryptionInfo that accepts the password. The call says in full what it leaves, as
// those of `sheet` do: the stream and then zeros to the end of the output, on a refusal the output as it was. The name is written as
// given: who wants a zero unit at its end gives one.
//
// Warning: salt, verifier and filling have to be random, and nothing here can tell whether they are.

#![tactic(auto)]

ghost use Rattle.std.specs.Prelude.{◌≡◌, ◌+◌, ◌≤◌, length, IfOk};
ghost use Rattle.std.proofs.Math.Seq.{paste};
ghost use Rattle.answers.specs.Refusals.{answer_of, reply_of};
ghost use Rattle.answers.specs.Rules.{first_of};
ghost use Rattle.answers.specs.Ended.{left};
ghost use Rattle.descriptor.specs.Info.{alg_id_of};
ghost use Rattle.writer.specs.Written as Written;

mod header;
mod verifier;

use answers::{Refusal, rule};
use derivation::Salted;
use descriptor::BitCount;

// The most bytes of a name.
const NAME_LIMIT: usize = 4064;

// The rules 3, 5, 8, 11 and 16, in order: where they hold the AlgID of the key size. Only a name that is short enough is counted with the
// 116 bytes around it.
#[tactic(auto, unfolding(crate::specs::Written::write_rules, crate::specs::Written::field_rules, crate::specs::Written::name_limit, crate::specs::Written::info_size, password::specs::Verdict::text_rules, answers::specs::Rules::room_rules, answers::specs::Rules::first_of))]
fn answer(bits: BitCount, password: &[u16], name: usize, room: usize) -> Result<u32, Refusal>
    ensures rules { answer_of result ≡ first_of (Written.write_rules bits.0 password.now name room) }
    ensures alg_id { IfOk result (λ alg_id. alg_id ≡ alg_id_of bits.0) }
{
    rule(NAME_LIMIT < name, Refusal::HeaderSize)?;
    rule(name % 2 != 0, Refusal::NameLength)?;
    let alg_id = descriptor::alg_id_of(bits).ok_or(Refusal::KeySize)?;
    password::text_answer(password)?;
    answers::room_answer(room, 116 + name)?;
    Ok(alg_id)
}

// The name as it is given, behind the 44 bytes before it. A loop: as a copy out of one lent slice into another, of any length, it would call
// memmove, and the archive calls memcpy and memset alone.
fn put_name(name: &[u8], out: &mut [u8])
    requires { 44 + length name.now ≤ length out.old }
    ensures { out.new ≡ paste out.old 44 name.now (length name.now) }
{
    for (i, byte) in name.iter().enumerate() {
        out[44 + i] = *byte;
    }
}

// Writes EncryptionInfo into out.
pub fn write_info(
    bits: BitCount,
    password: &[u16],
    name: &[u8],
    salt: [u8; 16],
    verifier: [u8; 16],
    filling: [u8; 12],
    out: &mut [u8],
) -> Result<usize, Refusal>
    ensures { left (reply_of result) out.new ≡ Written.written bits.0 password.now name.now salt verifier filling out.old }
{
    let n = name.len();
    let alg_id = answer(bits, password, n, out.len())?;
    let front = header::front(bits, alg_id, n);
    let salted = Salted { salt, password };
    let key = salted.expanded_key(bits.into()).round_keys();
    let locked = verifier::locked(key, salt, verifier, filling);
    octets::copy(&front, 0, 44, out, 0);
    put_name(name, out);
    octets::copy(&locked, 0, 72, out, 44 + n);
    Ok(answers::done(116 + n, out))
}
