// The verdict on a password, and what it unlocks: the descriptor and the key (01, rules 11 and 12; 004 2.3.4.8 and 2.3.4.9, 000
// section 6).
//
//     let lock = Lock { info, password: units, scheme: descriptor::ECB };
//     let Unlocked { fields, key } = lock.unlock()?;
//
// A password is 16-bit units as they are: any unit, none of them special, at most 255. The 50,000 turns are run once a call.

#![tactic(auto)]

ghost use Rattle.std.specs.Prelude.{◌≡◌};
ghost use Rattle.answers.specs.Refusals.{answer_of};
ghost use Rattle.answers.specs.Rules.{first_of};
ghost use Rattle.password.specs.Lock.{asked};
ghost use Rattle.password.specs.Verdict as Verdict;

mod verifier;

use aes::RoundKeys;
use answers::{Refusal, rule};
use derivation::Salted;
use descriptor::Descriptor;

// What unlocks a document: EncryptionInfo, a password as 16-bit units, and the scheme, which the file does not name.
#[derive(Clone, Copy)]
pub struct Lock<'a> {
    pub info: &'a [u8],
    pub password: &'a [u16],
    pub scheme: u64,
}

// What an accepted password unlocks: the descriptor, and the key that decrypts the package.
#[derive(Clone, Copy)]
pub struct Unlocked {
    pub fields: Descriptor,
    pub key: RoundKeys,
}

// The rule on a password's text.
#[tactic(auto, unfolding(answers::specs::Rules::first_of, crate::specs::Verdict::text_rules))]
pub fn text_answer(password: &[u16]) -> Result<(), Refusal>
    ensures { answer_of result ≡ first_of (Verdict.text_rules password.now) }
{
    rule(255 < password.len(), Refusal::PasswordLong)
}

impl Lock<'_> {
    // What the password unlocks, or why it does not. A refused EncryptionInfo, scheme or text is answered before anything is hashed.
    pub fn unlock(&self) -> Result<Unlocked, Refusal>
        ensures { Verdict.unlocked_of result ≡ Verdict.unlocked (asked self.now) }
    {
        let fields = descriptor::parse(self.info, self.scheme)?;
        text_answer(self.password)?;
        let salt = fields.salt;
        let salted = Salted {
            salt,
            password: self.password,
        };
        let key = salted.expanded_key(fields.key_size).round_keys();
        let matched = verifier::matches(
            key,
            fields.encrypted_verifier,
            fields.encrypted_verifier_hash,
        );
        rule(!matched, Refusal::PasswordWrong)?;
        Ok(Unlocked { fields, key })
    }

    // The verdict alone.
    pub fn verdict(&self) -> Result<(), Refusal>
        ensures { answer_of result ≡ Verdict.judged (asked self.now) }
    {
        self.unlock()?;
        Ok(())
    }
}
