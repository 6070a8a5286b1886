// The letters that were sent in a world.
ghost use Rattle.std.specs.Prelude.{◌≡◌, ◌+◌, ◌*◌, ◌≤◌, ◌++◌, [], length, take, OnOk, vec_items, vec_len, vec_capacity};
ghost use Rattle.parcels.specs.Numbers.{most_parcels};
ghost use Rattle.letters.specs.Envelope.{lent_for_letter};
ghost use Rattle.world.specs.Mail.{letters_in_mail, IsLetter};

use letters::{ENVELOPE_BYTES, Envelope};
use std::alloc::{AllocError, Global};

// All letters that were ever sent, each in the envelope in which it was, the oldest first.
#[derive(Drop)]
pub(crate) struct Mail {
    envelopes: Vec<u8>,
}

impl Mail {
    pub(crate) fn new(heap: Global) -> Mail
        ensures { vec_items result.envelopes ≡ [] }
    {
        Mail {
            envelopes: Vec::new(heap),
        }
    }

    // Gets memory for so many letters more.
    pub(crate) fn reserve(&mut self, letters: usize) -> Result<(), AllocError>
        requires { letters ≤ most_parcels }
        ensures same { vec_items self.new.envelopes ≡ vec_items self.old.envelopes }
        ensures room { OnOk result (vec_len self.new.envelopes + lent_for_letter * letters ≤ vec_capacity self.new.envelopes) }
    {
        self.envelopes.reserve(ENVELOPE_BYTES * letters)
    }

    // Takes letters out of the bytes into which an office wrote them, where there is memory for them already.
    pub(crate) fn collect(&mut self, lent: &[u8], letters: usize)
        requires lent { lent_for_letter * letters ≤ length lent.now }
        requires room { vec_len self.old.envelopes + lent_for_letter * letters ≤ vec_capacity self.old.envelopes }
        ensures { vec_items self.new.envelopes ≡ vec_items self.old.envelopes ++ take (lent_for_letter * letters) lent.now }
    {
        self.envelopes
            .extend_from_slice(&lent[..ENVELOPE_BYTES * letters])
            .unwrap();
    }

    // How many there are.
    #[tactic(auto, using(letters::proofs::Row::length_letters))]
    pub(crate) fn len(&self) -> usize
        ensures { result ≡ length (letters_in_mail self.now) }
    {
        self.envelopes.len() / ENVELOPE_BYTES
    }

    // The letter of this number.
    #[tactic(auto, using(letters::proofs::Row::length_letters, letters::proofs::Row::nth_letter))]
    pub(crate) fn get(&self, number: usize) -> Option<Envelope>
        ensures { IsLetter (letters_in_mail self.now) number result }
    {
        Envelope::nth(self.envelopes.as_slice(), number)
    }
}
