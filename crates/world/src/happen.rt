// The things that can happen in a world.
ghost use Rattle.std.specs.Prelude.{◌≡◌, ◌<◌, ◌⊎◌, false, [], ◌∷◌, ◌++◌, length, Decides, IsErr, OnOk, vec_items, vec_len, vec_capacity};
ghost use Rattle.promises.specs.World.{IsGiven, IsRowKnown};
ghost use Rattle.world.specs.Journal.{history};
ghost use Rattle.world.specs.Opening.{Opens};
ghost use Rattle.world.specs.Safe.{Safe};
ghost use Rattle.world.specs.Outcome.{at_office, AtOffice, Came, Called, Comes, Happens, is_call};
ghost use Rattle.world.specs.View.{limits_of, letters_of, journal_of, memories, SameSaid};

use crate::mail::Mail;
use crate::station::{Asked, Station};
use crate::{CannotHappen, Exchange, Happening, World};
use letters::ENVELOPE_BYTES;
use parcels::{Answer, Call, Slip};
use std::alloc::Global;
use wire::{MAX_CALL_BYTES, UnreadableCall, read_call, write_call};

// Writes an exchange into the journal, where there is room for it already.
fn write_down(journal: &mut Vec<Exchange>, exchange: Exchange)
    requires { vec_len journal.old < vec_capacity journal.old }
    ensures { vec_items journal.new ≡ vec_items journal.old ++ (exchange ∷ []) }
{
    journal.push(exchange).unwrap();
}

impl World {
    // A post with so many offices, each opened with this limit of parcels.
    #[tactic(auto, using(letters::proofs::Row::none_in))]
    pub fn open(heap: Global, offices: u32, parcels: u32) -> Result<World, CannotHappen>
        ensures { Opens offices parcels result }
    {
        let mut opened = Vec::new(heap);
        // by number, which is what each is opened with. Which limits are in range is for an office to say: with none at
        // all, office 0 is tried and refused
        for own in 0..offices.max(1) {
            let station = Station::open(heap, offices, own, parcels)?;
            opened.push(station)?;
        }
        let lent = vec![in heap; 0; ENVELOPE_BYTES * offices.max(parcels) as usize]?;
        Ok(World {
            parcels,
            stations: opened,
            mail: Mail::new(heap),
            journal: Vec::new(heap),
            lent,
        })
    }

    // Whether this slip was given out.
    fn was_given(&self, slip: Slip) -> bool
        ensures { Decides result (IsGiven slip (history (journal_of self.now))) }
    {
        self.journal
            .iter()
            .any(|said| said.answer == Answer::Given(slip))
    }

    // Whether the slip that a call comes with, if it is one with a slip, was given out.
    fn slip_is_known(&self, reading: Result<Call, UnreadableCall>) -> bool
        ensures { Decides result (IsRowKnown reading (history (journal_of self.now))) }
    {
        match reading {
            Ok(Call::TakeIn { slip }) => self.was_given(slip),
            _ => true,
        }
    }

    // How many offices there are.
    pub fn offices(&self) -> u32
        ensures { result ≡ (limits_of self.now).offices }
    {
        // a post has few offices, so nothing is cut off
        self.stations.len() as u32
    }

    // What was handed to offices as calls, and what they answered, the oldest first.
    pub fn journal(&self) -> &[Exchange]
        ensures { result.now ≡ journal_of self.now }
    {
        self.journal.as_slice()
    }

    // How many letters were sent: none, in this stage.
    #[tactic(auto, using(crate::proofs::Happens::none_yet))]
    pub fn letters(&self) -> usize
        ensures value { result ≡ length (letters_of self.now) }
        ensures none { letters_of self.now ≡ [] }
    {
        self.mail.len()
    }

    // Whether an office is there.
    fn check_office(&self, at: u32) -> Result<(), CannotHappen>
        ensures { result ≡ at_office (limits_of self.now).offices at }
    {
        if at >= self.offices() {
            return Err(CannotHappen::NoOffice);
        }
        Ok(())
    }

    // An office's clock ticks.
    fn tick(&mut self, at: u32) -> Result<(), CannotHappen>
        ensures value { AtOffice (limits_of self.old).offices at result }
        ensures same { SameSaid self.old self.new }
        ensures kept { memories self.new ≡ memories self.old }
    {
        self.check_office(at)?;
        // before the office has its turn, so that nothing is done where there is no memory for its letters
        self.mail.reserve(self.parcels as usize)?;
        let sent = self.stations[at as usize].tick(&mut self.lent);
        self.mail.collect(&self.lent, sent);
        Ok(())
    }

    // A letter comes, by its number among all that were sent, to the office to which it goes.
    fn hear(&mut self, number: usize) -> Result<(), CannotHappen>
        ensures value { Comes (limits_of self.old).offices (letters_of self.old) number result }
        ensures same { SameSaid self.old self.new }
        ensures kept { memories self.new ≡ memories self.old }
    {
        let Some(envelope) = self.mail.get(number) else {
            return Err(CannotHappen::NeverSent);
        };
        let at = envelope.office();
        self.check_office(at)?;
        let most = self.offices();
        self.mail.reserve(most as usize)?;
        let sent = self.stations[at as usize].hear(envelope.letter(), &mut self.lent);
        self.mail.collect(&self.lent, sent);
        Ok(())
    }

    // A row of bytes comes to an office as a call.
    fn bytes(&mut self, at: u32, row: &[u8]) -> Result<Answer, CannotHappen>
        ensures value { Came (limits_of self.old) (journal_of self.old) at row.now result (journal_of self.new) }
        ensures same { (limits_of self.new ≡ limits_of self.old) × (letters_of self.new ≡ letters_of self.old) }
        ensures kept { IsErr result → memories self.new ≡ memories self.old }
    {
        let reading = read_call(row);
        self.check_office(at)?;
        if !self.slip_is_known(reading) {
            return Err(CannotHappen::NeverGiven);
        }
        let most = self.offices();
        self.mail.reserve(most as usize)?;
        self.journal.reserve(1)?;
        let Asked { answer, letters } = self.stations[at as usize].ask(row, &mut self.lent);
        self.mail.collect(&self.lent, letters);
        write_down(
            &mut self.journal,
            Exchange {
                at,
                reading,
                answer,
            },
        );
        Ok(answer)
    }

    // A clerk makes a call at an office: it goes there as bytes, written into lent ones with room for the longest call, so
    // that its bytes want no heap.
    fn call(&mut self, at: u32, call: Call) -> Result<Answer, CannotHappen>
        ensures value { Called (limits_of self.old) (journal_of self.old) at call result (journal_of self.new) }
        ensures same { (limits_of self.new ≡ limits_of self.old) × (letters_of self.new ≡ letters_of self.old) }
        ensures kept { IsErr result → memories self.new ≡ memories self.old }
    {
        let mut row = [0; MAX_CALL_BYTES];
        let Some(len) = write_call(call, &mut row) else {
            return Err(CannotHappen::NoSuchCall);
        };
        self.bytes(at, &row[..len])
    }

    // Lets one thing happen, and gives the answer, if it has one: a call's answer is right, by all that was said before at
    // all offices. What can't happen changes nothing. Whatever happened, each office's memory means its book in truth, and the
    // parcels are safe.
    #[tactic(auto, using(crate::proofs::Happened::kept_safe))]
    pub fn happen(&mut self, happening: Happening) -> Result<Option<Answer>, CannotHappen>
        ensures value { Happens (limits_of self.old) (letters_of self.old) (journal_of self.old) happening.entry result (journal_of self.new) }
        ensures same { (limits_of self.new ≡ limits_of self.old) × (letters_of self.new ≡ letters_of self.old) }
        ensures kept { (IsErr result ⊎ (is_call happening.entry ≡ false)) → memories self.new ≡ memories self.old }
        ensures safe { Safe self.new }
    {
        match happening {
            Happening::Call { at, call } => self.call(at, call).map(Some),
            Happening::Bytes { at, row } => self.bytes(at, row).map(Some),
            Happening::Letter { number } => {
                self.hear(number)?;
                Ok(None)
            }
            Happening::Tick { at } => {
                self.tick(at)?;
                Ok(None)
            }
        }
    }
}
