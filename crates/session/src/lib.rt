// One office, as others use it: opened with limits over lent memory, it answers calls that come as bytes, hears letters, and
// hears its clock tick. What it answers and the letters that it sends are written into lent bytes.
#![tactic(auto)]

ghost use Rattle.std.specs.Prelude.{◌≡◌, nat_le};
ghost use Rattle.moves.specs.Stage.{limits_of};
ghost use Rattle.book.specs.Ready.{Ready};
ghost use Rattle.session.specs.Opening.{Opens};
ghost use Rattle.session.specs.Exchanging.{Begins, Heard, Ticked, Replies, Hears, lent_for_news, lent_for_tick};

mod calls;

use book::opening::Opening;
use calls::answer_row;
use letters::ENVELOPE_BYTES;
use parcels::Refusal;
use wire::{ANSWER_BYTES, write_answer};

// An office at work: what it has of each parcel, in memory that is lent to it, and what it was opened with. The invariant:
// a book stands in the memory.
#[derive(Drop)]
pub struct Session<'a> {
    memory: &'a mut [u32],
    opening: Opening,
    ghost ready: { Ready opening.own opening.parcels memory.now },
}

// What a call wrote into the bytes that were lent: how many its answer took, and how many letters it sent.
#[derive(Clone, Copy, Debug, PartialEq, Eq)]
pub struct Replied {
    pub answer: usize,
    pub letters: usize,
}

impl<'a> Session<'a> {
    // Opens an office: its empty book is laid out in the memory. What it was opened with is kept beside that.
    pub fn open(
        offices: u32,
        own: u32,
        parcels: u32,
        memory: &mut [u32],
    ) -> Result<Opening, Refusal>
        ensures value { Opens offices own parcels memory.old memory.new result }
        ensures begun { Begins offices own parcels memory.old memory.new result }
    {
        let opening = Opening::new(offices, own, parcels)?;
        opening.lay_out(memory)?;
        Ok(opening)
    }

    // An office over memory that it was opened with, or that it left the last time: either is ready.
    pub fn over(opening: Opening, memory: &'a mut [u32]) -> Session<'a>
        requires { Ready opening.own opening.parcels memory.old }
        ensures same_opening { result.opening ≡ opening }
        ensures same { result.memory.now ≡ memory.old }
        ensures same_reference { result.memory.ghost_name ≡ memory.entry.ghost_name }
    {
        Session { memory, opening }
    }

    // Whether so many bytes are enough for the letters that a call or a letter may send: one to each office.
    fn has_room_for_news(&self, lent: usize) -> bool
        ensures { result ≡ nat_le (lent_for_news (limits_of self.now.opening)) lent }
    {
        ENVELOPE_BYTES * self.opening.offices() as usize <= lent
    }

    // Whether so many bytes are enough for the letters that a tick may send: one for each parcel.
    fn has_room_for_tick(&self, lent: usize) -> bool
        ensures { result ≡ nat_le (lent_for_tick (limits_of self.now.opening)) lent }
    {
        ENVELOPE_BYTES * self.opening.parcels() as usize <= lent
    }

    // Answers a call that comes as bytes. The answer is written into 64 lent bytes, and letters into envelopes of 80, as many
    // as there are offices. Where fewer are lent, nothing happens. In this stage no letter is sent.
    #[tactic(auto, using(crate::proofs::Sent::answered))]
    pub fn call(&mut self, row: &[u8], out: &mut [u8], letters: &mut [u8]) -> Option<Replied>
        ensures value { Replies (limits_of self.old.opening) self.old.opening.own self.old.memory.now row.now out.old out.new letters.old letters.new result self.new.memory.now }
        ensures same_opening { self.new.opening ≡ self.old.opening }
        ensures same_reference { self.new.memory.ghost_name ≡ self.old.memory.ghost_name }
    {
        // asked first, so that no call is done whose answer can't be written
        if out.len() < ANSWER_BYTES || !self.has_room_for_news(letters.len()) {
            return None;
        }
        let answer = answer_row(self.opening, self.memory, row);
        Some(Replied {
            answer: write_answer(answer, out)?,
            letters: 0,
        })
    }

    // Hears a letter, which may be any bytes. Letters that it sends for it are written into envelopes of 80 lent bytes, as many
    // as there are offices, and counted. Where fewer are lent, nothing happens. In this stage a letter tells nothing.
    #[tactic(auto, using(crate::proofs::Sent::none_sent))]
    pub fn hear(&mut self, letter: &[u8], letters: &mut [u8]) -> Option<usize>
        ensures value { Hears (lent_for_news (limits_of self.old.opening)) (Heard (limits_of self.old.opening) self.old.opening.own self.old.memory.now letter.now) self.old.memory.now letters.old letters.new result self.new.memory.now }
        ensures same_opening { self.new.opening ≡ self.old.opening }
        ensures same_reference { self.new.memory.ghost_name ≡ self.old.memory.ghost_name }
    {
        if !self.has_room_for_news(letters.len()) {
            return None;
        }
        Some(0)
    }

    // The clock ticks. Letters that it sends are written into envelopes of 80 lent bytes, as many as its limit of parcels, and
    // counted. Where fewer are lent, nothing happens. In this stage there is no news to send.
    #[tactic(auto, using(crate::proofs::Sent::none_sent))]
    pub fn tick(&mut self, letters: &mut [u8]) -> Option<usize>
        ensures value { Hears (lent_for_tick (limits_of self.old.opening)) (Ticked (limits_of self.old.opening) self.old.opening.own self.old.memory.now) self.old.memory.now letters.old letters.new result self.new.memory.now }
        ensures same_opening { self.new.opening ≡ self.old.opening }
        ensures same_reference { self.new.memory.ghost_name ≡ self.old.memory.ghost_name }
    {
        if !self.has_room_for_tick(letters.len()) {
            return None;
        }
        Some(0)
    }
}
