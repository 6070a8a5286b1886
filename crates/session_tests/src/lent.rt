// An office in lent memory, and what it is asked.
ghost use Rattle.std.specs.Prelude.{◌≡◌, ◌≤◌};
ghost use Rattle.book.specs.Ready.{Ready};

use book::opening::Opening;
use parcels::{Answer, Call, Refusal};
use session::{Replied, Session};
use std::process::Abort;
use wire::{MAX_CALL_BYTES, read_answer, write_call};

// What each lent word, and each lent byte, is before anything is written.
pub(crate) const LENT: u32 = 0xeeee_eeee;

pub(crate) const LENT_BYTE: u8 = 0xee;

// How many words are lent: as many as five parcels ask for, and four more.
pub(crate) const WORDS: usize = 148;

// How many bytes three offices ask for, for letters.
const LETTER_BYTES: usize = 240;

// A refusal as its numbers.
pub(crate) fn numbers(e: Refusal) -> (u8, u64) {
    (e.reason.into(), e.place)
}

// What an office was opened with, and its memory. Each call takes it up again over that.
#[derive(Clone, Copy)]
pub(crate) struct Lent {
    pub opening: Opening,
    pub memory: [u32; WORDS],
    ghost ready: { Ready opening.own opening.parcels memory },
}

impl Lent {
    // Opens an office with limits that are in range.
    pub(crate) fn open(rt: &impl Abort, offices: u32, own: u32, parcels: u32) -> Lent {
        let mut memory = [LENT; WORDS];
        let Ok(opening) = Session::open(offices, own, parcels, &mut memory) else {
            panic!(rt; "{own} of {offices} offices, {parcels} parcels");
        };
        Lent { opening, memory }
    }

    // What it answers to a row of bytes. It sends no letter, and each lent byte behind the answer stays.
    pub(crate) fn ask(&mut self, rt: &impl Abort, row: &[u8]) -> Answer {
        let mut out = [LENT_BYTE; 70];
        let mut letters = [LENT_BYTE; LETTER_BYTES + 10];
        let replied = Session::over(self.opening, &mut self.memory).call(
            row,
            &mut out,
            &mut letters,
        );
        let Some(replied) = replied else {
            panic!(rt; "no answer to {row:?}");
        };
        assert_eq!(rt; replied.letters, 0);
        check_lent(rt, &letters);
        written(rt, &out, replied.answer)
    }

    // What it answers to a call.
    pub(crate) fn call(&mut self, rt: &impl Abort, call: Call) -> Answer {
        let mut row = [0; MAX_CALL_BYTES];
        let Some(len) = write_call(call, &mut row) else {
            panic!(rt; "no bytes are the call");
        };
        assert!(rt; len <= MAX_CALL_BYTES);
        self.ask(rt, &row[..len])
    }

    // It answers the call by this. (This and the checks below have functions of their own: what a function costs to prove
    // grows faster than its length.)
    pub(crate) fn check(&mut self, rt: &impl Abort, call: Call, answer: Answer) {
        assert!(rt; self.call(rt, call) == answer, "call {}", call.number());
    }

    // The same, and no word changes.
    pub(crate) fn check_told(&mut self, rt: &impl Abort, call: Call, answer: Answer) {
        let before = self.memory;
        self.check(rt, call, answer);
        assert!(rt; self.memory == before);
    }

    // A row of the memory begins with these words: key, step, marks, to, dest, amount, and the links.
    pub(crate) fn check_row(&self, rt: &impl Abort, row: usize, words: [u32; 9])
        requires within { row ≤ 5 }
    {
        let start = 24 * row;
        assert_eq!(rt; &self.memory[start..start + 9], words.as_slice());
    }
}

// The answer that was written into so many of these lent bytes. Each one behind it stayed.
fn written(rt: &impl Abort, out: &[u8; 70], len: usize) -> Answer {
    assert!(rt; len <= 64);
    check_lent(rt, &out[len..]);
    let Some(answer) = read_answer(&out[..len]) else {
        panic!(rt; "answer {out:?}");
    };
    answer
}

// Each byte is as it was lent.
pub(crate) fn check_lent(rt: &impl Abort, bytes: &[u8]) {
    for byte in bytes {
        assert_eq!(rt; *byte, LENT_BYTE);
    }
}

// The office answers a row of bytes by these, and sends no letter.
pub(crate) fn check_answer(rt: &impl Abort, session: &mut Session, row: &[u8], answer: &[u8])
    ensures same_opening { session.new.opening ≡ session.old.opening }
    ensures same_reference { session.new.memory.ghost_name ≡ session.old.memory.ghost_name }
{
    let mut out = [LENT_BYTE; 64];
    let mut letters = [LENT_BYTE; LETTER_BYTES];
    let replied = Replied {
        answer: answer.len(),
        letters: 0,
    };
    assert_eq!(rt; session.call(row, &mut out, &mut letters), Some(replied));
    check_lent(rt, &letters);
    assert_eq!(rt; out.get(..answer.len()), Some(answer));
}
