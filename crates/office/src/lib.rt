// One office for programs in C, over memory and bytes that they lend: numbers and slices go in, and one number comes out.
// `include/office.h` says the same for C. An office keeps nothing but its memory, so its limits come with each call.
#![tactic(auto)]

ghost use Rattle.std.specs.Prelude.{◌≡◌, ◌<◌, ◌≤◌, Some, MatchOption};
ghost use Rattle.parcels.specs.Numbers.{most_offices, most_parcels};
ghost use Rattle.book.specs.Ready.{Ready};
ghost use Rattle.office.specs.Numbered.{words_asked, OpensNumbered, replied_by, heard_by, RepliesNumbered, HearsNumbered, TicksNumbered};

use book::opening::Opening;
use parcels::Refusal;
use session::{Replied, Session};

// The lowest byte of what is told is one number; what stands above it counts in these.
const ABOVE_BYTE: u64 = 256;

// How many words of memory an office with these limits asks for; 0 where they are out of range.
#[unsafe(no_mangle)]
pub extern "C" fn office_words(offices: u32, own: u32, parcels: u32) -> usize
    ensures { result ≡ words_asked offices own parcels }
{
    let Ok(opening) = Opening::new(offices, own, parcels) else {
        return 0;
    };
    opening.words()
}

// Opens an office: its empty book is laid out in the memory. 0 where it opened; else its refusal, the number in the lowest
// byte and the place above it.
#[unsafe(no_mangle)]
pub extern "C" fn office_open(offices: u32, own: u32, parcels: u32, memory: &mut [u32]) -> u64
    ensures value { OpensNumbered offices own parcels memory.old memory.new result }
    ensures ready { result ≡ 0 → Ready own parcels memory.new }
{
    let Err(Refusal { reason, place }) = Session::open(offices, own, parcels, memory) else {
        return 0;
    };
    ABOVE_BYTE * place + u64::from(u8::from(reason))
}

// What was done with a call, as one number: how many bytes its answer took, and above that byte how many letters were sent.
fn replied_number(replied: Replied) -> u64
    requires answer { (0 < replied.answer) × (replied.answer < 256) }
    requires letters { replied.letters ≤ most_offices }
    ensures { replied_by result ≡ Some replied }
{
    ABOVE_BYTE * replied.letters as u64 + replied.answer as u64
}

// Answers a call that comes as bytes. The answer is written into 64 lent bytes, and letters into envelopes of 80, as many as
// there are offices. 0 where nothing was done, since fewer are lent, or limits are out of range.
#[unsafe(no_mangle)]
#[tactic(auto, using(crate::proofs::Counted::answer_counted))]
pub extern "C" fn office_call(
    offices: u32,
    own: u32,
    parcels: u32,
    memory: &mut [u32],
    call: &[u8],
    answer: &mut [u8],
    letters: &mut [u8],
) -> u64
    requires { Ready own parcels memory.old }
    ensures value { RepliesNumbered offices own parcels memory.old call.now answer.old answer.new letters.old letters.new result memory.new }
    ensures ready { Ready own parcels memory.new }
{
    let Ok(opening) = Opening::new(offices, own, parcels) else {
        return 0;
    };
    let Some(replied) = Session::over(opening, memory).call(call, answer, letters) else {
        return 0;
    };
    replied_number(replied)
}

// What was done with a letter or a tick, as one number: 0 for nothing, else one more than the letters that were sent.
fn heard_number(letters: Option<usize>) -> u64
    requires { MatchOption letters Unit (λ n. n ≤ most_parcels) }
    ensures { heard_by result ≡ letters }
{
    match letters {
        None => 0,
        Some(letters) => letters as u64 + 1,
    }
}

// Hears a letter, which may be any bytes. Letters that it sends for it are written into envelopes of 80 lent bytes, as many as
// there are offices. 0 where nothing was done, since fewer are lent, or limits are out of range; else one more than the letters
// that were sent.
#[unsafe(no_mangle)]
pub extern "C" fn office_hear(
    offices: u32,
    own: u32,
    parcels: u32,
    memory: &mut [u32],
    letter: &[u8],
    letters: &mut [u8],
) -> u64
    requires { Ready own parcels memory.old }
    ensures value { HearsNumbered offices own parcels memory.old letter.now letters.old letters.new result memory.new }
    ensures ready { Ready own parcels memory.new }
{
    let Ok(opening) = Opening::new(offices, own, parcels) else {
        return 0;
    };
    heard_number(Session::over(opening, memory).hear(letter, letters))
}

// The clock ticks. Letters that it sends are written into envelopes of 80 lent bytes, as many as its limit of parcels. 0 where
// nothing was done, since fewer are lent, or limits are out of range; else one more than the letters that were sent.
#[unsafe(no_mangle)]
pub extern "C" fn office_tick(
    offices: u32,
    own: u32,
    parcels: u32,
    memory: &mut [u32],
    letters: &mut [u8],
) -> u64
    requires { Ready own parcels memory.old }
    ensures value { TicksNumbered offices own parcels memory.old letters.old letters.new result memory.new }
    ensures ready { Ready own parcels memory.new }
{
    let Ok(opening) = Opening::new(offices, own, parcels) else {
        return 0;
    };
    heard_number(Session::over(opening, memory).tick(letters))
}
