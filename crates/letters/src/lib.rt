// Letters that offices send, in lent bytes: an envelope of 80 for each, one behind the other. It begins with a head, which says
// to which office the letter goes and how long it is; the letter itself begins in the middle.
#![tactic(auto)]

ghost use Rattle.std.specs.Prelude.{◌≡◌, ◌≤◌, length, take, drop};
ghost use Rattle.std.specs.Int.{w32, from_le_bytes};
ghost use Rattle.parcels.specs.Numbers.{letter_bytes};
ghost use Rattle.letters.specs.Envelope.{lent_for_letter, letter_of, filled, Encloses, ReadsBack, IsNth};

// The most bytes of a letter.
pub const MAX_LETTER_BYTES: usize = 64;

// How many bytes are lent for a letter.
pub const ENVELOPE_BYTES: usize = 80;

// Where in them the letter begins. Bytes 0 to 3 are the office, 4 to 7 the length, and 8 to 15 are kept free.
const HEAD_BYTES: usize = 16;

// An envelope, as its bytes were.
#[derive(Clone, Copy)]
pub struct Envelope {
    bytes: [u8; ENVELOPE_BYTES],
}

// The number in four bytes, low byte first.
fn read_number(part: &[u8]) -> u32
    requires { length part.now ≡ 4 }
    ensures { result ≡ from_le_bytes w32 part.now }
{
    let mut low_first = [0; 4];
    low_first.copy_from_slice(part);
    u32::from_le_bytes(low_first)
}

// Puts a letter into an envelope.
#[tactic(auto, using(crate::proofs::Filled::filled_up))]
fn fill(to: u32, text: &[u8], envelope: &mut [u8])
    requires envelope { length envelope.old ≡ lent_for_letter }
    requires short { length text.now ≤ letter_bytes }
    ensures { envelope.new ≡ filled (record { to = to; text = text.now }) envelope.old }
{
    envelope[..4].copy_from_slice(&to.to_le_bytes());
    // at most 64, so nothing is cut off
    envelope[4..8].copy_from_slice(&(text.len() as u32).to_le_bytes());
    envelope[HEAD_BYTES..HEAD_BYTES + text.len()].copy_from_slice(text);
}

// Puts a letter into the envelope at a place among lent bytes. None, with nothing written, where the letter is longer
// than 64 bytes or no envelope is lent there.
pub fn write_letter(to: u32, text: &[u8], nth: usize, lent: &mut [u8]) -> Option<()>
    ensures value { Encloses lent.old nth (record { to = to; text = text.now }) result lent.new }
    ensures written { ReadsBack (record { to = to; text = text.now }) nth result lent.new }
{
    if text.len() > MAX_LETTER_BYTES || nth >= lent.len() / ENVELOPE_BYTES {
        return None;
    }
    let start = ENVELOPE_BYTES * nth;
    fill(to, text, &mut lent[start..start + ENVELOPE_BYTES]);
    Some(())
}

impl Envelope {
    // The envelope at a place among lent bytes, if it is lent.
    pub fn nth(lent: &[u8], nth: usize) -> Option<Envelope>
        ensures { IsNth lent.now nth result }
    {
        if nth >= lent.len() / ENVELOPE_BYTES {
            return None;
        }
        let start = ENVELOPE_BYTES * nth;
        let mut bytes = [0; ENVELOPE_BYTES];
        bytes.copy_from_slice(&lent[start..start + ENVELOPE_BYTES]);
        Some(Envelope { bytes })
    }

    // To which office its letter goes.
    pub fn office(&self) -> u32
        ensures { result ≡ (letter_of self.now).to }
    {
        read_number(&self.bytes[..4])
    }

    // Its letter: as long as its head says, and at most what it has room for.
    pub fn letter(&self) -> &[u8]
        ensures { result.now ≡ (letter_of self.now).text }
    {
        let len = read_number(&self.bytes[4..8]) as usize;
        &self.bytes[HEAD_BYTES..HEAD_BYTES + len.min(MAX_LETTER_BYTES)]
    }
}
