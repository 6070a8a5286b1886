// An office's memory as rows of words: the only place that knows which word means what. Rows know one another by
// number, since the memory is lent words: there is no heap to hold boxes. Each function asks that the row which it is
// given lies in memory: a type for such a row would ask the same where one is made.
#![tactic(auto)]

ghost use Rattle.std.specs.Prelude.{◌≡◌, ◌+◌, ◌*◌, ◌≤◌, unwrap_or};
ghost use Rattle.parcels.specs.Numbers.{words_a_parcel, words_more};
ghost use Rattle.rows.specs.Layout.{row_words, words_for, HasRow, kind_marked, paid_marked, marks_of, entry_words, entry_at, link_word, link_at, row_named, head_at, head_words, EntryWritten, LinkWritten, HeadWritten};

use parcels::{Entry, Kind};

// The counts in the head: how many parcels the book has, and how many of them this office accepted.
#[derive(Clone, Copy)]
pub struct Head {
    pub count: u32,
    pub accepted: u32,
}

// One of a row's two places for the number of another row: `row` is where it stands, and its word says where it leads.
// `right` is a bit of a key, as the search comes to it: an enum of two sides would say no more.
#[derive(Clone, Copy)]
pub struct Link {
    pub row: u32,
    pub right: bool,
}

impl Link {
    // The place of its word in memory.
    fn word(self) -> usize
        ensures { result ≡ link_word self }
    {
        let place = if self.right { RIGHT } else { LEFT };
        row_start(self.row) + place
    }
}

const ROW_WORDS: usize = 24;

// The words of a row, by their places in it.
const KEY: usize = 0;

const STEP_LOW: usize = 1;

const STEP_HIGH: usize = 2;

const MARKS: usize = 3;

const TO: usize = 4;

const DEST: usize = 5;

const AMOUNT: usize = 6;

// A row's two links; the head has the first alone.
const LEFT: usize = 7;

const RIGHT: usize = 8;

// A link's word where it leads nowhere.
const NO_ROW: u32 = 0;

// The words of an entry are the first of its row.
const ENTRY_WORDS: usize = 7;

// The head's words.
const COUNT: usize = 0;

const ACCEPTED: usize = 1;

const HEAD_WORDS: usize = 2;

// Bits of the marks.
const KIND_BITS: u32 = 3;

const PAID_BIT: u32 = 4;

// So many values a word has: the high word of a step counts so many of the low one. (std takes a number apart into
// bytes, not into words.)
const WORD_END: u64 = 4_294_967_296;

// The place of a row's first word.
fn row_start(row: u32) -> usize
    ensures { result ≡ row_words * row }
{
    ROW_WORDS * row as usize
}

// How many words of memory a limit of parcels asks for.
pub fn words_for(parcels: u32) -> usize
    ensures value { result ≡ words_for parcels }
    ensures bound { result ≤ words_a_parcel * parcels + words_more }
{
    ROW_WORDS * (parcels as usize + 1)
}

fn kind_of(marks: u32) -> Kind
    ensures { result ≡ kind_marked marks }
{
    // two bits are a number below 4, and each of those is a kind's
    Kind::try_from(u64::from(marks & KIND_BITS)).unwrap()
}

fn is_paid(marks: u32) -> bool
    ensures { result ≡ paid_marked marks }
{
    marks & PAID_BIT != 0
}

// The entry of a row.
#[tactic(auto, unfolding(crate::specs::Layout::entry_at))]
pub fn read_entry(memory: &[u32], row: u32) -> Entry
    requires { HasRow memory.now row }
    ensures { result ≡ entry_at memory.now row }
{
    let at = row_start(row);
    let marks = memory[at + MARKS];
    Entry {
        key: memory[at + KEY],
        step: u64::from(memory[at + STEP_LOW]) + WORD_END * u64::from(memory[at + STEP_HIGH]),
        kind: kind_of(marks),
        to: memory[at + TO],
        dest: memory[at + DEST],
        amount: memory[at + AMOUNT],
        paid: is_paid(marks),
    }
}

// The key in a row.
#[tactic(auto, unfolding(crate::specs::Layout::entry_at))]
pub fn read_key(memory: &[u32], row: u32) -> u32
    requires { HasRow memory.now row }
    ensures { result ≡ (entry_at memory.now row).key }
{
    memory[row_start(row) + KEY]
}

fn marks(kind: Kind, paid: bool) -> u32
    ensures { result ≡ marks_of kind paid }
{
    let paid_bit = if paid { PAID_BIT } else { 0 };
    u32::from(u8::from(kind)) | paid_bit
}

fn entry_words(entry: Entry) -> [u32; ENTRY_WORDS]
    ensures { result ≡ entry_words entry }
{
    [
        entry.key,
        (entry.step % WORD_END) as u32,
        (entry.step / WORD_END) as u32,
        marks(entry.kind, entry.paid),
        entry.to,
        entry.dest,
        entry.amount,
    ]
}

// Writes an entry into its row; the row's links stay.
pub fn write_entry(memory: &mut [u32], row: u32, entry: Entry)
    requires { HasRow memory.old row }
    ensures { EntryWritten memory.old memory.new row entry }
{
    let at = row_start(row);
    memory[at..at + ENTRY_WORDS].copy_from_slice(&entry_words(entry));
}

// A link's word, and the row that it names. Row 0 is the head, to which no link leads: its number is for none.
fn row_named(word: u32) -> Option<u32>
    ensures { result ≡ row_named word }
{
    match word {
        NO_ROW => None,
        row => Some(row),
    }
}

fn word_naming(row: Option<u32>) -> u32
    ensures { result ≡ unwrap_or row 0 }
{
    row.unwrap_or(NO_ROW)
}

// The row that a link leads to.
#[tactic(auto, unfolding(crate::specs::Layout::link_at))]
pub fn read_link(memory: &[u32], link: Link) -> Option<u32>
    requires { HasRow memory.now link.row }
    ensures { result ≡ row_named (link_at memory.now link) }
{
    row_named(memory[link.word()])
}

// Leads a link to a row, or nowhere. Row 0 counts as none, so that no caller has to rule it out.
pub fn write_link(memory: &mut [u32], link: Link, row: Option<u32>)
    requires { HasRow memory.old link.row }
    ensures { LinkWritten memory.old memory.new link (unwrap_or row 0) }
{
    memory[link.word()] = word_naming(row);
}

// The counts in the head.
#[tactic(auto, unfolding(crate::specs::Layout::head_at))]
pub fn read_head(memory: &[u32]) -> Head
    requires { HasRow memory.now 0 }
    ensures { result ≡ head_at memory.now }
{
    Head {
        count: memory[COUNT],
        accepted: memory[ACCEPTED],
    }
}

fn head_words(head: Head) -> [u32; HEAD_WORDS]
    ensures { result ≡ head_words head }
{
    [head.count, head.accepted]
}

// Writes the counts; the root stays.
pub fn write_head(memory: &mut [u32], head: Head)
    requires { HasRow memory.old 0 }
    ensures { HeadWritten memory.old memory.new head }
{
    memory[..HEAD_WORDS].copy_from_slice(&head_words(head));
}
