// The tree by which a parcel's row is found. It stands in the rows: at each row the next bit of the key, from the
// lowest on, says by which of its two links to go on. Keys of an office differ in their low bits, so few rows stand above one.
ghost use Rattle.std.specs.Prelude.{◌≡◌, ℕ, ◌<◌, ◌≤◌, true, length, Ok, Err};
ghost use Rattle.parcels.specs.Numbers.{most_parcels};
ghost use Rattle.parcels.specs.Book.{has_room};
ghost use Rattle.rows.specs.Layout.{HasRow, head_at, book_at};
ghost use Rattle.book.specs.Tree.{tree_of, turns_right, seek};
ghost use Rattle.book.specs.Search.{end_of, led_to, search_end, Searchable};
ghost use Rattle.book.specs.Sound.{Sound};
ghost use Rattle.book.specs.Keeping.{IsPut};
ghost use Rattle.book.specs.Adding.{counted_head, Cleared, RowAdded};

use crate::key::KeyParts;
use crate::opening::Opening;
use parcels::Entry;
use rows::{Head, Link, read_head, read_key, read_link, write_entry, write_head, write_link};

// The link by which every search begins: the head's.
pub(crate) const ROOT: Link = Link {
    row: 0,
    right: false,
};

// No parcel, and a root that leads nowhere.
#[tactic(auto, using(crate::proofs::Empty::cleared))]
pub(crate) fn clear(memory: &mut [u32])
    requires { HasRow memory.old 0 }
    ensures { Cleared memory.old memory.new }
{
    write_head(
        memory,
        Head {
            count: 0,
            accepted: 0,
        },
    );
    write_link(memory, ROOT, None);
}

// Whether a bit of a key is 1: there the search turns right.
fn turns_right(bit: u32, key: u32) -> bool
    requires { bit < u32.BITS }
    ensures { result ≡ turns_right bit key }
{
    (key >> bit) % 2 == 1
}

// The search from a link on, with so many bits of the key left: the link at which it ends, which leads to the key's row, or
// nowhere, where its row would hang. With no bits left, the row has this key. By recursion over a height that falls; a link
// is small enough that the compiler makes a loop of it.
pub(crate) fn seek(memory: &[u32], link: Link, key: u32, height: u32) -> Link
    requires { Searchable memory.now link key height }
    ensures value { led_to (tree_of memory.now) result ≡ end_of (seek (tree_of memory.now) height link key) }
    ensures within { HasRow memory.now result.row }
{
    let Some(row) = read_link(memory, link) else {
        return link;
    };
    if height == 0 || read_key(memory, row) == key {
        return link;
    }
    let right = turns_right(u32::BITS - height, key);
    seek(memory, Link { row, right }, key, height - 1)
}

// The head with one parcel more, of this key.
fn counted(head: Head, own: u32, key: u32) -> Head
    requires count { head.count < most_parcels }
    requires accepted { head.accepted ≤ head.count }
    ensures { result ≡ counted_head own head key }
{
    let accepted_here = u32::from(KeyParts::from(key).office) == own;
    Head {
        count: head.count + 1,
        accepted: head.accepted + u32::from(accepted_here),
    }
}

// Writes an entry into a row of its own, behind the last one, and leads a link to it.
#[tactic(auto, using(crate::proofs::Adding::row_added))]
fn hang(memory: &mut [u32], opening: Opening, end: Link, entry: Entry)
    requires sound { Sound opening.own opening.parcels memory.old }
    requires room { (head_at memory.old).count < opening.parcels }
    requires within { end.row ≤ (head_at memory.old).count }
    ensures { RowAdded opening.own memory.old memory.new end entry }
{
    let head = counted(read_head(memory), opening.own, entry.key);
    let row = head.count;
    write_entry(memory, row, entry);
    write_link(memory, Link { row, right: false }, None);
    write_link(memory, Link { row, right: true }, None);
    write_link(memory, end, Some(row));
    write_head(memory, head);
}

// Writes another entry into the row of its key, and so puts it into the book, whatever the office.
pub(crate) fn change(memory: &mut [u32], row: u32, entry: Entry)
    requires within { HasRow memory.old row }
    requires found { Ok row ≡ search_end memory.old entry.key }
    ensures { (own parcels : ℕ) → Sound own parcels memory.old → IsPut own parcels memory.old memory.new entry }
{
    write_entry(memory, row, entry);
}

// Adds a row for an entry whose key no row has, and so puts it into the book. The link is the one at which the search for
// the key ended, and led nowhere.
pub(crate) fn add(memory: &mut [u32], opening: Opening, end: Link, entry: Entry)
    requires sound { Sound opening.own opening.parcels memory.old }
    requires room { has_room opening.parcels (book_at memory.old) ≡ true }
    requires found { Err end ≡ search_end memory.old entry.key }
    ensures { IsPut opening.own opening.parcels memory.old memory.new entry }
{
    hang(memory, opening, end, entry);
}
