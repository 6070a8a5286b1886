// A text cut into its lines.
ghost use Rattle.std.specs.Prelude.{◌≡◌, ◌<◌, length};
ghost use Rattle.std.specs.Iterator.{at_most};
ghost use Rattle.player.specs.Cut.{Cuts, FirstLine, text_of, whole};

// What is left of a text, and how many lines were taken from it: the number of the last one is asked for when the
// text is at its end, so it is counted here and not by `enumerate`. (std's `split_inclusive` leaves the newline on
// each piece.)
#[derive(Drop)]
pub struct Lines<'a> {
    rest: &'a [u8],
    taken: u64,
}

// The first line of a text that is not empty, and the rest of the text behind its newline.
fn first_line(text: &[u8]) -> (&[u8], &[u8])
    requires { 0 < length text.now }
    ensures { FirstLine text.now result.0.now result.1.now }
{
    match text.iter().position(|b| *b == b'\n') {
        Some(n) => (&text[..n], &text[n + 1..]),
        None => (text, &[]),
    }
}

impl<'a> Lines<'a> {
    pub fn new(text: &'a [u8]) -> Lines<'a>
        ensures { text_of result ≡ whole text.now }
    {
        Lines {
            rest: text,
            taken: 0,
        }
    }

    // The number of the line that was taken last, from 1 on.
    pub fn number(&self) -> u64
        ensures { result ≡ self.now.taken }
    {
        self.taken
    }
}

// Each line, without its newline.
impl<'a> Iterator for Lines<'a> {
    type Item = &'a [u8];

    ghost next_gives = { λ s r t. Cuts (text_of s) r (text_of t) };

    ghost remaining = { λ s. at_most (length s.rest.now) };

    fn next(&mut self) -> Option<&'a [u8]> {
        if self.rest.is_empty() {
            return None;
        }
        let (line, rest) = first_line(self.rest);
        self.rest = rest;
        self.taken = self.taken.saturating_add(1);
        Some(line)
    }
}
