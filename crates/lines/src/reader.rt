// Cuts a line into tokens: words (runs of letters), numbers (runs of digits) and marks.
ghost use Rattle.std.specs.Prelude.{◌≡◌, ℕ, ◌+◌, ◌^◌, ◌<◌, ◌≤◌, ◌↔◌, Bool, false, List, [], drop, length, IsTrue, IsOk, IfOk, OnOk, MatchBool, MatchResult, ◌==◌, cond, codes};
ghost use Rattle.std.specs.Char.{is_ascii_alphabetic, is_ascii_digit};
ghost use Rattle.std.specs.Fn.{FnReturnsAt};
ghost use Rattle.std.specs.List.{prefix_len, take_while, starts_with};
ghost use Rattle.std.specs.Option.{SomeIff};
ghost use Rattle.std.specs.Result.{OkIff};
ghost use Rattle.lines.specs.Decimal.{value_of};
ghost use Rattle.lines.specs.Tokens.{AnswersAs, first_passes, is_blank, is_foreign, without_blanks, behind, first_number, HasNumberBelow, Stand, byte_tokens};
ghost use Rattle.lines.specs.Faults.{IsNotAscii, IsExpected, IsExpectedToken};
ghost use Rattle.lines.specs.declared.fault.Fault.TheVariants.{NoLine, NoMemory};

use crate::fault::Fault;
use std::alloc::Global;
use std::marker::Model;

fn is_blank(b: &u8) -> bool
    ensures { result ≡ is_blank b.now }
{
    matches!(b, b' ' | b'\t' | b'\r')
}

// How many bytes at the front pass a test.
fn run_len<F: Fn(&u8) -> bool>(bytes: &[u8], passes: F) -> usize
    requires { F.IsAlwaysCallable passes }
    ensures bound { result ≤ length bytes.now }
    ensures value { (test : ℕ → Bool) → AnswersAs test (FnReturnsAt F.Fn passes) → result ≡ prefix_len test bytes.now }
{
    bytes.iter().position(|b| !passes(b)).unwrap_or(bytes.len())
}

fn without_blanks(bytes: &[u8]) -> &[u8]
    ensures value { result.now ≡ without_blanks bytes.now }
    ensures no_blank { first_passes is_blank result.now ≡ false }
{
    &bytes[run_len(bytes, is_blank)..]
}

// The number that decimal digits stand for, if four bytes hold it. Leading zeros are fine. (std's `parse` takes a str,
// which these bytes would have to be shown to be.)
fn value_of(digits: &[u8]) -> Option<u32>
    ensures { SomeIff result (value_of digits.now < 2 ^ 32) (value_of digits.now) }
{
    let mut value: u32 = 0;
    for d in digits {
        // What is passed are digits, so nothing is cut off here.
        let digit = u32::from(d.saturating_sub(b'0'));
        value = value.checked_mul(10)?.checked_add(digit)?;
    }
    Some(value)
}

// What is said to be expected in place of these bytes, where a number should stand.
fn number_for(rest: &[u8]) -> &'static str
    ensures { result.now ≡ cond (first_passes (λ b. b == 45) rest.now) (codes "a number without a sign") (codes "a number") }
{
    match rest {
        [b'-', ..] => "a number without a sign",
        _ => "a number",
    }
}

// The same where the line should end.
fn end_for(rest: &[u8]) -> &'static str
    ensures { result.now ≡ cond (first_passes (λ b. b == 35) rest.now) (codes "the end of the line (a comment has a line of its own)") (codes "the end of the line") }
{
    match rest {
        [b'#', ..] => "the end of the line (a comment has a line of its own)",
        _ => "the end of the line",
    }
}

// What is left of a line, the heap for what is read from it, and what is shown where the line doesn't fit.
#[derive(Drop)]
pub struct Reader<'a> {
    heap: Global,
    rest: &'a [u8],
    // A line of the form that this one has so far.
    example: &'static str,
}

// What is left. No blank stands at its front.
impl<'a> Model for Reader<'a> {
    ghost Value = { List ℕ };

    ghost view = { λ r. r.rest.now };

    ghost invariant = { λ r. first_passes is_blank r.rest.now ≡ false };
}

impl<'a> Reader<'a> {
    pub fn new(heap: Global, line: &'a [u8]) -> Reader<'a>
        ensures { result ≡ without_blanks line.now }
    {
        Reader {
            heap,
            rest: without_blanks(line),
            example: "at 0: sums",
        }
    }

    // Says what a line of the form looks like that this one has so far.
    pub fn set_example(&mut self, example: &'static str)
        ensures { self.new ≡ self.old }
    {
        self.example = example;
    }

    // What is said where no line begins as this one does.
    pub fn no_line(&self) -> Fault
        ensures { MatchBool (first_passes is_foreign self.now) (IsNotAscii result) (result ≡ NoLine) }
    {
        Fault::NoLine.at(self.rest, "3 offices, 8 parcels")
    }

    // What is said where something else is expected.
    pub fn expected(&self, what: &'static str) -> Fault
        ensures { MatchBool (first_passes is_foreign self.now) (IsNotAscii result) (IsExpected what.entry result) }
    {
        let example = self.example;
        Fault::Expected { what, example }.at(self.rest, example)
    }

    // The same of a word or a mark.
    fn expected_token(&self, token: &'static str) -> Fault
        ensures { MatchBool (first_passes is_foreign self.now) (IsNotAscii result) (IsExpectedToken token.entry result) }
    {
        let example = self.example;
        Fault::ExpectedToken { token, example }.at(self.rest, example)
    }

    // Whether nothing is left.
    pub fn at_end(&self) -> bool
        ensures { result ≡ (length self.now == 0) }
    {
        self.rest.is_empty()
    }

    pub fn at_comment(&self) -> bool
        ensures { result ≡ first_passes (λ b. b == 35) self.now }
    {
        matches!(self.rest, [b'#', ..])
    }

    pub fn at_number(&self) -> bool
        ensures { result ≡ first_passes is_ascii_digit self.now }
    {
        self.rest.first().is_some_and(u8::is_ascii_digit)
    }

    // Goes past the first `n` bytes, and the blanks after them.
    fn pass(&mut self, n: usize)
        requires { n ≤ length self.old }
        ensures { self.new ≡ without_blanks (drop n self.old) }
    {
        self.rest = without_blanks(&self.rest[n..]);
    }

    // Takes the bytes at the front that pass a test: none, if the next byte does not.
    fn run<F: Fn(&u8) -> bool>(&mut self, passes: F) -> &'a [u8]
        requires { F.IsAlwaysCallable passes }
        ensures value { (test : ℕ → Bool) → AnswersAs test (FnReturnsAt F.Fn passes) → result.now ≡ take_while test self.old }
        ensures after { (test : ℕ → Bool) → AnswersAs test (FnReturnsAt F.Fn passes) → self.new ≡ behind test self.old }
        ensures shorter { length result.now + length self.new ≤ length self.old }
    {
        let n = run_len(self.rest, passes);
        let run = &self.rest[..n];
        self.pass(n);
        run
    }

    // Takes the next word, which is empty if no letter stands next.
    pub fn word(&mut self) -> &'a [u8]
        ensures value { result.now ≡ take_while is_ascii_alphabetic self.old }
        ensures after { self.new ≡ behind is_ascii_alphabetic self.old }
    {
        self.run(u8::is_ascii_alphabetic)
    }

    // Takes a word that has to stand next.
    pub fn expect(&mut self, word: &'static str) -> Result<(), Fault>
        ensures value { IsOk result ↔ (take_while is_ascii_alphabetic self.old ≡ word.now) }
        ensures after { self.new ≡ behind is_ascii_alphabetic self.old }
    {
        let found = self.word() == word.as_bytes();
        found.then_some(()).ok_or(self.expected_token(word))
    }

    // Takes a mark if it stands next.
    pub fn take(&mut self, mark: &str) -> bool
        ensures value { result ≡ starts_with ◌==◌ self.old mark.now }
        ensures after { self.new ≡ cond result (without_blanks (drop (length mark.now) self.old)) self.old }
    {
        let found = self.rest.starts_with(mark.as_bytes());
        if found {
            self.pass(mark.len());
        }
        found
    }

    // Takes a mark that has to stand next.
    pub fn expect_mark(&mut self, mark: &'static str) -> Result<(), Fault>
        ensures value { IsOk result ↔ IsTrue (starts_with ◌==◌ self.old mark.now) }
        ensures after { OnOk result (self.new ≡ without_blanks (drop (length mark.now) self.old)) }
    {
        let found = self.take(mark);
        found.then_some(()).ok_or(self.expected_token(mark))
    }

    pub fn end(&self) -> Result<(), Fault>
        ensures { IsOk result ↔ (self.now ≡ []) }
    {
        let end = end_for(self.rest);
        self.at_end().then_some(()).ok_or(self.expected(end))
    }

    // (The hint is for lines of very many bytes.)
    #[inline]
    pub fn number(&mut self) -> Result<u32, Fault>
        ensures value { OkIff result (HasNumberBelow (2 ^ 32) self.old) (first_number self.old) }
        ensures after { self.new ≡ behind is_ascii_digit self.old }
    {
        let digits = self.run(u8::is_ascii_digit);
        if digits.is_empty() {
            return Err(self.expected(number_for(self.rest)));
        }
        value_of(digits).ok_or(Fault::TooLarge)
    }

    pub fn byte(&mut self) -> Result<u8, Fault>
        ensures value { OkIff result (HasNumberBelow (2 ^ 8) self.old) (first_number self.old) }
        ensures after { self.new ≡ behind is_ascii_digit self.old }
        ensures shorter { OnOk result (length self.new < length self.old) }
    {
        let byte = self.number().ok().and_then(|n| u8::try_from(n).ok());
        // by a closure, so that a fault is made only where one is shown: a line may have many bytes
        byte.ok_or_else(|| self.expected("a byte from 0 to 255"))
    }

    // Takes bytes up to the line's end.
    pub fn bytes(&mut self) -> Result<Vec<u8>, Fault>
        ensures value { IfOk result (λ bytes. Stand (byte_tokens bytes.items) self.old self.new) }
        ensures reads { (values : List ℕ) → Stand (byte_tokens values) self.old [] → MatchResult result (λ bytes. bytes.items ≡ values) (λ fault. fault ≡ NoMemory) }
    {
        let mut bytes = Vec::new(self.heap);
        while !self.at_end() {
            bytes.push(self.byte()?)?;
        }
        Ok(bytes)
    }
}
