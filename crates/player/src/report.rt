// What playing a world file comes to, as text.
ghost use Rattle.std.specs.Prelude.{◌≡◌, [], ◌++◌, Some, string_bytes, MatchResult};
ghost use Rattle.world.specs.declared.CannotHappen.TheVariants.{NoMemory};
ghost use Rattle.world.specs.View.{limits_of, journal_of};
ghost use Rattle.player.specs.declared.trouble.Trouble.TheVariants.{Impossible};
ghost use Rattle.player.specs.declared.report.End.TheVariants.{Stopped};
ghost use Rattle.player.specs.Cut.{text_of, whole};
ghost use Rattle.player.specs.Limits.{small};
ghost use Rattle.player.specs.Run.{OpensFile, Runs, at_of, answer_line};
ghost use Rattle.player.specs.Report.{stop_line, place_line, ShowsPlaces, ShowsAnswers, Locates, Concludes, Reports, ReportsPlaces};
ghost use Rattle.player.specs.Texts.{bad_line_text};

use crate::happen::{MAX_PLAYED_LETTERS, Player};
use crate::split::Lines;
use crate::trouble::{Stop, Trouble};
use answers::{AnswerText, Located};
use lines::{Line, read_line};
use parcels::{Answer, Step};
use std::alloc::Global;
use std::fmt;
use std::fmt::Write;
use tracking::last_steps;
use world::{CannotHappen, World};

// The most offices of a world that is played, and the most parcels of each.
const MAX_PLAYED_OFFICES: u32 = 4;

const MAX_PLAYED_PARCELS: u32 = 64;

// How a file without a bad line came to its end: all of it was done; or it stopped, since letters or things that
// happened were too many.
#[derive(Clone, Copy, Debug, PartialEq, Eq)]
pub enum End {
    Done,
    Stopped,
}

// A line at which a file came to its end, and what is wrong with it.
#[derive(Drop)]
pub struct BadLine {
    pub line: u64,
    pub trouble: Trouble,
}

// By hand, as that of `Trouble`.
impl fmt::Display for BadLine {
    ghost output = { λ x. Some (bad_line_text x) };

    fn fmt<W: fmt::Write>(&self, f: &mut fmt::Formatter<W>) -> fmt::Result {
        write!(f, "{}: {}", self.line, self.trouble)
    }
}

// What is shown of a file, and how it came to its end.
#[derive(Drop)]
pub struct Report {
    pub shown: String,
    pub end: Result<End, BadLine>,
}

// Whether a world is small enough to be played.
fn is_small(offices: u32, parcels: u32) -> bool
    ensures { result ≡ small offices parcels }
{
    offices <= MAX_PLAYED_OFFICES && parcels <= MAX_PLAYED_PARCELS
}

// Writes an answer as a line, or nothing where there is no memory for all of it. So it is written apart first, into a text
// that serves for one answer after the other.
fn show(answer: Answer, line: &mut String, shown: &mut String) -> Result<(), Trouble>
    ensures { MatchResult result (λ _. string_bytes shown.new ≡ string_bytes shown.old ++ answer_line (Some answer)) (λ e. (e ≡ Impossible NoMemory) × (string_bytes shown.new ≡ string_bytes shown.old)) }
{
    line.clear();
    writeln!(line, "{}", AnswerText(answer))?;
    shown.push_str(line.as_str())?;
    Ok(())
}

// Writes where a parcel is as a line.
fn show_place(key: u32, step: Step, shown: &mut String) -> Result<(), Trouble>
    ensures { MatchResult result (λ _. string_bytes shown.new ≡ string_bytes shown.old ++ place_line key step) (λ e. e ≡ Impossible NoMemory) }
{
    writeln!(shown, "{}", Located { key, step })?;
    Ok(())
}

// Why a world stopped, as a line, where no line of its file is to blame: so the file ends. (No function with `show`:
// each states a text of its own.)
fn show_stop(heap: Global, what: &str, most: usize, shown: &mut String) -> Result<End, Trouble>
    ensures { MatchResult result (λ end. (end ≡ Stopped) × (string_bytes shown.new ≡ string_bytes shown.old ++ stop_line most what.now)) (λ e. (e ≡ Impossible NoMemory) × (string_bytes shown.new ≡ string_bytes shown.old)) }
{
    let line = format!(in heap; "stopped: more than {most} {what}\n")?;
    shown.push_str(line.as_str())?;
    Ok(End::Stopped)
}

// Where each parcel of a world is: a line for each, in the order of keys.
fn places(heap: Global, world: &World) -> Result<String, Trouble>
    ensures { MatchResult result (λ shown. ShowsPlaces (limits_of world.now) (journal_of world.now) (string_bytes shown)) (λ e. e ≡ Impossible NoMemory) }
{
    let mut shown = String::new(heap);
    let steps = last_steps(heap, world)?;
    for (key, step) in &steps {
        show_place(*key, *step, &mut shown)?;
    }
    Ok(shown)
}

// A world file that is played: the lines that are left, how many things may happen, and what is shown so far. (Lines are
// taken by `while let`: what a `for` over `&mut` lines leaves of them is not known behind it.)
#[derive(Drop)]
struct Playing<'a> {
    heap: Global,
    lines: Lines<'a>,
    budget: u32,
    // the line of the answer that was shown last
    answer: String,
    shown: String,
}

impl<'a> Playing<'a> {
    fn new(heap: Global, file: &'a [u8], budget: u32) -> Playing<'a>
        ensures lines { text_of result.lines ≡ whole file.now }
        ensures budget { result.budget ≡ budget }
        ensures shown { string_bytes result.shown ≡ [] }
    {
        Playing {
            heap,
            lines: Lines::new(file),
            budget,
            answer: String::new(heap),
            shown: String::new(heap),
        }
    }

    // Opens the world that the first line that is not blank asks for.
    fn open(&mut self) -> Result<World, Trouble>
        ensures value { OpensFile (text_of self.old.lines) result (text_of self.new.lines) }
        ensures budget { self.new.budget ≡ self.old.budget }
        ensures shown { self.new.shown ≡ self.old.shown }
    {
        while let Some(line) = self.lines.next() {
            match read_line(self.heap, line)? {
                Line::Blank => {}
                Line::Opening { offices, parcels } => {
                    if !is_small(offices, parcels) {
                        return Err(CannotHappen::BadLimits.into());
                    }
                    return Ok(World::open(self.heap, offices, parcels)?);
                }
                _ => return Err(Trouble::NotOpened),
            }
        }
        Err(Trouble::NeverOpened)
    }

    // Lets happen what the lines say, and writes the answers.
    fn run(&mut self, player: &mut Player) -> Result<(), Stop>
        ensures value { Runs (limits_of player.old.world) (at_of self.old player.old) result (at_of self.new player.new) }
        ensures budget { self.new.budget ≡ self.old.budget }
        ensures same { limits_of player.new.world ≡ limits_of player.old.world }
    {
        while let Some(line) = self.lines.next() {
            if let Some(answer) = player.happen(read_line(self.heap, line)?)? {
                show(answer, &mut self.answer, &mut self.shown)?;
            }
            // a call may have sent letters, too: its answer is shown first
            player.count_letters()?;
        }
        Ok(())
    }

    // Plays the file, and leaves the answers to be shown.
    fn play(&mut self) -> Result<(), Stop>
        requires { string_bytes self.old.shown ≡ [] }
        ensures value { ShowsAnswers (text_of self.old.lines) self.old.budget result (text_of self.new.lines) (string_bytes self.new.shown) }
        ensures budget { self.new.budget ≡ self.old.budget }
    {
        let world = self.open()?;
        self.run(&mut Player::new(world, self.budget))
    }

    // Plays the file, and leaves to be shown where each parcel is in the end, whether or not all of the file was done.
    fn locate(&mut self) -> Result<(), Stop>
        requires { string_bytes self.old.shown ≡ [] }
        ensures value { Locates (text_of self.old.lines) self.old.budget result (text_of self.new.lines) (string_bytes self.new.shown) }
        ensures budget { self.new.budget ≡ self.old.budget }
    {
        let world = self.open()?;
        let mut player = Player::new(world, self.budget);
        let ran = self.run(&mut player);
        // the answers are not shown
        self.shown.clear();
        self.shown = places(self.heap, player.world())?;
        ran
    }

    // The report of a run that ended so at the line that was taken last.
    fn conclude(mut self, ran: Result<(), Stop>) -> Report
        ensures { Concludes ran self.entry.lines.taken self.entry.budget (string_bytes self.entry.shown) result }
    {
        let taken = self.lines.number();
        let end = match ran {
            Ok(()) => Ok(End::Done),
            Err(Stop::TooManyLetters) => {
                show_stop(
                    self.heap,
                    "letters were sent",
                    MAX_PLAYED_LETTERS,
                    &mut self.shown,
                )
            }
            Err(Stop::BudgetSpent) => {
                show_stop(
                    self.heap,
                    "things happened",
                    self.budget as usize,
                    &mut self.shown,
                )
            }
            Err(Stop::Bad(trouble)) => Err(trouble),
        };
        Report {
            shown: self.shown,
            end: end.map_err(|trouble| BadLine {
                line: trouble.line(taken),
                trouble,
            }),
        }
    }
}

// Plays a world file in which at most so many things happen: an answer for each call.
pub fn play(heap: Global, file: &[u8], budget: u32) -> Report
    ensures { Reports file.now budget result }
{
    let mut playing = Playing::new(heap, file, budget);
    let ran = playing.play();
    playing.conclude(ran)
}

// Plays a world file in which at most so many things happen, and tells of each parcel, in the order of keys, where it is
// by what was taken everywhere.
pub fn locate(heap: Global, file: &[u8], budget: u32) -> Report
    ensures { ReportsPlaces file.now budget result }
{
    let mut playing = Playing::new(heap, file, budget);
    let ran = playing.locate();
    playing.conclude(ran)
}
