// What calls and answers carry, as numbers.
ghost use Rattle.std.specs.Prelude.{◌≡◌, ◌*◌, ◌<◌, ◌≤◌, ◌∷◌, ℕ, Bool, true, List, length, refl};
ghost use Rattle.std.proofs.lemmas.Bool.{leb-true};
ghost use Rattle.parcels.specs.Numbers.{four_bytes, eight_bytes, all_below, slip_values, step_values, refusal_values};
ghost use Rattle.wire.specs.Layout.{in_row, Written};
ghost use Rattle.wire.specs.Carried.{none_fit, none_values, field_fits, one_values, pair_fits, pair_values, FromNumbers, AreCarried};
ghost use Rattle.wire.specs.Answers.{refusal_fits, slip_fits, step_fits, one_fits};
ghost use Rattle.wire.specs.CarriedLaws.{field_small, refusal_small, step_small, slip_small, one_small, pair_small, pair_count, pair_every, every_none, every_field, every_slip};

use crate::number::write_number;
use parcels::{Kind, Reason, Refusal, Slip, Step};

// What is carried as N numbers.
pub trait Numbers<const N: usize>: Drop {
    // whether each of its numbers is as small as its type has it, as those of every value in memory are
    ghost fits: { Self → Bool };

    // its numbers, in their order
    ghost values: { Self → List ℕ };

    fn numbers(self) -> [u64; N]
        ensures { result ≡ values self };

    // What these numbers are; None where they are nothing of the kind. Each impl repeats the clause, which the check
    // doesn't hand on where an array is passed by value.
    fn from_numbers(numbers: [u64; N]) -> Option<Self>
        ensures { FromNumbers fits values numbers.entry result };

    // each fits eight bytes
    ghost small: { (x : Self) → fits x ≡ true → all_below eight_bytes (values x) ≡ true };

    // there are so many
    ghost count: { (x : Self) → length (values x) ≡ N };

    // nothing has more than a slip's six
    ghost few: { N ≤ 6 };
}

// What a call carries in N fields, for which any numbers of four bytes stand.
pub trait Fields<const N: usize>: Numbers<N> {
    ghost every: { (ns : List ℕ) → length ns ≡ N → all_below four_bytes ns ≡ true → AreCarried Self.fits Self.values ns };
}

// Writes a first byte and behind it what is carried, by numbers of W bytes each, and says how many bytes that takes.
pub fn write_row<const W: usize, T: Numbers<N>, const N: usize>(
    first: u8,
    carried: T,
    out: &mut [u8],
) -> usize
    requires room { W ≤ 8 }
    requires lent { W * N < length out.old }
    ensures { Written (first ∷ in_row W (T.values carried)) out.old out.new result }
{
    out[0] = first;
    // by ranges: of what a slice holds once its chunks_exact_mut are written, std's contract says nothing
    for (i, n) in carried.numbers().iter().enumerate() {
        write_number(*n, &mut out[1 + W * i..1 + W * i + W]);
    }
    1 + W * N
}

impl Numbers<0> for () {
    ghost fits = { none_fit };

    ghost values = { none_values };

    fn numbers(self) -> [u64; 0] {
        []
    }

    fn from_numbers(numbers: [u64; 0]) -> Option<()>
        ensures { FromNumbers none_fit none_values numbers result }
    {
        let [] = numbers;
        Some(())
    }

    ghost small = { λ _ _. refl };

    ghost count = { λ _. refl };

    ghost few = { leb-true 0 6 refl };
}

impl Fields<0> for () {
    ghost every = { every_none };
}

impl Numbers<1> for u64 {
    ghost fits = { one_fits };

    ghost values = { one_values };

    fn numbers(self) -> [u64; 1] {
        [self]
    }

    fn from_numbers(numbers: [u64; 1]) -> Option<u64>
        ensures { FromNumbers one_fits one_values numbers result }
    {
        let [n] = numbers;
        Some(n)
    }

    ghost small = { one_small };

    ghost count = { λ _. refl };

    ghost few = { leb-true 1 6 refl };
}

impl Numbers<1> for u32 {
    ghost fits = { field_fits };

    ghost values = { one_values };

    fn numbers(self) -> [u64; 1] {
        [u64::from(self)]
    }

    fn from_numbers(numbers: [u64; 1]) -> Option<u32>
        ensures { FromNumbers field_fits one_values numbers result }
    {
        let [n] = numbers;
        u32::try_from(n).ok()
    }

    ghost small = { field_small };

    ghost count = { λ _. refl };

    ghost few = { leb-true 1 6 refl };
}

impl Fields<1> for u32 {
    ghost every = { every_field };
}

impl<A: Numbers<1>, B: Numbers<1>> Numbers<2> for (A, B) {
    ghost fits = { pair_fits A.fits B.fits };

    ghost values = { pair_values A.values B.values };

    fn numbers(self) -> [u64; 2] {
        let (a, b) = self;
        let [m] = a.numbers();
        let [n] = b.numbers();
        [m, n]
    }

    fn from_numbers(numbers: [u64; 2]) -> Option<(A, B)>
        ensures { FromNumbers (pair_fits A.fits B.fits) (pair_values A.values B.values) numbers result }
    {
        let [m, n] = numbers;
        Some((A::from_numbers([m])?, B::from_numbers([n])?))
    }

    ghost small = { pair_small A.fits A.values B.fits B.values A.small B.small };

    ghost count = { pair_count A.fits A.values B.fits B.values A.count B.count };

    ghost few = { leb-true 2 6 refl };
}

impl<A: Fields<1>, B: Fields<1>> Fields<2> for (A, B) {
    ghost every = { pair_every A.fits A.values B.fits B.values A.every B.every };
}

impl Numbers<2> for Refusal {
    ghost fits = { refusal_fits };

    ghost values = { refusal_values };

    fn numbers(self) -> [u64; 2] {
        [u64::from(u8::from(self.reason)), self.place]
    }

    fn from_numbers(numbers: [u64; 2]) -> Option<Refusal>
        ensures { FromNumbers refusal_fits refusal_values numbers result }
    {
        let [reason, place] = numbers;
        let reason = Reason::try_from(reason).ok()?;
        Some(Refusal { reason, place })
    }

    ghost small = { refusal_small };

    ghost count = { λ _. refl };

    ghost few = { leb-true 2 6 refl };
}

impl Numbers<3> for Step {
    ghost fits = { step_fits };

    ghost values = { step_values };

    fn numbers(self) -> [u64; 3] {
        [
            self.number,
            u64::from(u8::from(self.kind)),
            u64::from(self.office),
        ]
    }

    fn from_numbers(numbers: [u64; 3]) -> Option<Step>
        ensures { FromNumbers step_fits step_values numbers result }
    {
        let [number, kind, office] = numbers;
        let kind = Kind::try_from(kind).ok()?;
        let office = u32::try_from(office).ok()?;
        Some(Step {
            number,
            kind,
            office,
        })
    }

    ghost small = { step_small };

    ghost count = { λ _. refl };

    ghost few = { leb-true 3 6 refl };
}

impl Numbers<6> for Slip {
    ghost fits = { slip_fits };

    ghost values = { slip_values };

    fn numbers(self) -> [u64; 6] {
        [
            u64::from(self.key),
            self.step,
            u64::from(self.from),
            u64::from(self.to),
            u64::from(self.dest),
            u64::from(self.amount),
        ]
    }

    fn from_numbers(numbers: [u64; 6]) -> Option<Slip>
        ensures { FromNumbers slip_fits slip_values numbers result }
    {
        let [key, step, from, to, dest, amount] = numbers;
        Some(Slip {
            key: u32::try_from(key).ok()?,
            step,
            from: u32::try_from(from).ok()?,
            to: u32::try_from(to).ok()?,
            dest: u32::try_from(dest).ok()?,
            amount: u32::try_from(amount).ok()?,
        })
    }

    ghost small = { slip_small };

    ghost count = { λ _. refl };

    ghost few = { leb-true 6 6 refl };
}

impl Fields<6> for Slip {
    ghost every = { every_slip };
}
