// Random sides, rows and calls.
ghost use Rattle.std.specs.Prelude.{◌≡◌, ◌<◌, ◌≤◌, false, unsigned_abs};
ghost use Rattle.trying.specs.Draws.{IsDifference, IsSide, IsAbout};
ghost use Rattle.theory.specs.Rules.{breadth_of, zero_sign};
ghost use Rattle.theory.specs.declared.sizes.Breadth.TheVariants.{Differences};

use histories::Call;
use theory::row::{Row, Side, Sign};

// A linear congruential generator, and the number of unknowns that sides are drawn from. Each method says that the number stays,
// since the field is public.
#[derive(Clone, Copy)]
pub struct Dice {
    state: u64,
    pub unknowns: u32,
    ghost some: { 0 < unknowns },
}

impl Dice {
    pub fn new(seed: u64, unknowns: u32) -> Dice
        requires { 0 < unknowns }
        ensures { result.unknowns ≡ unknowns }
    {
        Dice {
            state: seed,
            unknowns,
        }
    }

    // A number below n, which is not 0.
    pub fn roll(&mut self, n: u64) -> u64
        requires { 0 < n }
        ensures below { result < n }
        ensures unknowns { self.new.unknowns ≡ self.old.unknowns }
    {
        self.state = self
            .state
            .wrapping_mul(6364136223846793005)
            .wrapping_add(1442695040888963407);
        (self.state >> 33) % n
    }

    fn unknown(&mut self) -> u32
        ensures below { result < self.old.unknowns }
        ensures unknowns { self.new.unknowns ≡ self.old.unknowns }
    {
        self.roll(u64::from(self.unknowns)) as u32
    }

    fn sign(&mut self) -> Sign
        ensures sign { zero_sign result ≡ false }
        ensures unknowns { self.new.unknowns ≡ self.old.unknowns }
    {
        if self.roll(2) == 0 {
            Sign::Plus
        } else {
            Sign::Minus
        }
    }

    // A difference of two unknowns, now and then of one and itself: the unknowns first, then the sign.
    pub fn difference(&mut self) -> Side
        ensures side { IsDifference self.old.unknowns result }
        ensures unknowns { self.new.unknowns ≡ self.old.unknowns }
    {
        let u = self.unknown();
        let v = self.unknown();
        difference_of(self.sign(), u, v)
    }

    // The same, the sign first: a second order of draws, so that each program's random rows are the ones that it always had.
    pub fn signed_difference(&mut self) -> Side
        ensures side { IsDifference self.old.unknowns result }
        ensures unknowns { self.new.unknowns ≡ self.old.unknowns }
    {
        difference_of(self.sign(), self.unknown(), self.unknown())
    }

    // A bound, a difference or a sum.
    pub fn side(&mut self) -> Side
        ensures side { IsSide self.old.unknowns result }
        ensures unknowns { self.new.unknowns ≡ self.old.unknowns }
    {
        let a = self.sign();
        let u = self.unknown();
        if self.roll(4) == 0 {
            return Side {
                a,
                b: Sign::Zero,
                u,
                v: 0,
            };
        }
        let b = self.sign();
        let v = self.unknown();
        Side { a, b, u, v }
    }

    // The side, bounded by a number of −2 to 2.
    fn bound(&mut self, side: Side) -> Row
        ensures side { result.side ≡ side }
        ensures small { unsigned_abs result.c ≤ 2 }
        ensures unknowns { self.new.unknowns ≡ self.old.unknowns }
    {
        let c = self.roll(5) as i64 - 2;
        Row { side, c }
    }

    // Offers and questions mostly, of differences.
    pub fn difference_call(&mut self) -> Call
        ensures call { IsAbout (IsDifference self.old.unknowns) result }
        ensures unknowns { self.new.unknowns ≡ self.old.unknowns }
    {
        match self.roll(8) {
            0 => Call::Push,
            1 => Call::Pop,
            2..=4 => Call::Tightest(self.difference()),
            _ => {
                let side = self.difference();
                Call::Offer(self.bound(side))
            }
        }
    }

    // Offers and questions mostly, of all sides, and rows at their places: other chances than above, for the same reason.
    pub fn call(&mut self) -> Call
        ensures call { IsAbout (IsSide self.old.unknowns) result }
        ensures unknowns { self.new.unknowns ≡ self.old.unknowns }
    {
        match self.roll(9) {
            0 => Call::Push,
            1 => Call::Pop,
            2 => Call::RowAt(self.roll(8) as u32),
            3..=5 => Call::Tightest(self.side()),
            _ => {
                let side = self.side();
                Call::Offer(self.bound(side))
            }
        }
    }
}

// The difference of u and v where a is plus, of v and u where it is minus.
fn difference_of(a: Sign, u: u32, v: u32) -> Side
    requires { zero_sign a ≡ false }
    ensures u { result.u ≡ u }
    ensures v { result.v ≡ v }
    ensures breadth { breadth_of result.a result.b ≡ Differences }
{
    let b = match a {
        Sign::Zero => Sign::Zero,
        Sign::Plus => Sign::Minus,
        Sign::Minus => Sign::Plus,
    };
    Side { a, b, u, v }
}
