// What rows over three unknowns with bounds of −2 to 2 say, by looking at every point of a box. The greatest value of a side,
// where there is one, is at most the limit, so a greater one found in the box says that there is none.
use theory::row::{Row, Side, Sign};

pub const UNKNOWNS: u32 = 3;

// The box has the values from −reach to reach for each unknown.
#[derive(Clone, Copy)]
pub struct Oracle {
    reach: u32,
    limit: i64,
}

// Enough where rows bound differences.
pub const DIFFERENCES: Oracle = Oracle { reach: 8, limit: 4 };

// Enough where rows bound sums too.
pub const SUMS: Oracle = Oracle {
    reach: 16,
    limit: 10,
};

type Point = [i64; 3];

fn signed(sign: Sign, x: i64) -> i64 {
    match sign {
        Sign::Zero => 0,
        Sign::Plus => x,
        Sign::Minus => x.wrapping_neg(),
    }
}

// What the side comes to where the unknowns have these values.
pub(crate) fn value<X: Fn(u32) -> i64>(side: Side, x: X) -> i64
    requires { X.IsAlwaysCallable x }
{
    signed(side.a, x(side.u)).wrapping_add(signed(side.b, x(side.v)))
}

fn value_at(side: Side, at: &Point) -> i64 {
    value(side, |unknown| {
        at.get(unknown as usize).copied().unwrap_or(0)
    })
}

fn meets_all(at: &Point, rows: &[Row]) -> bool {
    rows.iter().all(|row| value_at(row.side, at) <= row.c)
}

impl Oracle {
    // The greatest value of the side over the points of the box that meet all rows, or nothing where none does.
    fn greatest_in_box(&self, rows: &[Row], side: Side) -> Option<i64> {
        let reach = i64::from(self.reach);
        let mut best: Option<i64> = None;
        for z in -reach..=reach {
            for y in -reach..=reach {
                for x in -reach..=reach {
                    let at = [x, y, z];
                    if meets_all(&at, rows) {
                        best = best.max(Some(value_at(side, &at)));
                    }
                }
            }
        }
        best
    }

    pub(crate) fn is_feasible(&self, rows: &[Row]) -> bool {
        let any = Side {
            a: Sign::Plus,
            b: Sign::Zero,
            u: 0,
            v: 0,
        };
        self.greatest_in_box(rows, any).is_some()
    }

    pub(crate) fn tightest(&self, rows: &[Row], side: Side) -> Option<i64> {
        self.greatest_in_box(rows, side)
            .filter(|most| *most <= self.limit)
    }
}
