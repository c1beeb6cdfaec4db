// Weights, customers and outage totals as types of their own. A weight belongs to a line and a customer count to a station;
// only their product is an outage amount.
#![tactic(auto)]

ghost use Rattle.std.specs.Prelude.{◌≡◌, ◌+◌, ◌*◌, ◌^◌, ◌<◌, ltb};

use std::ops::{Add, AddAssign, Mul};

// A line's weight, in millionths of a failure a year.
#[derive(Clone, Copy, Debug, PartialEq, Eq, PartialOrd, Ord)]
pub struct Weight(pub u64);

// A number of customers.
#[derive(Clone, Copy, Debug, PartialEq, Eq, PartialOrd, Ord)]
pub struct Customers(pub u64);

// An outage amount, or a sum of such amounts. The field is private: only `Total::ZERO`, the product of a weight with customers
// and the sum of two totals make one.
#[derive(Clone, Copy, Debug, PartialEq, Eq, PartialOrd, Ord)]
pub struct Total(u64);

// The outage amount of a fault: the line's weight times the customers cut off.
impl Mul<Customers> for Weight {
    type Output = Total;

    ghost can_mul = { λ weight customers. weight.0 * customers.0 < 2 ^ 64 };

    ghost mul_gives = { λ weight customers total. total.0 ≡ weight.0 * customers.0 };

    fn mul(self, customers: Customers) -> Total {
        Total(self.0 * customers.0)
    }
}

// The total with one more outage amount.
impl Add for Total {
    type Output = Total;

    ghost can_add = { λ a b. a.0 + b.0 < 2 ^ 64 };

    ghost add_gives = { λ a b total. total.0 ≡ a.0 + b.0 };

    fn add(self, amount: Total) -> Total {
        Total(self.0 + amount.0)
    }
}

impl AddAssign for Total {
    ghost can_add_assign = { λ a b. a.0 + b.0 < 2 ^ 64 };

    ghost add_assign_gives = { λ a b total. total.0 ≡ a.0 + b.0 };

    fn add_assign(&mut self, amount: Total) {
        *self = *self + amount;
    }
}

// The total as a number.
impl From<Total> for u64 {
    ghost from_gives = { λ total number. number ≡ total.0 };

    fn from(total: Total) -> u64 {
        total.0
    }
}

impl Total {
    pub const ZERO: Total = Total(0);

    // Whether this total, with at most `more` added, can pass another.
    pub fn can_pass(self, more: u64, other: Total) -> bool
        requires { self.0 + more < 2 ^ 64 }
        ensures { result ≡ ltb other.0 (self.0 + more) }
    {
        other.0 < self.0 + more
    }
}
