// The members of a set of places.

ghost use Rattle.std.specs.Prelude.{◌≡◌, ◌≤◌, [], length};

use std::marker::Model;

// The numbers of at most 16 places. It is copied by `=`, and with it what a walk has found.
#[derive(Clone, Copy)]
pub struct Members {
    places: [usize; 16],
    count: usize,
}

impl Model for Members {
    ghost use Rattle.std.specs.Prelude.{◌≡◌, ◌≤◌, ◌++◌, length, take, drop};
    ghost use Rattle.std.proofs.Common.{arith, take-append-drop, length-take-le};
    ghost use Rattle.search.specs.Members.{Members as Places};

    ghost Value = { Places };

    ghost view = { λ m. record { items = take m.count m.places; spare = drop m.count m.places } };

    ghost invariant = { λ m. (m.count ≤ 16) × (length m.places ≡ 16) };

    ghost inverse = { λ m. record { places = m.items ++ m.spare; count = length m.items } };

    ghost inverse_ok = { λ m h i. record {
      places = take-append-drop m.count m.places i;
      count = length-take-le m.count m.places (omega (arith, h.0, h.1)) i;
    } };
}

impl Members {
    // No members.
    pub fn new() -> Members
        ensures { result.items ≡ [] }
    {
        Members {
            places: [0; 16],
            count: 0,
        }
    }

    // A copy of a list of members.
    pub fn of(members: &[usize]) -> Members
        requires { length members.now ≤ 16 }
        ensures { result.items ≡ members.now }
    {
        let mut places = [0; 16];
        places[..members.len()].copy_from_slice(members);
        Members {
            places,
            count: members.len(),
        }
    }

    // How many members there are.
    pub fn len(&self) -> usize
        ensures value { result ≡ length self.now.items }
        ensures fits { result ≤ 16 }
    {
        self.count
    }

    // The members.
    pub fn as_slice(&self) -> &[usize]
        ensures value { result.now ≡ self.now.items }
        ensures fits { length result.now ≤ 16 }
    {
        &self.places[..self.count]
    }
}
