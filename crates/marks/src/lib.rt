// Marks on the ends of the lines: on a breaker its own code, on a place's end the place's number. The places have the file's
// numbers, from 1.
#![tactic(auto)]

ghost use Rattle.std.specs.Prelude.{◌≡◌};
ghost use Rattle.theory.specs.Reading.{Read};
ghost use Rattle.tree.specs.Linked.{LineHeld};
ghost use Rattle.marks.specs.Held.{CodeThere, IsUnmarked, mark_on, breaker_code, HoldsPlaces, HoldsBreakers};

use network::{End, Network};

// The mark of an end as a breaker, by its code.
fn breaker_mark(net: &Network, code: usize) -> Option<u16>
    requires { CodeThere net.now code }
    ensures { result ≡ breaker_code net.now code }
{
    net.is_breaker(tree::end_of(code)).then_some(code as u16)
}

// The mark on each end, by the end's code: a number of 16 bits, since several of these tables lie on the stack, of which C is told how
// much a call needs.
#[derive(Drop)]
pub struct Marks {
    marks: [Option<u16>; 1537],
}

impl Marks {
    // Room for a mark on each end, none of which is marked.
    pub fn new() -> Marks
        ensures { IsUnmarked result }
    {
        Marks {
            marks: [None; 1537],
        }
    }

    // The mark on an end.
    pub fn on(&self, end: End) -> Option<u16>
        requires { LineHeld end.line }
        ensures { result ≡ mark_on self.now end }
    {
        self.marks[tree::code(end)]
    }

    // Marks each place on its end.
    pub fn mark_places(&mut self, net: &Network)
        requires { Read net.now }
        ensures { HoldsPlaces net.now self.new }
    {
        self.marks = [None; 1537];
        for place in (1..net.place_count() + 1).rev() {
            self.marks[tree::code(net.place_end(place))] = Some(place as u16);
        }
    }

    // Marks each breaker with its code.
    pub fn mark_breakers(&mut self, net: &Network)
        requires { Read net.now }
        ensures { HoldsBreakers net.now self.new }
    {
        for code in 1..2 * net.line_count() + 1 {
            self.marks[code] = breaker_mark(net, code);
        }
    }
}
