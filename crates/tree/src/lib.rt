// The tree of a radial network: the closed ends at each station, how each line is fed, and the lines from the HV stations outwards.
#![tactic(auto)]

ghost use Rattle.std.specs.Prelude.{ℕ, ◌+◌, ◌-◌, ◌^◌, ◌<◌, ◌≡◌, None, [], length, get_or, take};
ghost use Rattle.model.specs.Paths.{is_open};
ghost use Rattle.theory.specs.Reading.{Read};
ghost use Rattle.theory.specs.Radial.{Rules};
ghost use Rattle.theory.specs.Behind.{far};
ghost use Rattle.network.specs.There.{LineThere};
ghost use Rattle.tree.specs.Linked.{end_code, code_end, LineHeld, EndHeld};
ghost use Rattle.tree.specs.Held.{HasList, listed_ends, HoldsLists, noted_near, HasEnds, ends_in, HoldsEnds, near_in, feeder_in, lines_in, HoldsTree};
ghost use Rattle.tree.specs.Queue.{LinkedAbove, of_feeder, leaving, Room, Added, Queue, Reached, Whole};

use arrayvec::ArrayVec;
use network::{End, Network, Side};
use std::marker::Model;

// The code of an end: 1 and 2 are the ends of line 1, 3 and 4 those of line 2.
pub fn code(end: End) -> usize
    requires { LineHeld end.line }
    ensures value { result ≡ end_code end }
    ensures there { EndHeld result end }
{
    2 * (end.line - 1) + end.side.number()
}

// The end with a code.
pub fn end_of(code: usize) -> End
    requires { code < 2 ^ 32 }
    ensures { result ≡ code_end code }
{
    let side = if code % 2 == 1 { Side::One } else { Side::Two };
    End {
        line: (code + 1) / 2,
        side,
    }
}

// The closed ends at a station that are left of its list, by rising codes. A clause sees the list of them.
#[derive(Drop)]
pub struct ClosedEnds<'a> {
    nexts: &'a [Option<u16>; 1536],
    code: Option<u16>,
}

impl<'a> Model for ClosedEnds<'a> {
    ghost use Rattle.std.specs.Prelude.{List};
    ghost use Rattle.model.specs.Paths.{End as EdgeEnd};
    ghost use Rattle.tree.specs.Linked.{along, Listed};

    ghost Value = { List EdgeEnd };

    ghost view = { λ e. along 1536 e.nexts.now e.code };

    ghost invariant = { λ e. Listed e.nexts.now e.code };
}

impl<'a> Iterator for ClosedEnds<'a> {
    ghost use Rattle.std.specs.Iterator.{YieldsFirst, item_count};

    type Item = End;

    ghost next_gives = { YieldsFirst (λ ends. ends) };

    ghost remaining = { item_count (λ ends. ends) };

    fn next(&mut self) -> Option<End> {
        let code = self.code? as usize;
        self.code = self.nexts[code - 1];
        Some(end_of(code))
    }
}

// The list of the closed ends at each station, by codes: the first end of each station's list, and the end behind each end.
// Arrays of codes lie in fixed memory, without a heap: each station's list is a chain through `nexts`.
#[derive(Drop)]
struct Lists {
    firsts: [Option<u16>; 512],
    nexts: [Option<u16>; 1536],
}

impl Lists {
    // Room for the lists, all of them empty.
    fn new() -> Lists {
        Lists {
            firsts: [None; 512],
            nexts: [None; 1536],
        }
    }

    // Leaves every list empty.
    fn clear(&mut self)
        ensures { (k : ℕ) → get_or self.new.firsts k None ≡ None }
    {
        self.firsts = [None; 512];
        self.nexts = [None; 1536];
    }

    // Puts an end, if it is closed, before those at its station, which have higher codes.
    fn insert(&mut self, net: &Network, end: End)
        requires { Read net.now × LineThere net.now end.line }
        ensures { LinkedAbove net.now (end_code end) self.old
            → LinkedAbove net.now (end_code end - 1) self.new }
    {
        let code = code(end);
        if !net.is_open(end) {
            let station = net.end_station(end);
            self.nexts[code - 1] = self.firsts[station - 1];
            self.firsts[station - 1] = Some(code as u16);
        }
    }

    // Links the closed ends of a network, from the last line to the first.
    fn link(&mut self, net: &Network)
        requires { Read net.now }
        ensures { HoldsLists net.now self.new }
    {
        self.clear();
        for line in (1..net.line_count() + 1).rev() {
            self.insert(
                net,
                End {
                    line,
                    side: Side::Two,
                },
            );
            self.insert(
                net,
                End {
                    line,
                    side: Side::One,
                },
            );
        }
    }

    // The closed ends at a station.
    fn closed_ends(&self, station: usize) -> ClosedEnds<'_>
        requires { HasList self.now station }
        ensures { result ≡ listed_ends self.now station }
    {
        ClosedEnds {
            nexts: &self.nexts,
            code: self.firsts[station - 1],
        }
    }
}

// Whether an end is of the line that feeds its station, if one does.
pub fn is_of(end: End, fed: Option<usize>) -> bool
    ensures { result ≡ of_feeder fed end }
{
    fed == Some(end.line)
}

// How a line is fed: the side of its near end, and the line that feeds its near station, none where that is an HV station.
#[derive(Clone, Copy)]
struct Feed {
    side: Side,
    feeder: Option<usize>,
}

// How each line is fed, and the lines in an order in which each comes after the one that feeds it.
#[derive(Drop)]
struct Supply {
    lines: [Feed; 768],
    order: ArrayVec<usize, 768>,
}

impl Supply {
    // Room for the lines, none of them noted.
    fn new() -> Supply
        ensures { result.order.items ≡ [] }
    {
        Supply {
            lines: [Feed {
                side: Side::One,
                feeder: None,
            }; 768],
            order: ArrayVec::new(),
        }
    }

    // The near end of a line.
    fn near(&self, line: usize) -> End
        requires { LineHeld line }
        ensures { result ≡ noted_near self.now.lines line }
    {
        End {
            line,
            side: self.lines[line - 1].side,
        }
    }

    // Notes no line.
    fn clear(&mut self)
        ensures { (self.new.order.items ≡ []) × (length self.new.lines ≡ 768) }
    {
        self.order.clear();
    }

    // Notes the lines of some ends, but for the line that feeds their station: each end is its line's near end.
    fn append(&mut self, ends: ClosedEnds<'_>, fed: Option<usize>)
        requires { Room self.old ends fed }
        ensures { Added (leaving fed ends.entry) fed self.old self.new }
    {
        for end in ends {
            if !is_of(end, fed) {
                self.lines[end.line - 1] = Feed {
                    side: end.side,
                    feeder: fed,
                };
                self.order.push(end.line);
            }
        }
    }

    // Notes the lines that leave the HV stations.
    fn start(&mut self, net: &Network, lists: &Lists)
        requires { Read net.now × Rules net.now × HoldsLists net.now lists.now }
        ensures { Queue net.now (Reached net.now []) self.new }
    {
        self.clear();
        for station in 1..net.station_count() + 1 {
            if net.is_hv(station) {
                self.append(lists.closed_ends(station), None);
            }
        }
    }

    // Notes the lines that leave the far station of the line at place i of the order, if its far end is closed.
    fn follow(&mut self, net: &Network, lists: &Lists, i: usize)
        requires read { Read net.now × Rules net.now × HoldsLists net.now lists.now }
        requires queue { Queue net.now (Reached net.now (take i self.old.order.items)) self.old
            × (i < length self.old.order.items) }
        ensures { Queue net.now (Reached net.now (take (i + 1) self.new.order.items)) self.new
            × (i < length self.new.order.items) }
    {
        let line = self.order[i];
        let far = self.near(line).other();
        if !net.is_open(far) {
            self.append(lists.closed_ends(net.end_station(far)), Some(line));
        }
    }

    // Notes all lines, from the HV stations outwards.
    fn spread(&mut self, net: &Network, lists: &Lists)
        requires { Read net.now × Rules net.now × HoldsLists net.now lists.now }
        ensures { Whole net.now self.new }
    {
        self.start(net, lists);
        // by index, since the order grows while it is passed
        let mut i = 0;
        while i < self.order.len() {
            self.follow(net, lists, i);
            i += 1;
        }
    }
}

// The tree of a radial network. It does not borrow its network, beside which it lies in a loaded file, since a value can't borrow from
// itself: so that it is the network's (`HoldsTree`, and `HoldsEnds` of its lists alone) stands in the clauses.
#[derive(Drop)]
pub struct Tree {
    lists: Lists,
    supply: Supply,
}

impl Tree {
    // Room for a tree. It is large for a stack, so it is grown where it lies.
    pub fn new() -> Tree
        ensures { lines_in result ≡ [] }
    {
        Tree {
            lists: Lists::new(),
            supply: Supply::new(),
        }
    }

    // Makes its lists those of a network, which need not be radial.
    pub fn link(&mut self, net: &Network)
        requires { Read net.now }
        ensures ends { HoldsEnds net.now self.new }
        ensures others { ((l : ℕ) → (near_in self.new l ≡ near_in self.old l) × (feeder_in self.new l ≡ feeder_in self.old l))
            × (lines_in self.new ≡ lines_in self.old) }
    {
        self.lists.link(net);
    }

    // Makes it the tree of a network.
    pub fn grow(&mut self, net: &Network)
        requires { Read net.now × Rules net.now }
        ensures tree { HoldsTree net.now self.new }
        ensures count { length (lines_in self.new) ≡ length net.now.lines }
    {
        self.link(net);
        self.supply.spread(net, &self.lists);
    }

    // The end of a line nearer to the HV station.
    pub fn near(&self, line: usize) -> End
        requires { LineHeld line }
        ensures { result ≡ near_in self.now line }
    {
        self.supply.near(line)
    }

    // The end of a line farther from the HV station.
    pub fn far(&self, line: usize) -> End
        requires { LineHeld line }
        ensures { result ≡ far (near_in self.now line) }
    {
        self.near(line).other()
    }

    // The line that feeds the near station of a line, none where that is an HV station.
    pub fn feeder(&self, line: usize) -> Option<usize>
        requires { LineHeld line }
        ensures { result ≡ feeder_in self.now line }
    {
        self.supply.lines[line - 1].feeder
    }

    // The lines from the HV stations outwards: each comes after the one that feeds it.
    pub fn lines(&self) -> &[usize]
        ensures { result.now ≡ lines_in self.now }
    {
        self.supply.order.as_slice()
    }

    // The closed ends at a station.
    pub fn closed_ends(&self, station: usize) -> ClosedEnds<'_>
        requires { HasEnds self.now station }
        ensures { result ≡ ends_in self.now station }
    {
        self.lists.closed_ends(station)
    }
}
