// The bounds of a search: of the places from each one on, the sums of the largest savings.
#![tactic(auto)]

ghost use Rattle.std.specs.Prelude.{ℕ, ◌≡◌, ◌-◌, ◌≤◌, ◌<◌, length};
ghost use Rattle.model.specs.Walk.{insert};
ghost use Rattle.bounds.specs.Table.{Small, IsTable, Column};

use arrayvec::ArrayVec;

// For each number of places that a set may still get, and each number of places that are passed over, the sum of the largest
// savings of the places behind those.
#[derive(Drop)]
pub struct Bounds {
    // for 0 to 16 and 0 to 64 places: fixed memory, without a heap
    sums: [[u64; 65]; 17],
    ghost table: { IsTable sums },
}

// Inserts a saving into savings in falling order.
fn insert_falling(list: &mut ArrayVec<u64, 64>, saving: u64)
    requires { length list.old.items < 64 }
    ensures { list.new.items ≡ insert saving list.old.items }
{
    let at = list
        .iter()
        .position(|held| *held <= saving)
        .unwrap_or(list.len());
    // by index: the library's `insert` would have the archive for C ask for `memmove`
    let mut next = saving;
    for i in at..list.len() {
        let held = list[i];
        list[i] = next;
        next = held;
    }
    list.push(next);
}

impl Bounds {
    ghost use Rattle.model.specs.Network.{Network};
    ghost use Rattle.bounds.specs.Bounds.{HoldsSums, HoldsBounds, sum_in, most_saved};

    // Room for the bounds, with 0 for each sum.
    pub fn new() -> Bounds
        ensures { (left passed : ℕ) → sum_in result left passed ≡ 0 }
    {
        Bounds {
            sums: [[0; 65]; 17],
        }
    }

    // Writes the sums of the first 0 to 16 of savings in falling order, all of them if there are fewer, where so many places are
    // passed over.
    fn write_sums(&mut self, passed: usize, list: &[u64])
        requires { (passed ≤ 64) × (length list.now ≤ 64) × Small list.now }
        ensures { Column list.now passed self.old.sums self.new.sums }
    {
        let mut sum = 0;
        // by number, since sums are written for more places than the list may have
        for left in 0..17 {
            self.sums[left][passed] = sum;
            if left < list.len() {
                sum += list[left];
            }
        }
    }

    // The bounds of the places with these savings.
    pub fn fill(&mut self, savings: &[u64])
        requires { (length savings.now ≤ 64) × Small savings.now }
        ensures { HoldsSums savings.now self.new }
    {
        let mut list = ArrayVec::new();
        self.write_sums(savings.len(), &list);
        for (passed, &saving) in savings.iter().enumerate().rev() {
            insert_falling(&mut list, saving);
            self.write_sums(passed, &list);
        }
    }

    // The sum of the `left` largest savings of the places from `from` on.
    pub fn most_saved(&self, left: usize, from: usize) -> u64
        requires { (left ≤ 16) × (1 ≤ from) × (from ≤ 65) }
        ensures read { result ≡ sum_in self.now left (from - 1) }
        ensures most { (N : Network) → HoldsBounds N self.now → from ≤ length N.places
            → result ≡ most_saved N left from }
    {
        self.sums[left][from - 1]
    }
}
