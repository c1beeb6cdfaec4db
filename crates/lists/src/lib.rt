// Lists of numbers: one written over the start of another.
#![tactic(auto)]

ghost use Rattle.std.specs.Prelude.{◌≡◌, ◌++◌, ◌≤◌, length, drop};

// Writes a list at the start of what is lent.
pub fn put_numbers(list: &[u64], lent: &mut [u64])
    requires { length list.now ≤ length lent.old }
    ensures { lent.new ≡ list.now ++ drop (length list.now) lent.old }
{
    lent[..list.len()].copy_from_slice(list);
}
