// The segment table as rows of text, at the start of a lent buffer, as crate `text` writes them, and for its reason. The table is the
// whole that the call was lent, of which it filled so many entries.
#![tactic(auto)]

ghost use Rattle.std.specs.Prelude.{◌+◌, ◌*◌, ◌≤◌, length};
ghost use Rattle.text.specs.Over.{Written};
ghost use Rattle.segment_rows.specs.Rows.{entry_row, entry_rows, table_text};

// The T row of an entry of a segment table, counted from 0; answers its length.
fn put_entry(table: &[u64], i: usize, out: &mut [u8]) -> usize
    requires { (5 * i + 5 ≤ length table.now) × (107 ≤ length out.old) }
    ensures { Written (entry_row table.now i) out.old out.new result × (result ≤ 107) }
{
    let from = 5 * i;
    text::put_line(out, b'T', &table[from..from + 5])
}

// The T rows of the first entries of a segment table; answers their length. By index, since an entry is where its number says.
fn put_entries(table: &[u64], entries: usize, out: &mut [u8]) -> usize
    requires { (5 * entries ≤ length table.now) × (107 * entries ≤ length out.old) × (entries ≤ 1536) }
    ensures { Written (entry_rows entries table.now) out.old out.new result
        × (result ≤ 107 * entries) }
{
    let mut at: usize = 0;
    for i in 0..entries {
        at += put_entry(table, i, &mut out[at..]);
    }
    at
}

// The rows of a segment table: how many entries it has, and each of them; answers their length.
pub fn put_table(table: &[u64], entries: usize, out: &mut [u8]) -> usize
    requires { (5 * entries ≤ length table.now) × (entries ≤ 1536) × (164375 ≤ length out.old) }
    ensures { Written (table_text entries table.now) out.old out.new result }
{
    let at = text::put_line(out, b'G', &[entries as u64]);
    at + put_entries(table, entries, &mut out[at..])
}
