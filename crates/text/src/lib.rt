// The writers of the report's lines. Each function here, and in the crates that write rows, writes at the start of a lent buffer and
// answers the length of what it put there; its contract says each byte. `write!` would not do: its contract says what was written where
// it answers Ok, and not that it does so where there is room, while these functions cannot fail.
#![tactic(auto)]

ghost use Rattle.std.specs.Prelude.{◌≡◌, ◌+◌, ◌*◌, ◌≤◌, ◌<◌, length, set};
ghost use Rattle.model.specs.Text.{decimal, printed_line};
ghost use Rattle.text.specs.Over.{Written};

// A byte at a position of a buffer.
fn put_byte(buf: &mut [u8], at: usize, byte: u8)
    requires { at < length buf.old }
    ensures { buf.new ≡ set buf.old at byte }
{
    buf[at] = byte;
}

// The decimal digits of a number at the start of a buffer; answers how many. They are those of the specification's text, `decimal`, which
// those of the library's writers would have to be proved to be: that is no plainer.
pub fn put_number(buf: &mut [u8], n: u64) -> usize
    requires { 20 ≤ length buf.old }
    ensures written { Written (decimal n) buf.old buf.new result }
    ensures short { (1 ≤ result) × (result ≤ 20) }
{
    if n < 10 {
        put_byte(buf, 0, 48 + n as u8);
        1
    } else {
        let at = put_number(buf, n / 10);
        put_byte(buf, at, 48 + (n % 10) as u8);
        at + 1
    }
}

// A printed line, a letter and each number behind a comma, at the start of a buffer; answers its length.
pub fn put_line(buf: &mut [u8], letter: u8, numbers: &[u64]) -> usize
    requires { 2 + 21 * length numbers.now ≤ length buf.old }
    ensures written { Written (printed_line letter numbers.now) buf.old buf.new result }
    ensures short { result ≤ 2 + 21 * length numbers.now }
{
    put_byte(buf, 0, letter);
    let mut at: usize = 1;
    for &number in numbers {
        put_byte(buf, at, b',');
        at += 1;
        at += put_number(&mut buf[at..], number);
    }
    put_byte(buf, at, b'\n');
    at + 1
}
