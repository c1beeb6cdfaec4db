// Parts, fields and numbers of a file.
#![tactic(auto)]

ghost use Rattle.std.specs.Prelude.{◌≡◌, true, false, ◌≤◌, ◌<◌, length, eqb, MatchOption};
ghost use Rattle.model.specs.Format.{comma, number_of, after_letter, fields_of};
ghost use Rattle.fields.specs.Fields.{up_to, form_says};

// Where a separator stands first, if it does.
pub fn first_of(bytes: &[u8], separator: u8) -> Option<usize>
    ensures { MatchOption result (up_to separator bytes.now ≡ length bytes.now)
        (λ at. (at ≡ up_to separator bytes.now) × (at < length bytes.now)) }
{
    bytes.iter().position(|byte| *byte == separator)
}

// Whether a field is empty.
fn is_empty(digits: usize) -> bool
    ensures { (result ≡ true → digits < 1) × (result ≡ false → 1 ≤ digits) }
{
    digits < 1
}

// Whether a field has more than ten digits. It shares `<` alone with `too_long` of crate `reader`: one function would be no plainer.
fn many_digits(digits: usize) -> bool
    ensures { (result ≡ true → 10 < digits) × (result ≡ false → digits ≤ 10) }
{
    10 < digits
}

// The number of a field: one to ten digits, and no leading zero. `str::parse` takes a sign and leading zeros too, and only text.
pub fn read_number(field: &[u8]) -> Option<u64>
    ensures { result ≡ number_of field.now }
{
    if is_empty(field.len()) || many_digits(field.len()) {
        return None;
    }
    let several = 1 < field.len();
    if several && field[0] == b'0' {
        return None;
    }
    let mut value = 0u64;
    for &byte in field {
        if !byte.is_ascii_digit() {
            return None;
        }
        value = value * 10 + u64::from(byte - b'0');
    }
    Some(value)
}

// Whether a byte parts two fields.
fn is_comma(byte: u8) -> bool
    ensures { result ≡ eqb byte comma }
{
    byte == b','
}

// The numbers of a record of a kind: its letter, then just so many fields with a number each as `row` has room for. None where the
// record has not this form. The row is lent, since it is the caller's who knows how long rows are: there is no heap to make one in.
pub fn read_form(bytes: &[u8], letter: u8, row: &mut [u64]) -> Option<()>
    ensures { form_says result row.new ≡ after_letter letter (length row.old) (fields_of bytes.now) }
{
    let mut fields = bytes.split(|byte| is_comma(*byte));
    if fields.next()? != [letter].as_slice() {
        return None;
    }
    for number in row.iter_mut() {
        *number = read_number(fields.next()?)?;
    }
    match fields.next() {
        None => Some(()),
        Some(_) => None,
    }
}
