// Reads a line: its first letter, and its numbers.

#[derive(Clone, Copy)]
pub(crate) struct Line {
    pub(crate) letter: u8,
    // the number right behind the letter, and those behind the word
    pub(crate) own: Option<u64>,
    pub(crate) numbers: [Option<u64>; 10],
}

// An empty line is a remark.
pub(crate) fn read(bytes: &[u8]) -> Line {
    let said = bytes.split(|byte| *byte == b'#').next().unwrap_or(bytes);
    let mut fields = said.split(|byte| *byte == b' ');
    let own = fields.next().and_then(number);
    let mut numbers = [None; 10];
    for (place, field) in numbers.iter_mut().zip(fields) {
        *place = number(field);
    }
    Line {
        letter: bytes.first().copied().unwrap_or(b'#'),
        own,
        numbers,
    }
}

// The digits of a field, whatever else stands between them. The largest number stands for none.
fn number(field: &[u8]) -> Option<u64> {
    field
        .iter()
        .filter_map(|byte| char::from(*byte).to_digit(10))
        .fold(None, |number, digit| Some(longer(number, u64::from(digit))))
        .filter(|number| *number != u64::MAX)
}

// With one more digit. What would be past the largest number starts anew with it.
fn longer(number: Option<u64>, digit: u64) -> u64 {
    number
        .and_then(|number| number.checked_mul(10))
        .and_then(|tens| tens.checked_add(digit))
        .unwrap_or(digit)
}

// Where every number has a meaning, the largest is meant by one that is not there.
pub(crate) fn or_largest(number: Option<u64>) -> u64 {
    number.unwrap_or(u64::MAX)
}
