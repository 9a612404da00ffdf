// Numbers of the text: decimals without needless zeros, at most the largest u64.
#![tactic(auto)]

ghost use Rattle.std.specs.Prelude.{◌≡◌, ◌≤◌, length};
ghost use Rattle.text.specs.Line.{number_at, row_at};

// The number in the field that starts at `at`, and the place right behind the field.
#[tactic(auto, using(crate::proofs::Ends::field_ends))]
pub fn read_number(line: &[u8], at: usize) -> Option<(u64, usize)>
    ensures { result ≡ number_at line.now at }
{
    match line.get(at..)? {
        [] | [b'\t', ..] => None,
        [b'0'] | [b'0', b'\t', ..] => Some((0, at + 1)),
        [b'0', ..] => None,
        _ => read_row(line, at),
    }
}

// The row of digits from `at` up to the next tab or the end. It stops at the first byte that is no digit, and a value past the
// largest is found before it would wrap.
#[tactic(auto, using(crate::proofs::Ends::row_ends))]
fn read_row(line: &[u8], at: usize) -> Option<(u64, usize)>
    // `line.get(at..)` has said so: past the end the answer's place would not be the line's end
    requires { at ≤ length line.now }
    ensures { result ≡ row_at line.now at }
{
    let mut v: u64 = 0;
    for i in at..line.len() {
        let c = line[i];
        if c == b'\t' {
            return Some((v, i));
        }
        if !c.is_ascii_digit() {
            return None;
        }
        v = v.checked_mul(10)?.checked_add(u64::from(c - b'0'))?;
    }
    Some((v, line.len()))
}
