// Bytes put into a buffer one after another: text, and numbers as digits. That the bytes are what the rule says is
// proved (`AnswerText`), which `write!` would leave open.
ghost use Rattle.std.specs.Prelude.{◌+◌, ◌-◌, ◌*◌, ◌≤◌, ◌≡◌, length};
ghost use Rattle.io.specs.Digits.{last_digits, IsDigitCount};
ghost use Rattle.card_text.specs.Text.{number_line, number_lines};
ghost use Rattle.card_text.specs.Growing.{Grown};

// Puts bytes at a place, and answers the place after them.
pub(crate) fn put(text: &mut [u8], at: usize, bytes: &[u8]) -> usize
    requires { at + length bytes.now ≤ length text.old }
    ensures value { result ≡ at + length bytes.now }
    ensures grown { Grown at text.old bytes.now result text.new }
{
    let end = at + bytes.len();
    text[at..end].copy_from_slice(bytes);
    end
}

// Puts a number's decimal digits.
pub(crate) fn put_decimal(text: &mut [u8], at: usize, number: u64) -> usize
    requires { at + 20 ≤ length text.old }
    ensures lower_bound { at ≤ result }
    ensures upper_bound { result ≤ at + 20 }
    ensures digit_count { IsDigitCount 10 1 number (result - at) }
    ensures grown { Grown at text.old (last_digits 10 (result - at) number) result text.new }
{
    let mut digits = [0u8; 20];
    let count = io::decimal(number, &mut digits);
    put(text, at, &digits[..count])
}

// Puts a number's 16 digits and the line's end.
fn put_number(text: &mut [u8], at: usize, number: f64) -> usize
    requires { at + 17 ≤ length text.old }
    ensures value { result ≡ at + 17 }
    ensures grown { Grown at text.old (number_line number) result text.new }
{
    let mut digits = [0u8; 16];
    let count = io::hex(patterns::pattern_of(number), 16, &mut digits);
    let end = put(text, at, &digits[..count]);
    put(text, end, b"\n")
}

// Puts numbers, each on a line.
pub(crate) fn put_numbers(text: &mut [u8], at: usize, numbers: &[f64]) -> usize
    requires { at + 17 * length numbers.now ≤ length text.old }
    ensures value { result ≡ at + 17 * length numbers.now }
    ensures grown { Grown at text.old (number_lines numbers.now) result text.new }
{
    let mut end = at;
    for &number in numbers {
        end = put_number(text, end, number);
    }
    end
}
