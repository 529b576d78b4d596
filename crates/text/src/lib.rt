// Decimal text: numbers and lines of numbers, printed into a lent buffer.
#![tactic(auto)]

ghost use Rattle.std.specs.Prelude.{◌≡◌, [], ◌∷◌, ◌++◌, ◌+◌, ◌^◌, ◌≤◌, ◌<◌, length};
ghost use Rattle.std.proofs.lemmas.List.Edits.{sets};
ghost use Rattle.text.specs.Decimal.{digits, decimal, behind, line};

// At most `most` digits of n from `at` on; the place behind them.
fn put_digits(n: u64, most: usize, out: &mut [u8], at: usize) -> usize
    requires { at + length (digits most n) ≤ length out.old }
    ensures { (result ≡ at + length (digits most n)) × (out.new ≡ sets out.old at (digits most n)) }
{
    if most < 1 {
        return at;
    }
    let last = (48 + n % 10) as u8;
    if n < 10 {
        out[at] = last;
        return at + 1;
    }
    let next = put_digits(n / 10, most - 1, out, at);
    out[next] = last;
    next + 1
}

// Writes n in decimal from `at` on; the place behind it.
pub fn put_number(n: u64, out: &mut [u8], at: usize) -> usize
    requires { at + length (decimal n) ≤ length out.old }
    ensures { (result ≡ at + length (decimal n)) × (out.new ≡ sets out.old at (decimal n)) }
{
    put_digits(n, 20, out, at)
}

// Writes bytes from `at` on; the place behind them.
pub fn put_bytes(text: &[u8], out: &mut [u8], at: usize) -> usize
    requires { at + length text.now ≤ length out.old }
    ensures { (result ≡ at + length text.now) × (out.new ≡ sets out.old at text.now) }
{
    let end = at + text.len();
    lists::copy(text, &mut out[at..end]);
    end
}

// Writes a comma and n.
fn put_behind(n: u64, out: &mut [u8], at: usize) -> usize
    requires { at + length (44 ∷ decimal n) ≤ length out.old }
    ensures { (result ≡ at + length (44 ∷ decimal n)) × (out.new ≡ sets out.old at (44 ∷ decimal n)) }
{
    out[at] = b',';
    put_number(n, out, at + 1)
}

// Writes the numbers behind a line's first, each behind a comma, and the line feed.
fn put_rest(rest: &[u64], out: &mut [u8], at: usize) -> usize
    requires { at + length (behind rest.now ++ (10 ∷ [])) ≤ length out.old }
    ensures { (result ≡ at + length (behind rest.now ++ (10 ∷ []))) × (out.new ≡ sets out.old at (behind rest.now ++ (10 ∷ []))) }
{
    let mut place = at;
    for n in rest {
        place = put_behind(*n, out, place);
    }
    out[place] = b'\n';
    place + 1
}

// Writes a line of numbers from `at` on, with commas between them; the place behind it.
pub fn put_line(numbers: &[u64], out: &mut [u8], at: usize) -> usize
    requires { at + length (line numbers.now) ≤ length out.old }
    ensures { (result ≡ at + length (line numbers.now)) × (out.new ≡ sets out.old at (line numbers.now)) }
{
    let [first, rest @ ..] = numbers else {
        out[at] = b'\n';
        return at + 1;
    };
    let next = put_number(*first, out, at);
    put_rest(rest, out, next)
}

// How many bytes n takes in decimal.
pub fn decimal_length(n: u64) -> usize
    ensures { result ≡ length (decimal n) }
{
    let mut rest = n;
    for more in 0..20 {
        if rest < 10 {
            return more + 1;
        }
        rest /= 10;
    }
    20
}

// How many bytes a line of numbers takes. The bound keeps the sum within 64 bits.
pub fn line_length(numbers: &[u64]) -> usize
    requires { length numbers.now < 2 ^ 59 }
    ensures { result ≡ length (line numbers.now) }
{
    if numbers.is_empty() {
        return 1;
    }
    let mut total = 0;
    for n in numbers {
        total += 1 + decimal_length(*n);
    }
    total
}
