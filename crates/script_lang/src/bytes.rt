// The bytes that words are made of.
ghost use Rattle.std.specs.Prelude.{◌≡◌, ◌≤◌, ◌<◌, ◌^◌, length, true};
ghost use Rattle.std.specs.List.{prefix_len};
ghost use Rattle.script_lang.specs.Bytes.{is_blank, is_digit, is_inner, is_letter, is_numeral, value_from};
ghost use Rattle.script_lang.specs.Scans.{name_len, number_len, after_blanks};

/// Whether this is a space, a tab or a carriage return.
pub fn is_blank_byte(b: u8) -> bool
    ensures { result ≡ is_blank b }
{
    b == b' ' || b == b'\t' || b == b'\r'
}

pub fn is_digit_byte(b: u8) -> bool
    ensures { result ≡ is_digit b }
{
    b <= b'9' && b >= b'0'
}

pub fn is_letter_byte(b: u8) -> bool
    ensures { result ≡ is_letter b }
{
    (b <= b'Z' && b >= b'A') || (b <= b'z' && b >= b'a')
}

fn is_inner_byte(b: u8) -> bool
    ensures { result ≡ is_inner b }
{
    is_letter_byte(b) || is_digit_byte(b) || b == b'_'
}

fn digits_len(bytes: &[u8]) -> usize
    ensures len { result ≡ prefix_len is_digit bytes.now }
    ensures within { result ≤ length bytes.now }
{
    bytes.iter().take_while(|b| is_digit_byte(**b)).count()
}

fn inner_len(bytes: &[u8]) -> usize
    ensures len { result ≡ prefix_len is_inner bytes.now }
    ensures within { result ≤ length bytes.now }
{
    bytes.iter().take_while(|b| is_inner_byte(**b)).count()
}

/// How many bytes at the front are a name, 0 for none.
#[tactic(auto, unfolding(crate::specs::Scans::name_len))]
pub fn front_name_len(bytes: &[u8]) -> usize
    ensures len { result ≡ name_len bytes.now }
    ensures within { result ≤ length bytes.now }
{
    match bytes {
        [] => 0,
        [first, more @ ..] => {
            if is_letter_byte(*first) {
                1 + inner_len(more).min(15)
            } else {
                0
            }
        }
    }
}

/// How many bytes at the front are a number, 0 for none.
#[tactic(auto, unfolding(crate::specs::Scans::number_len))]
pub fn front_number_len(bytes: &[u8]) -> usize
    ensures len { result ≡ number_len bytes.now }
    ensures within { result ≤ length bytes.now }
{
    match bytes {
        [] => 0,
        [first, ..] => {
            if *first == b'0' {
                1
            } else {
                digits_len(bytes).min(18)
            }
        }
    }
}

/// The number that digits are.
#[tactic(auto, unfolding(crate::specs::Bytes::value_from))]
pub fn value(digits: &[u8]) -> u64
    requires { is_numeral digits.now ≡ true }
    ensures value { result ≡ value_from 0 digits.now }
    ensures small { result < 10 ^ 18 }
{
    let mut n = 0u64;
    for b in digits {
        n = 10 * n + u64::from(*b - b'0');
    }
    n
}

/// What stands behind the blanks at the front.
#[tactic(auto, unfolding(crate::specs::Scans::after_blanks))]
pub fn without_blanks(bytes: &[u8]) -> &[u8]
    ensures { result.now ≡ after_blanks bytes.now }
{
    let mut rest = bytes;
    while let [first, more @ ..] = rest {
        if !is_blank_byte(*first) {
            return rest;
        }
        rest = more;
    }
    rest
}
