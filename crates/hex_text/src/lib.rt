// Bytes in hexadecimal digits, for the programs that run listed cases: a list is comma-separated text, and what is lent to a call may be any bytes.
//
// What each function leaves in a lent buffer is promised for any bytes: as much as fits, and behind it what the buffer held. A byte that is no digit
// counts as 0. That the digits of bytes stand for these bytes is a law (proofs/Encoding, `decoded_encoded`).
#![tactic(auto)]

ghost use Rattle.std.specs.Prelude.{◌<◌, ◌%◌, ◌≡◌};
ghost use Rattle.hex_text.specs.Hex.{IsPrefixLen, worth, digit, Decoded, Encoded};

// What a hexadecimal digit is worth; anything else is 0.
fn worth(byte: u8) -> u8
    ensures value { result ≡ worth byte }
    ensures below { result < 16 }
{
    match byte {
        b'0'..=b'9' => byte - b'0',
        b'a'..=b'f' => byte - b'a' + 10,
        _ => 0,
    }
}

// Bytes from their hexadecimal digits, two by two, as many as fit; how many is answered.
pub fn decode(hex: &[u8], bytes: &mut [u8]) -> usize
    ensures decoded { Decoded hex.now bytes.old bytes.new result }
    ensures within { IsPrefixLen result bytes.new }
{
    let n = bytes.len().min(hex.len() / 2);
    for i in 0..n {
        let high = worth(hex[2 * i]);
        let low = worth(hex[2 * i + 1]);
        bytes[i] = high * 16 + low;
    }
    n
}

// The last hexadecimal digit of a number.
fn digit_of(number: u8) -> u8
    ensures { result ≡ digit (number % 16) }
{
    match number % 16 {
        worth @ 0..=9 => b'0' + worth,
        worth => b'a' + (worth - 10),
    }
}

// The bytes in hexadecimal digits, two a byte, as many whole bytes as fit; how many digits there are is answered.
pub fn encode(bytes: &[u8], out: &mut [u8]) -> usize
    ensures encoded { Encoded bytes.now out.old out.new result }
    ensures within { IsPrefixLen result out.new }
{
    let n = bytes.len().min(out.len() / 2);
    for i in 0..n {
        let high = digit_of(bytes[i] / 16);
        let low = digit_of(bytes[i]);
        out[2 * i] = high;
        out[2 * i + 1] = low;
    }
    2 * n
}
