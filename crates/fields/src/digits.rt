// Digits, and what they are worth (document 01, the job book: "1 to 9 digits, no leading zero save 0 itself").
//
// The worth of nine digits fits a word, and the answer is exact whatever the bytes.
ghost use Rattle.fields.specs.steps.Digits.{DigitsAre};

// What a content is worth as digits; nothing, where it is not digits.
pub(crate) fn digits_of(content: &[u8]) -> Option<u32>
    ensures { DigitsAre content.now result }
{
    let n = content.len();
    if (n == 0) | (9 < n) {
        return None;
    }
    let mut worth: u32 = 0;
    for (i, b) in content.iter().enumerate() {
        // not a digit, or behind a leading zero
        if (*b < b'0') | (b'9' < *b) | ((0 < i) & (worth == 0)) {
            return None;
        }
        worth = worth * 10 + u32::from(*b - b'0');
    }
    Some(worth)
}
