// Places in a text, and the words of a list.
ghost use Rattle.std.specs.Prelude.{◌≤◌, length};

// The place of the first byte `b` from `from` on, or the text's length.
pub fn find(text: &[u8], from: usize, b: u8) -> usize
    requires { from ≤ length text.now }
    ensures { (from ≤ result) × (result ≤ length text.now) }
{
    for i in from..text.len() {
        if text[i] == b {
            return i;
        }
    }
    text.len()
}

// The place after the first `n` blanks, or the text's length.
fn after(text: &[u8], n: u64) -> usize
    ensures { result ≤ length text.now }
{
    let mut left = n;
    for i in 0..text.len() {
        if left == 0 {
            return i;
        }
        if text[i] == b' ' {
            left -= 1;
        }
    }
    text.len()
}

// Word `n`, from 0 on, of a list of words with a blank between: an empty one where there is none.
pub fn word(list: &[u8], n: u64) -> &[u8] {
    let start = after(list, n);
    let end = find(list, start, b' ');
    &list[start..end]
}
