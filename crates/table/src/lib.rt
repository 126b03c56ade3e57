#![tactic(auto)]
// Stores into lent tables. A store past the end is ignored, so that whoever fills a table counts everything and
// judges the count at the end.
ghost use Rattle.std.specs.Prelude.{◌≡◌, [], ◌≤◌, length, set};
ghost use Rattle.table.specs.Table.{pad_to, put_row};

// Stores a byte, where the index is within the text.
pub fn put_byte(text: &mut [u8], i: usize, v: u8)
    ensures { text.new ≡ set text.old i v }
{
    // No `get_mut`: after the borrow that it lends, a proof knows the slice's length and no element.
    if i < text.len() {
        text[i] = v;
    }
}

// Stores the words of the row numbered `row`, where the table has room for the whole of it.
pub fn put_row(table: &mut [u64], row: usize, words: &[u64])
    requires { (row ≤ 4294967296) × (length words.now ≤ 4096) }
    ensures { table.new ≡ put_row table.old row words.now }
{
    let width = words.len();
    let start = row * width;
    if start + width <= table.len() {
        table[start..start + width].copy_from_slice(words);
    }
}

// Every word zero.
pub fn clear(table: &mut [u64])
    ensures { table.new ≡ pad_to (length table.old) [] }
{
    table.fill(0);
}

// Every byte zero.
pub fn clear_bytes(text: &mut [u8])
    ensures { text.new ≡ pad_to (length text.old) [] }
{
    text.fill(0);
}
