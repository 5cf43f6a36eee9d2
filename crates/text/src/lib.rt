// Rows as text, put on a page (document 01, "The request program").
#![tactic(auto)]

pub mod page;

ghost use Rattle.std.specs.Prelude.{◌≡◌, ◌+◌, ◌++◌, ◌≤◌, length};
ghost use Rattle.text.specs.Page.{written, capacity, SamePage};
ghost use Rattle.text.specs.Text.{row_text, node_text, end_text, head_text, long_text};

use page::Page;

// The columns of a row; `-` stands where there is no node.
#[derive(Clone, Copy)]
pub struct Row {
    pub n: usize,
    pub code: usize,
    pub node: Option<u32>,
    pub atoms: usize,
    pub pairs: usize,
    pub heap: usize,
}

// The node column, and a space after it.
fn put_node(page: &mut Page, node: Option<u32>)
    requires { length (written page.old) + 21 ≤ capacity page.old }
    ensures text { written page.new ≡ written page.old ++ node_text node }
    ensures capacity { capacity page.new ≡ capacity page.old }
    ensures same { SamePage page.old page.new }
    ensures bound { length (written page.new) ≤ length (written page.old) + 21 }
{
    match node {
        Some(n) => page.put_number(n as usize, b' '),
        None => page.put(b"- "),
    }
}

// A row: six columns, one space between them, a newline after them.
pub fn put_row(page: &mut Page, row: Row)
    requires { length (written page.old) + 126 ≤ capacity page.old }
    ensures text { written page.new ≡ written page.old ++ row_text row }
    ensures capacity { capacity page.new ≡ capacity page.old }
    ensures same { SamePage page.old page.new }
    ensures bound { length (written page.new) ≤ length (written page.old) + 126 }
{
    page.put_number(row.n, b' ');
    page.put_number(row.code, b' ');
    put_node(page, row.node);
    page.put_number(row.atoms, b' ');
    page.put_number(row.pairs, b' ');
    page.put_number(row.heap, b'\n');
}

// The header.
pub fn put_head(page: &mut Page)
    requires { length (written page.old) + 29 ≤ capacity page.old }
    ensures text { written page.new ≡ written page.old ++ head_text }
    ensures capacity { capacity page.new ≡ capacity page.old }
    ensures same { SamePage page.old page.new }
{
    page.put(b"n code node atoms pairs heap\n");
}

// The last line: records shown, then released.
pub fn put_end(page: &mut Page, shown: usize, released: usize)
    requires { length (written page.old) + 46 ≤ capacity page.old }
    ensures text { written page.new ≡ written page.old ++ end_text shown released }
    ensures capacity { capacity page.new ≡ capacity page.old }
    ensures same { SamePage page.old page.new }
    ensures bound { length (written page.new) ≤ length (written page.old) + 46 }
{
    page.put(b"end ");
    page.put_number(shown, b' ');
    page.put_number(released, b'\n');
}

// What is printed of an input that is too long.
pub fn put_long(page: &mut Page)
    requires { length (written page.old) + 9 ≤ capacity page.old }
    ensures text { written page.new ≡ written page.old ++ long_text }
    ensures capacity { capacity page.new ≡ capacity page.old }
    ensures same { SamePage page.old page.new }
{
    page.put(b"too long\n");
}
