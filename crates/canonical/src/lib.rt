#![tactic(auto)]

ghost use Rattle.std.specs.Prelude.{◌≡◌, ◌+◌, ◌-◌, ◌*◌, ◌<◌, ◌≤◌, length, get_or};
ghost use Rattle.base.specs.Search.{every};
ghost use Rattle.stored.specs.Stored.{stores_symbol};
ghost use Rattle.table.specs.Places.{rows_at, row_size, row_place};
ghost use Rattle.table.specs.Area.{decode, canonical};
ghost use Rattle.canonical.specs.Parts.{as_encoded, row_as_encoded, zero_from};

// The bytes from one place up to another are zero; past the end they are.
fn are_zero(a: &[u8], from: usize, to: usize) -> bool
    ensures { result ≡ zero_from a.now from (to - from) }
{
    let end = to.min(a.len());
    // no early end, so that many bytes are compared at once
    a[from.min(end)..end]
        .iter()
        .fold(true, |all, b| all & (*b == 0))
}

// The name, what stands behind it, the kind and the starting value are as the encoding has them.
fn head_stored(a: &[u8]) -> bool
    ensures { result ≡ every rows_at (as_encoded a.now) }
{
    let size = usize::from(table::byte_at(a, 0));
    size == table::name_length(a)
        && are_zero(a, table::NAME_AT + size, table::KIND_AT)
        && table::byte_at(a, table::KIND_AT) == table::kind_byte(table::sequential(a))
        && table::byte_at(a, table::START_AT) == table::start(a).to_byte()
}

// Column k of row i.
fn column_stored(a: &[u8], i: usize, k: usize) -> bool
    requires row { i < length (decode a.now).rows }
    requires place { 2 * k + 1 < row_size }
    ensures { result ≡ stores_symbol (get_or a.now (row_place i (2 * k)) 0) (get_or a.now (row_place i (2 * k + 1)) 0) }
{
    stored::stores_symbol(
        table::byte_in_row(a, i, 2 * k),
        table::byte_in_row(a, i, 2 * k + 1),
    )
}

// The first n columns of row i.
fn columns_stored(a: &[u8], i: usize, n: usize) -> bool
    requires { (i < length (decode a.now).rows) × (n ≤ (decode a.now).inputs) × (2 * n ≤ row_size) }
    ensures { result ≡ row_as_encoded a.now i (2 * n) }
{
    (0..n).all(|k| column_stored(a, i, k))
}

// Row i; where there are more columns than a row has room for, they take all of it.
fn row_stored(a: &[u8], i: usize) -> bool
    requires { i < length (decode a.now).rows }
    ensures { result ≡ row_as_encoded a.now i row_size }
{
    let n = table::inputs(a);
    if base::INPUTS < n {
        return columns_stored(a, i, table::ROW_SIZE / 2);
    }
    let at = table::ROWS_AT + i * table::ROW_SIZE;
    columns_stored(a, i, n)
        && are_zero(a, at + 2 * n, at + table::STATE_AT)
        && stored::stores_level(table::byte_in_row(a, i, table::STATE_AT))
        && stored::stores_output(table::byte_in_row(a, i, table::OUTPUT_AT))
}

// The first m rows.
fn rows_stored(a: &[u8], m: usize) -> bool
    requires { m ≤ length (decode a.now).rows }
    ensures { result ≡ every m (λ i. row_as_encoded a.now i row_size) }
{
    (0..m).all(|i| row_stored(a, i))
}

// Each byte is the one that the encoding of the table has there.
pub fn is_canonical(a: &[u8]) -> bool
    ensures { result ≡ canonical a.now }
{
    let m = table::rows(a).min(base::ROWS);
    head_stored(a)
        && rows_stored(a, m)
        && are_zero(a, table::ROWS_AT + m * table::ROW_SIZE, table::AREA)
}
