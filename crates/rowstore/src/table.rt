// A table of rows that lends one of them.
ghost use Rattle.std.specs.Prelude.{◌≡◌, ◌<◌, length, slice_index_or, slice_set};
ghost use Rattle.std.specs.Borrow.{sem, follows};
ghost use Rattle.rowstore.specs.contracts.table.Table.{the_row as table_row};

#[derive(Drop)]
pub struct Table<R, const N: usize> {
    pub rows: [R; N],
}

impl<R, const N: usize> Table<R, N> {
    // the table's row i is at the end what the lent row is at its end
    pub(crate) fn row_mut(&mut self, i: usize) -> &mut R
        requires { i < N }
        ensures* follows { sem 𝓛 (follows (table_row R.row N.row) R.row self.entry.ghost_name result.ghost_name (λ w. record { rows = slice_set self.old.rows i w })) }
        ensures value { (d : R) → result.now ≡ slice_index_or self.old.rows i d }
        ensures same { slice_set self.old.rows i result.now ≡ self.old.rows }
        ensures len { length self.old.rows ≡ N }
    {
        &mut self.rows[i]
    }

    pub(crate) fn row(&self, i: usize) -> &R
        requires { i < N }
        ensures value { (d : R) → result.now ≡ slice_index_or self.now.rows i d }
        ensures len { length self.now.rows ≡ N }
    {
        &self.rows[i]
    }
}
