// A table of rows over the caller's slice. Full, it keeps the first rows and still counts all that are offered.
ghost use Rattle.std.specs.Prelude.{◌≡◌, slice_set};
ghost use Rattle.rows.specs.Rows.{one_more, FirstKept};

// The slice is the caller's, and the count goes on past its end. Each call says that the slice is still the one that was lent,
// so that the caller knows what it holds in the end.
#[derive(Drop)]
pub struct RowTable<'a, R> {
    rows: &'a mut [R],
    total: usize,
}

impl<'a, R: Drop> RowTable<'a, R> {
    // An empty table over these rows, which are left as they are until rows are offered.
    pub fn new(rows: &'a mut [R]) -> RowTable<'a, R>
        ensures total { result.total ≡ 0 }
        ensures rows { result.rows.now ≡ rows.old }
        ensures lender { result.rows.ghost_name ≡ rows.entry.ghost_name }
    {
        RowTable { rows, total: 0 }
    }

    // Begins again: the next row offered is the first.
    pub fn clear(&mut self)
        ensures total { self.new.total ≡ 0 }
        ensures rows { self.new.rows.now ≡ self.old.rows.now }
        ensures lender { self.new.rows.ghost_name ≡ self.old.rows.ghost_name }
    {
        self.total = 0;
    }

    // Takes a row behind those offered before, if there is room, and counts it in any case.
    pub fn offer(&mut self, row: R)
        ensures total { self.new.total ≡ one_more self.old.total }
        ensures rows { self.new.rows.now ≡ slice_set self.old.rows.now self.old.total row }
        ensures lender { self.new.rows.ghost_name ≡ self.old.rows.ghost_name }
    {
        // By index: what a slice holds once it was written to through `get_mut` is promised nowhere.
        if self.total < self.rows.len() {
            self.rows[self.total] = row;
        }
        self.total = self.total.saturating_add(1);
    }

    // How many rows were offered, at most 2^64 - 1.
    pub fn total(&self) -> usize
        ensures { result ≡ self.now.total }
    {
        self.total
    }
}

// Rows offered one by one to an empty table fill the caller's slice from its start, as far as there is room.
// By the repository's rule a function that only names a law answers 0.
pub fn first_rows_are_kept<R: Drop>() -> u8
    ensures { FirstKept R }
{
    0
}
