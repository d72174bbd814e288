// A table that is offered a row, if there is one.
ghost use Rattle.std.specs.Prelude.{◌≡◌};
ghost use Rattle.listing.specs.Tables.{Offered};

use rows::RowTable;

pub(crate) fn offer<'a, R: Drop>(rows: &mut RowTable<'a, R>, row: Option<R>)
    ensures offered { Offered row rows.old rows.new }
    ensures lender { rows.new.rows.ghost_name ≡ rows.old.rows.ghost_name }
{
    if let Some(row) = row {
        rows.offer(row);
    }
}
